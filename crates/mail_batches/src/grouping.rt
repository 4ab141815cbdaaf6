//! How the messages of a mail turn are grouped into entries.
ghost use Rattle.std.specs.Prelude.{◌≡◌, true, [], ◌∷◌, ◌++◌, map, position, IfOk, OnOk};
ghost use Rattle.chat_model.specs.Ascending.{is_ascending_by};
ghost use Rattle.mail_batches.specs.Entries.{message_of, no_message_twice, by_message, entries_of};
ghost use Rattle.mail_batches.specs.Conversations.{same_conversation};
ghost use Rattle.mail_batches.specs.Groups.{entry_from, groups_of};
ghost use Rattle.mail_batches.specs.declared.grouping.ReadyItem.{ReadyItem};
ghost use Rattle.std.specs.Prelude as prelude;

use crate::conversation::is_same;
use chat_model::{Conversation, Entry, Item, List, Moment, OutOfMemory, Text, UserId};
use std::alloc::Global;

/// A message that is to be mailed, with the conversation in which it stands.
#[derive(Debug, Drop)]
pub struct ReadyItem {
    pub conversation: Conversation,
    pub item: Item,
}

/// The items of one conversation.
#[derive(Debug, Drop)]
struct Group {
    conversation: Conversation,
    items: List<Item>,
}

/// Groups the items of a user's mail turn at `at` into entries by conversation, where no message stands in two of them.
/// The entries stand by their first message, and the messages of each ascend. An entry shows the conversation of its
/// first message.
pub fn entries(
    alloc: Global,
    user: UserId,
    name: &Text,
    at: Moment,
    items: List<ReadyItem>,
) -> Result<List<Entry>, OutOfMemory>
    requires { no_message_twice items ≡ true }
    ensures { IfOk result (λ entries. entries ≡ entries_of user name.now at items) }
{
    let items = ascending(items);
    let groups = grouped(alloc, items)?;
    mails(alloc, user, name, at, groups)
}

/// The items by ascending message. It takes no memory.
fn ascending(items: List<ReadyItem>) -> Vec<ReadyItem>
    requires { no_message_twice items ≡ true }
    ensures items { result.items ≡ by_message items }
{
    let mut items = items.into_vec();
    items.sort_unstable_by_key(|ready| ready.item.message.0);
    items
}

/// An entry for each group.
fn mails(
    alloc: Global,
    user: UserId,
    name: &Text,
    at: Moment,
    groups: Vec<Group>,
) -> Result<List<Entry>, OutOfMemory>
    ensures { IfOk result (λ entries. entries ≡ map (entry_from user name.now at) groups.items) }
{
    let mut entries = List::new(alloc);
    for group in groups {
        let Group {
            conversation,
            items,
        } = group;
        let copy = name.copy()?;
        entries.push(Entry::Mail {
            user,
            name: copy,
            at,
            conversation,
            items,
        })?;
    }
    Ok(entries)
}

/// The groups of items that ascend.
fn grouped(alloc: Global, items: Vec<ReadyItem>) -> Result<Vec<Group>, OutOfMemory>
    requires { is_ascending_by message_of items.items ≡ true }
    ensures { IfOk result (λ groups. groups.items ≡ groups_of items.items) }
{
    let mut groups = Vec::new(alloc);
    for ready in items {
        add(alloc, &mut groups, ready)?;
    }
    Ok(groups)
}

/// Adds an item to the group of its conversation, or begins one with it.
fn add(alloc: Global, groups: &mut Vec<Group>, ready: ReadyItem) -> Result<(), OutOfMemory>
    ensures { OnOk result ((items : prelude.List ReadyItem) → is_ascending_by message_of (items ++ ready ∷ []) ≡ true → groups.old.items ≡ groups_of items → groups.new.items ≡ groups_of (items ++ ready ∷ [])) }
{
    let place = place_of(groups, &ready.conversation);
    let ReadyItem { conversation, item } = ready;
    match place {
        Some(place) => {
            let group = &mut groups[place];
            group.items.push(item)?;
        }
        None => {
            let mut items = List::new(alloc);
            items.push(item)?;
            groups.push(Group {
                conversation,
                items,
            })?;
        }
    }
    Ok(())
}

/// The place of the first group of a conversation.
fn place_of(groups: &[Group], conversation: &Conversation) -> Option<usize>
    ensures { result ≡ position (λ g. same_conversation g.conversation conversation.now) groups.now }
{
    groups
        .iter()
        .position(|group| is_same(&group.conversation, conversation))
}
