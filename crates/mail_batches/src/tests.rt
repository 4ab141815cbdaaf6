ghost use Rattle.std.specs.Prelude.{◌≡◌, [], ◌∷◌, ◌++◌, map, OnOk};
ghost use Rattle.mail_batches.specs.Entries.{message_of};

use crate::{Batches, DueUser, ReadyItem, entries};
use chat_model::{
    ChannelId, Conversation, Entry, Item, List, MessageId, Moment, OutOfMemory, Text, Trigger,
    UserId,
};
use std::alloc::Global;
use std::test::Fail;

#[test]
fn batches_keep_rows_and_due_moments_by_user(rt: HostRuntime) -> Result<(), Fail> {
    let earlier = Moment::new(90).ok_or("a moment")?;
    let later = Moment::new(100).ok_or("a moment")?;
    let mut batches = Batches::new(rt.alloc());
    assert_eq!(rt; batches.first_due(), None);
    batches.reserve(3)?;
    batches.ready(UserId(2), MessageId(1), later, 120);
    batches.ready(UserId(1), MessageId(2), earlier, 120);
    batches.ready(UserId(1), MessageId(4), later, 120);
    assert_eq!(rt; batches.due(UserId(2)), Some(220));
    assert_eq!(rt; batches.due(UserId(1)), Some(210));
    assert_eq!(rt;
        batches.rows(UserId(1)),
        [MessageId(2), MessageId(4)].as_slice()
    );
    let first = DueUser {
        due: 210,
        user: UserId(1),
    };
    assert_eq!(rt; batches.first_due(), Some(first));
    batches.shift(UserId(2), 120, 110);
    assert_eq!(rt; batches.first_due(), Some(first));
    assert_eq!(rt; batches.due(UserId(2)), Some(210));
    batches.shift(UserId(2), 110, 30);
    let moved = DueUser {
        due: 130,
        user: UserId(2),
    };
    assert_eq!(rt; batches.first_due(), Some(moved));
    batches.settle(UserId(2));
    assert_eq!(rt; batches.due(UserId(2)), None);
    assert!(rt; batches.rows(UserId(2)).is_empty());
    assert_eq!(rt; batches.first_due(), Some(first));
    Ok(())
}

/// Adds a message of a conversation.
fn add(
    alloc: Global,
    items: &mut List<ReadyItem>,
    message: u64,
    conversation: Conversation,
) -> Result<(), OutOfMemory>
    ensures { OnOk result (map message_of items.new ≡ map message_of items.old ++ message ∷ []) }
{
    let item = Item {
        message: MessageId(message),
        sender: UserId(1),
        sender_name: Text::from_str(alloc, "Ada")?,
        trigger: Trigger::Mention,
        via: None,
        text: Text::from_str(alloc, "hi @**Ben**")?,
    };
    items.push(ReadyItem { conversation, item })
}

fn topic(alloc: Global, topic: &str) -> Result<Conversation, OutOfMemory> {
    Ok(Conversation::Channel {
        channel: ChannelId(1),
        name: Text::from_str(alloc, "team")?,
        topic: Text::from_str(alloc, topic)?,
    })
}

fn direct(alloc: Global, sender: u64) -> Result<Conversation, OutOfMemory> {
    let mut users = List::new(alloc);
    users.push(UserId(1))?;
    users.push(UserId(2))?;
    users.push(UserId(3))?;
    Ok(Conversation::Direct {
        users,
        sender: UserId(sender),
    })
}

/// What each entry shows: its topic or nothing, its sender or 0, and its messages.
const TABLE: [(&str, u64, &[u64]); 3] = [("Lunch", 0, &[1, 5]), ("", 3, &[2, 6]), ("", 1, &[4])];

#[test]
fn entries_stand_by_their_first_message(rt: HostRuntime) -> Result<(), Fail> {
    let alloc = rt.alloc();
    let mut items = List::new(alloc);
    add(alloc, &mut items, 6, direct(alloc, 3)?)?;
    add(alloc, &mut items, 5, topic(alloc, "lunch")?)?;
    add(alloc, &mut items, 1, topic(alloc, "Lunch")?)?;
    add(alloc, &mut items, 4, direct(alloc, 1)?)?;
    add(alloc, &mut items, 2, direct(alloc, 3)?)?;
    let name = Text::from_str(alloc, "Ben")?;
    let at = Moment::new(220).ok_or("a moment")?;
    let made = entries(alloc, UserId(2), &name, at, items)?;
    assert_eq!(rt; made.len(), TABLE.len());
    for (entry, (topic_shown, sender_shown, messages)) in made.as_slice().iter().zip(TABLE) {
        match entry {
            Entry::Mail {
                user,
                name,
                at,
                conversation,
                items,
            } => {
                assert_eq!(rt; *user, UserId(2));
                assert_eq!(rt; name.as_str(), "Ben");
                assert_eq!(rt; at.seconds(), 220);
                match conversation {
                    Conversation::Channel { topic, .. } => {
                        assert_eq!(rt; topic.as_str(), topic_shown);
                    }
                    Conversation::Direct { sender, .. } => {
                        assert_eq!(rt; sender.0, sender_shown);
                    }
                }
                assert_eq!(rt; items.len(), messages.len());
                for (item, message) in items.as_slice().iter().zip(messages) {
                    assert_eq!(rt; item.message.0, *message);
                }
            }
            Entry::Push { .. } | Entry::Remove { .. } => panic!(rt; "another entry"),
        }
    }
    Ok(())
}
