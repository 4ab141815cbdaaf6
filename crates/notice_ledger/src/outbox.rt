//! How many entries the turns add, by looking through the whole list of events.
ghost use Rattle.std.specs.Prelude.{◌≡◌, ◌&&◌, ℕ, false, filter, is_none, length, map, option_map, IfOk};
ghost use Rattle.std.specs.Option.{option_map_or};
ghost use Rattle.std.specs.List.{filter_map};
ghost use Rattle.notice_ledger.specs.Past.Audit.{in_64_bits};
ghost use Rattle.notice_ledger.specs.Past.Outbox.{conversation_of, entries_by, is_pushed, mail_entries, outbox, push_entries};
ghost use Rattle.notice_ledger.specs.Past.Owed.{notice_to, switch_on};
ghost use Rattle.notice_ledger.specs.Past.Values.{messages, sending_of};
ghost use Rattle.notice_ledger.specs.Plain.{bar_kept, bare_item, ready_item_kept};

use crate::bars::is_unbarred;
use crate::due::batch_rows;
use crate::facts::item_at;
use crate::owed::{Owed, found, notices};
use crate::turns::is_switch_on;
use crate::values::channel_name;
use chat_model::{
    Conversation, Event, Item, List, MessageId, Moment, OutOfMemory, PushItem, Request, Stamped,
    Text, Trigger, UserId, Way, ascending_users,
};
use mail_batches::{ReadyItem, entries};
use std::alloc::Global;

/// The conversation of the message that the event sends, if it sends one.
fn conversation_of(
    alloc: Global,
    past: &[Stamped],
    event: &Event,
) -> Result<Option<Conversation>, OutOfMemory>
    ensures { IfOk result (λ made. made ≡ option_map (λ m. conversation_of past.now m.sender m.to) (sending_of event.now)) }
{
    match event {
        Event::Asked(Request::Send { channel, topic, .. }) => Ok(Some(Conversation::Channel {
            channel: *channel,
            name: channel_name(alloc, past, *channel)?,
            topic: topic.copy()?,
        })),
        Event::Asked(Request::Direct { sender, to, .. }) => {
            let mut users = to.copy()?;
            users.push(*sender)?;
            Ok(Some(Conversation::Direct {
                users: ascending_users(users),
                sender: *sender,
            }))
        }
        _ => Ok(None),
    }
}

/// The conversations of the messages, in the order of their numbers.
fn conversations(alloc: Global, past: &[Stamped]) -> Result<Vec<Conversation>, OutOfMemory>
    ensures { IfOk result (λ found. found.items ≡ map (λ m. conversation_of past.now m.sender m.to) (messages past.now)) }
{
    let mut found = Vec::new(alloc);
    for stamped in past {
        let made = conversation_of(alloc, past, &stamped.event)?;
        if let Some(conversation) = made {
            found.push(conversation)?;
        }
    }
    Ok(found)
}

/// A message's item that shows nothing of it but its number.
fn bare_item(alloc: Global, message: MessageId) -> Result<Item, OutOfMemory>
    ensures { IfOk result (λ item. item ≡ bare_item message) }
{
    Ok(Item {
        message,
        sender: UserId(0),
        sender_name: Text::from_str(alloc, "")?,
        trigger: Trigger::Mention,
        via: None,
        text: Text::from_str(alloc, "")?,
    })
}

/// The messages of these notices with their conversations. How many entries they make is settled by these alone, so
/// nothing else is shown.
fn ready_items(
    alloc: Global,
    past: &[Stamped],
    rows: &[Owed],
) -> Result<List<ReadyItem>, OutOfMemory>
    ensures { IfOk result (λ items. items ≡ filter_map (ready_item_kept past.now) rows.now) }
{
    let conversations = conversations(alloc, past)?;
    let mut items = List::new(alloc);
    for row in rows {
        if let Some(conversation) = item_at(&conversations, row.message.0) {
            let conversation = conversation.copy(alloc)?;
            let item = bare_item(alloc, row.message)?;
            items.push(ReadyItem { conversation, item })?;
        }
    }
    Ok(items)
}

/// Those of the notices that no event bars.
fn unbarred_among(alloc: Global, past: &[Stamped], rows: &[Owed]) -> Result<Vec<Owed>, OutOfMemory>
    ensures { IfOk result (λ unbarred. unbarred.items ≡ filter (λ n. is_none (bar_kept past.now n)) rows.now) }
{
    let unbarred = rows
        .iter()
        .copied()
        .filter(|notice| is_unbarred(past, notice));
    Ok(unbarred.collect(alloc)?)
}

/// How many entries a mail turn of the user adds.
fn turn_entries(
    alloc: Global,
    past: &[Stamped],
    user: UserId,
    at: Moment,
) -> Result<usize, OutOfMemory>
    ensures { IfOk result (λ n. n ≡ length (mail_entries past.now at user)) }
{
    if !is_switch_on(past, user, Way::Mail) {
        return Ok(0);
    }
    let rows = batch_rows(alloc, past, user)?;
    let mailed = unbarred_among(alloc, past, &rows)?;
    let items = ready_items(alloc, past, &mailed)?;
    let name = Text::from_str(alloc, "")?;
    let entries = entries(alloc, user, &name, at, items)?;
    Ok(entries.len())
}

/// Whether a push turn hands the notice over: no event bars it, and the push switch is on.
fn is_handed_over(past: &[Stamped], notice: &Owed) -> bool
    ensures { result ≡ (is_none (bar_kept past.now notice.now) && switch_on past.now notice.now.user Way.Push) }
{
    is_unbarred(past, notice) && is_switch_on(past, notice.user, Way::Push)
}

/// Whether the push turn of the user's notice of the message makes an entry: the notice is owed and is handed over.
fn is_pushed(
    alloc: Global,
    past: &[Stamped],
    user: UserId,
    message: MessageId,
) -> Result<bool, OutOfMemory>
    ensures { IfOk result (λ is. is ≡ option_map_or (is_pushed past.now) (notice_to past.now user message Way.Push) false) }
{
    let notices = notices(alloc, past)?;
    match found(&notices, user, message, Way::Push) {
        Some(notice) => Ok(is_handed_over(past, notice)),
        None => Ok(false),
    }
}

/// How many entries the push turn of the item adds.
fn push_entries(alloc: Global, past: &[Stamped], item: &PushItem) -> Result<usize, OutOfMemory>
    ensures { IfOk result (λ n. (at : ℕ) → n ≡ length (push_entries past.now at item.now)) }
{
    match item {
        PushItem::Notify { user, message } => {
            let is_pushed = is_pushed(alloc, past, *user, *message)?;
            Ok(if is_pushed { 1 } else { 0 })
        }
        PushItem::Remove { .. } => Ok(1),
    }
}

/// How many entries an event behind these adds.
fn entries_by(alloc: Global, past: &[Stamped], stamped: &Stamped) -> Result<usize, OutOfMemory>
    ensures { IfOk result (λ n. n ≡ length (entries_by past.now stamped.now.at stamped.now.event)) }
{
    match &stamped.event {
        Event::MailTurn(user) => turn_entries(alloc, past, *user, stamped.at),
        Event::PushTurn(item) => push_entries(alloc, past, item),
        _ => Ok(0),
    }
}

/// How many entries the events add.
pub fn entry_count(alloc: Global, events: &[Stamped]) -> Result<u64, OutOfMemory>
    ensures { IfOk result (λ n. n ≡ in_64_bits (length (outbox events.now))) }
{
    let mut count: u64 = 0;
    for i in 0..events.len() {
        let more = entries_by(alloc, &events[..i], &events[i])?;
        count = count.saturating_add(more as u64);
    }
    Ok(count)
}
