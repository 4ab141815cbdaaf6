//! Which messages were sent, and who takes part in a topic, by looking through the whole list of events.
ghost use Rattle.std.specs.Prelude.{◌≡◌, ◌==◌, ◌&&◌, ◌||◌, ◌+◌, List, false, length, is_some, count_by};
ghost use Rattle.std.specs.Option.{option_map_or};
ghost use Rattle.std.specs.Str.{str_eq_ignore_ascii_case};
ghost use Rattle.notice_ledger.specs.Past.Values.{deal_count, is_message, is_participant, is_to_topic, makes_deal, message as message_of_number, messages, sending_of, sent_by};
ghost use Rattle.notice_ledger.specs.Past.Triggers.{goes_to, is_recipient};
ghost use Rattle.notice_ledger.specs.Past.Refusals.{is_sender, may_read};

use crate::bars::is_deleted;
use crate::values::{is_number, is_one_of, is_subscribed};
use chat_model::{ChannelId, DealNo, Event, MessageId, Request, Stamped, UserId};

fn sends(event: &Event) -> bool
    ensures { result ≡ makes_deal event.now }
{
    matches!(
        event,
        Event::Asked(Request::Send { .. } | Request::Direct { .. })
    )
}

/// How many events send a message.
fn send_count(past: &[Stamped]) -> usize
    ensures { result ≡ count_by (λ s. makes_deal s.event) past.now }
{
    past.iter().filter(|stamped| sends(&stamped.event)).count()
}

/// The number of the next message.
pub fn next_message(past: &[Stamped]) -> MessageId
    ensures { result.0 ≡ length (messages past.now) + 1 }
{
    MessageId(send_count(past) as u64 + 1)
}

/// The number of the next deal.
pub fn next_deal(past: &[Stamped]) -> DealNo
    ensures { result.0 ≡ deal_count past.now }
{
    DealNo(send_count(past) as u64)
}

/// Whether the event is a send of the user to the topic of the channel.
fn sends_to_topic(event: &Event, user: UserId, channel: ChannelId, topic: &str) -> bool
    ensures { result ≡ option_map_or (λ m. m.sender.0 == user.0 && is_to_topic channel topic.now m.to) (sending_of event.now) false }
{
    match event {
        Event::Asked(
            Request::Send {
                sender,
                channel: other,
                topic: named,
                ..
            },
        ) => {
            sender.0 == user.0 && other.0 == channel.0 && topic.eq_ignore_ascii_case(named.as_str())
        }
        _ => false,
    }
}

/// Whether the user takes part in the topic of the channel: the user sent a message to it that isn't deleted.
pub fn is_participant(past: &[Stamped], user: UserId, channel: ChannelId, topic: &str) -> bool
    ensures { result ≡ is_participant past.now user channel topic.now }
{
    for i in 0..past.len() {
        if sends_to_topic(&past[i].event, user, channel, topic)
            && !is_deleted(past, next_message(&past[..i]))
        {
            return true;
        }
    }
    false
}

/// Whether there is or was a message of that number.
fn is_sent(past: &[Stamped], message: MessageId) -> bool
    ensures { result ≡ is_some (message_of_number past.now message) }
{
    is_number(message.0, send_count(past))
}

/// Whether there is a message of that number, and it isn't deleted.
pub fn is_message(past: &[Stamped], message: MessageId) -> bool
    ensures { result ≡ is_message past.now message }
{
    is_sent(past, message) && !is_deleted(past, message)
}

/// Whether an event behind these sends the message.
fn sends_message(past: &[Stamped], message: MessageId, event: &Event) -> bool
    ensures { result ≡ (makes_deal event.now && length (messages past.now) + 1 == message.0) }
{
    sends(event) && next_message(past).0 == message.0
}

/// Whether the event is a send of the user.
fn is_send_of(user: UserId, event: &Event) -> bool
    ensures { (past : List Stamped) → result ≡ option_map_or (is_sender user) (sent_by past event.now) false }
{
    match event {
        Event::Asked(Request::Send { sender, .. }) => sender.0 == user.0,
        Event::Asked(Request::Direct { sender, .. }) => sender.0 == user.0,
        _ => false,
    }
}

/// Whether the message that an event behind these sends goes to the user.
fn is_send_to(past: &[Stamped], user: UserId, event: &Event) -> bool
    ensures { result ≡ option_map_or (λ sent. goes_to past.now sent.to user) (sent_by past.now event.now) false }
{
    match event {
        Event::Asked(Request::Send { channel, .. }) => is_subscribed(past, user, *channel),
        Event::Asked(Request::Direct { to, .. }) => is_one_of(to.as_slice(), user),
        _ => false,
    }
}

/// Whether the user sent or received the message that an event behind these sends.
fn is_sent_or_received(past: &[Stamped], user: UserId, event: &Event) -> bool
    ensures { result ≡ option_map_or (λ sent. is_sender user sent || is_recipient sent user) (sent_by past.now event.now) false }
{
    is_send_of(user, event) || is_send_to(past, user, event)
}

/// Whether the user sent the message.
pub fn is_sender_of(past: &[Stamped], user: UserId, message: MessageId) -> bool
    ensures { result ≡ option_map_or (is_sender user) (message_of_number past.now message) false }
{
    for i in 0..past.len() {
        let event = &past[i].event;
        if sends_message(&past[..i], message, event) {
            return is_send_of(user, event);
        }
    }
    false
}

/// Whether the user sent or received the message.
fn is_concerned(past: &[Stamped], user: UserId, message: MessageId) -> bool
    ensures { result ≡ option_map_or (λ sent. is_sender user sent || is_recipient sent user) (message_of_number past.now message) false }
{
    for i in 0..past.len() {
        let event = &past[i].event;
        if sends_message(&past[..i], message, event) {
            return is_sent_or_received(&past[..i], user, event);
        }
    }
    false
}

/// Whether there is the message, and the user sent or received it.
pub fn may_read(past: &[Stamped], user: UserId, message: MessageId) -> bool
    ensures { result ≡ may_read past.now user message }
{
    is_message(past, message) && is_concerned(past, user, message)
}
