//! What bars a notice, and whether a message is deleted, by looking through the whole list of events.
ghost use Rattle.std.specs.Prelude.{◌≡◌, ◌&&◌, ◌==◌, nat_lt, is_none, is_some, option_and_then};
ghost use Rattle.std.specs.List.{list_any};
ghost use Rattle.notice_ledger.specs.Past.Journal.{occurrence};
ghost use Rattle.notice_ledger.specs.Past.Values.{deletes, is_deleted, reads};
ghost use Rattle.notice_ledger.specs.Past.Owed.{bar_behind, bar_cause};
ghost use Rattle.notice_ledger.specs.Plain.{bar_found, bar_kept};

use crate::owed::Owed;
use chat_model::{Cause, Event, MessageId, Request, Stamped, UserId};

/// An event that bars a notice: its place in the list, from 0, and its cause.
#[derive(Clone, Copy, Debug)]
pub struct FoundBar {
    pub place: usize,
    pub cause: Cause,
}

/// Whether the message is one of these.
pub fn has_message(messages: &[MessageId], message: MessageId) -> bool
    ensures { result ≡ list_any (λ n. n.0 == message.0) messages.now }
{
    messages.iter().any(|other| other.0 == message.0)
}

/// Whether the event is a read of the message by the user.
fn reads(user: UserId, message: MessageId, event: &Event) -> bool
    ensures { result ≡ reads user message event.now }
{
    match event {
        Event::Asked(
            Request::Read {
                user: reader,
                messages,
            },
        ) => reader.0 == user.0 && has_message(messages.as_slice(), message),
        _ => false,
    }
}

/// Whether the event deletes the message.
fn deletes(message: MessageId, event: &Event) -> bool
    ensures { result ≡ deletes message event.now }
{
    match event {
        Event::Asked(Request::Delete { message: other, .. }) => other.0 == message.0,
        _ => false,
    }
}

/// Whether an event deletes the message.
#[tactic(auto, unfolding(crate::specs::Past::Values::is_deleted))]
pub fn is_deleted(past: &[Stamped], message: MessageId) -> bool
    ensures { result ≡ is_deleted past.now message }
{
    past.iter().any(|stamped| deletes(message, &stamped.event))
}

/// The cause with which an event behind these bars the notice, if it bars it.
#[tactic(auto, unfolding(crate::specs::Past::Owed::bar_cause))]
fn bar_cause(past: &[Stamped], notice: &Owed, stamped: &Stamped) -> Option<Cause>
    ensures { result ≡ bar_cause notice.now.user notice.now.message notice.now.way (occurrence past.now stamped.now) }
{
    let event = &stamped.event;
    if reads(notice.user, notice.message, event) {
        Some(Cause::Read)
    } else if deletes(notice.message, event) {
        Some(Cause::Deleted)
    } else {
        None
    }
}

/// The first event behind a place that bars the notice.
pub fn bar_behind(journal: &[Stamped], place: usize, notice: &Owed) -> Option<FoundBar>
    ensures { result ≡ option_and_then (bar_found notice.now) (bar_behind place notice.now.user notice.now.message notice.now.way journal.now) }
{
    for i in 0..journal.len() {
        if place < i {
            if let Some(cause) = bar_cause(&journal[..i], notice, &journal[i]) {
                return Some(FoundBar { place: i, cause });
            }
        }
    }
    None
}

/// The notice's bar: the first event behind the owing one that bars it.
pub fn bar(journal: &[Stamped], notice: &Owed) -> Option<FoundBar>
    ensures { result ≡ option_and_then (bar_found notice.now) (bar_kept journal.now notice.now) }
{
    bar_behind(journal, notice.place, notice)
}

/// Whether none of these events bars the notice.
pub fn is_unbarred(past: &[Stamped], notice: &Owed) -> bool
    ensures { result ≡ is_none (bar_kept past.now notice.now) }
{
    bar(past, notice).is_none()
}
