//! What a notice's turn decided, and where an owed notice stands, by looking through the whole list of events.
ghost use Rattle.std.specs.Prelude.{◌≡◌, ◌&&◌, None, nat_lt, is_some, option_and_then, option_map, if◌then◌else◌};
ghost use Rattle.notice_ledger.specs.Past.Journal.{first_behind};
ghost use Rattle.notice_ledger.specs.Past.Owed.{account_by, is_mail_turn_of, is_push_turn_of, is_turn_of, switch_on, turn_switch};
ghost use Rattle.notice_ledger.specs.Plain.{account_kept, at_turn_kept, cause_kept, cleared_kept, dealt_kept, decided_kept, decided_unbarred_kept, ready_kept, turn_found, turn_kept};

use crate::Account;
use crate::bars::{bar, is_unbarred};
use crate::owed::Owed;
use crate::readiness::{ready, was_cleared, was_dealt};
use crate::settings::settings;
use chat_model::{Cause, Event, MessageId, PushItem, Settings, Stamped, UserId, Way};

/// A notice's turn: its place in the list, from 0, and what it decided, if no bar of the notice stands before it.
#[derive(Clone, Copy, Debug)]
pub struct FoundTurn {
    pub place: usize,
    pub decided: Option<Account>,
}

fn is_mail_turn_of(user: UserId, event: &Event) -> bool
    ensures { result ≡ is_mail_turn_of user event.now }
{
    match event {
        Event::MailTurn(other) => other.0 == user.0,
        _ => false,
    }
}

fn is_push_turn_of(user: UserId, message: MessageId, event: &Event) -> bool
    ensures { result ≡ is_push_turn_of user message event.now }
{
    match event {
        Event::PushTurn(
            PushItem::Notify {
                user: other,
                message: turned,
            },
        ) => other.0 == user.0 && turned.0 == message.0,
        _ => false,
    }
}

/// Whether the event is a turn of the notice: by mail one of its user, and by push one of the notice itself.
fn is_turn_of(notice: &Owed, event: &Event) -> bool
    ensures { result ≡ is_turn_of notice.now.user notice.now.message notice.now.way event.now }
{
    match notice.way {
        Way::Mail => is_mail_turn_of(notice.user, event),
        Way::Push => is_push_turn_of(notice.user, notice.message, event),
    }
}

/// The switch that a turn of the way looks at.
fn turn_switch(way: Way, settings: &Settings) -> bool
    ensures { result ≡ turn_switch way settings.now }
{
    match way {
        Way::Mail => settings.mail_mentions,
        Way::Push => settings.push_mentions || settings.push_online,
    }
}

/// Whether the user's switch for a turn of the way is on.
pub fn is_switch_on(past: &[Stamped], user: UserId, way: Way) -> bool
    ensures { result ≡ switch_on past.now user way }
{
    turn_switch(way, &settings(past, user))
}

/// What a turn behind these events decides of a notice.
fn decided(past: &[Stamped], notice: &Owed) -> Account
    ensures { result ≡ (if switch_on past.now notice.now.user notice.now.way then Account.Handed else Account.Cancelled Cause.SwitchedOff) }
{
    if is_switch_on(past, notice.user, notice.way) {
        Account::Handed
    } else {
        Account::Cancelled(Cause::SwitchedOff)
    }
}

/// Whether an event at a place stands behind another place and is a turn of the notice.
fn is_turn_behind(notice: &Owed, behind: usize, place: usize, event: &Event) -> bool
    ensures { result ≡ (nat_lt behind place && is_turn_of notice.now.user notice.now.message notice.now.way event.now) }
{
    behind < place && is_turn_of(notice, event)
}

/// What a turn behind these events decides of a notice, if none of them bars it.
fn decided_unbarred(past: &[Stamped], notice: &Owed) -> Option<Account>
    ensures { result ≡ decided_unbarred_kept past.now notice.now }
{
    if is_unbarred(past, notice) {
        Some(decided(past, notice))
    } else {
        None
    }
}

/// The first turn of the notice behind a place.
fn turn_behind(journal: &[Stamped], place: usize, notice: &Owed) -> Option<FoundTurn>
    ensures { result ≡ option_map (turn_found notice.now) (first_behind place (λ o. is_turn_of notice.now.user notice.now.message notice.now.way o.event) journal.now) }
{
    for i in 0..journal.len() {
        if is_turn_behind(notice, place, i, &journal[i].event) {
            return Some(FoundTurn {
                place: i,
                decided: decided_unbarred(&journal[..i], notice),
            });
        }
    }
    None
}

/// The notice's turn: the first one behind its ready event.
pub fn turn(journal: &[Stamped], notice: &Owed) -> Option<FoundTurn>
    ensures { result ≡ option_map (turn_found notice.now) (turn_kept journal.now notice.now) }
{
    match ready(journal, notice) {
        Some(spot) => turn_behind(journal, spot.place, notice),
        None => None,
    }
}

/// What the notice's turn decided, if no bar stands before it.
fn at_turn(journal: &[Stamped], notice: &Owed) -> Option<Account>
    ensures { result ≡ at_turn_kept journal.now notice.now }
{
    match turn(journal, notice) {
        Some(turn) => turn.decided,
        None => None,
    }
}

/// Where a notice stands of which no turn decided and which nothing bars.
fn unbarred(journal: &[Stamped], notice: &Owed) -> Account
    ensures { result ≡ account_by None None (is_some (ready_kept journal.now notice.now)) (cleared_kept journal.now notice.now) (dealt_kept journal.now notice.now) }
{
    if ready(journal, notice).is_some() {
        Account::Ready
    } else if was_cleared(journal, notice) {
        Account::LiveQueue
    } else if was_dealt(journal, notice) {
        Account::Held
    } else {
        Account::Flight
    }
}

/// Where a notice stands of which no turn decided.
fn undecided(journal: &[Stamped], notice: &Owed) -> Account
    ensures { result ≡ account_by None (cause_kept journal.now notice.now) (is_some (ready_kept journal.now notice.now)) (cleared_kept journal.now notice.now) (dealt_kept journal.now notice.now) }
{
    match bar(journal, notice) {
        Some(bar) => Account::Cancelled(bar.cause),
        None => unbarred(journal, notice),
    }
}

/// Where an owed notice stands.
pub fn account_of(journal: &[Stamped], notice: &Owed) -> Account
    ensures { result ≡ account_kept journal.now notice.now }
{
    match at_turn(journal, notice) {
        Some(account) => account,
        None => undecided(journal, notice),
    }
}
