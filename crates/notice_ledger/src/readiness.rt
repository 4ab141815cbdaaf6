//! When a notice is ready, and what else absorbed outcomes say of it, by looking through the whole list of events.
ghost use Rattle.std.specs.Prelude.{◌≡◌, ◌&&◌, ◌||◌, not, nat_lt, length, option_map};
ghost use Rattle.chat_model.specs.Outcomes.{gives_idle, gives_live, has_deal, is_cleared, is_dealt, is_dealt_idle, is_dealt_live, is_idle, is_live, is_missed};
ghost use Rattle.notice_ledger.specs.Past.Journal.{absorbs};
ghost use Rattle.notice_ledger.specs.Past.Owed.{clears, readies, readies_by};
ghost use Rattle.notice_ledger.specs.Plain.{cleared_kept, dealt_kept, ready_kept, spot_of, unbarred_ready_kept};

use crate::bars::is_unbarred;
use crate::owed::Owed;
use chat_model::{DealNo, Event, Moment, Outcome, Stamped, UserId, UserVerdict, Verdict};

/// Where an event stands: its place in the list, from 0, and its stamp.
#[derive(Clone, Copy, Debug)]
pub struct Spot {
    pub place: usize,
    pub at: Moment,
}

fn is_idle(verdict: Verdict) -> bool
    ensures { result ≡ is_idle verdict }
{
    match verdict {
        Verdict::Idle => true,
        Verdict::Live => false,
    }
}

fn is_live(verdict: Verdict) -> bool
    ensures { result ≡ is_live verdict }
{
    match verdict {
        Verdict::Idle => false,
        Verdict::Live => true,
    }
}

/// Whether one of the verdicts is Idle for the user.
fn gives_idle(verdicts: &[UserVerdict], user: UserId) -> bool
    ensures { result ≡ gives_idle verdicts.now user }
{
    verdicts
        .iter()
        .any(|given| given.user.0 == user.0 && is_idle(given.verdict))
}

/// Whether one of the verdicts is Live for the user.
fn gives_live(verdicts: &[UserVerdict], user: UserId) -> bool
    ensures { result ≡ gives_live verdicts.now user }
{
    verdicts
        .iter()
        .any(|given| given.user.0 == user.0 && is_live(given.verdict))
}

fn has_deal(deals: &[DealNo], deal: DealNo) -> bool
    ensures { result ≡ has_deal deals.now deal }
{
    deals.iter().any(|other| other.0 == deal.0)
}

/// Whether the outcome deals the deal.
fn is_dealt(outcome: &Outcome, deal: DealNo) -> bool
    ensures { result ≡ is_dealt deal outcome.now }
{
    match outcome {
        Outcome::Dealt { deal: dealt, .. } => dealt.0 == deal.0,
        _ => false,
    }
}

/// Whether the outcome deals the deal with Idle for the user.
fn is_dealt_idle(outcome: &Outcome, user: UserId, deal: DealNo) -> bool
    ensures { result ≡ is_dealt_idle user deal outcome.now }
{
    match outcome {
        Outcome::Dealt {
            deal: dealt,
            verdicts,
        } => dealt.0 == deal.0 && gives_idle(verdicts.as_slice(), user),
        _ => false,
    }
}

/// Whether the outcome deals the deal with Live for the user.
fn is_dealt_live(outcome: &Outcome, user: UserId, deal: DealNo) -> bool
    ensures { result ≡ is_dealt_live user deal outcome.now }
{
    match outcome {
        Outcome::Dealt {
            deal: dealt,
            verdicts,
        } => dealt.0 == deal.0 && gives_live(verdicts.as_slice(), user),
        _ => false,
    }
}

/// Whether the outcome clears the deal for the user.
fn is_cleared(outcome: &Outcome, user: UserId, deal: DealNo) -> bool
    ensures { result ≡ is_cleared user deal outcome.now }
{
    match outcome {
        Outcome::Cleared {
            user: named,
            deals,
            ..
        } => named.0 == user.0 && has_deal(deals.as_slice(), deal),
        _ => false,
    }
}

/// Whether the outcome misses the deal for the user.
fn is_missed(outcome: &Outcome, user: UserId, deal: DealNo) -> bool
    ensures { result ≡ is_missed user deal outcome.now }
{
    match outcome {
        Outcome::Missed { user: named, deals } => {
            named.0 == user.0 && has_deal(deals.as_slice(), deal)
        }
        _ => false,
    }
}

/// Whether the absorbed outcome makes the notice ready.
fn readies_by(notice: &Owed, outcome: &Outcome) -> bool
    ensures { result ≡ readies_by notice.now.user notice.now.deal notice.now.online outcome.now }
{
    is_dealt_idle(outcome, notice.user, notice.deal)
        || (notice.online && is_dealt_live(outcome, notice.user, notice.deal))
        || is_missed(outcome, notice.user, notice.deal)
}

/// Whether the event makes the notice ready.
fn readies(notice: &Owed, event: &Event) -> bool
    ensures { result ≡ readies notice.now.user notice.now.deal notice.now.online event.now }
{
    match event {
        Event::Restart => true,
        Event::Absorbed(outcome) => readies_by(notice, outcome),
        _ => false,
    }
}

/// Whether the event clears the notice.
fn clears(notice: &Owed, event: &Event) -> bool
    ensures { result ≡ clears notice.now.user notice.now.deal event.now }
{
    match event {
        Event::Absorbed(outcome) => is_cleared(outcome, notice.user, notice.deal),
        _ => false,
    }
}

/// Whether the event absorbs the notice's deal.
fn deals(notice: &Owed, event: &Event) -> bool
    ensures { result ≡ absorbs (is_dealt notice.now.deal) event.now }
{
    match event {
        Event::Absorbed(outcome) => is_dealt(outcome, notice.deal),
        _ => false,
    }
}

/// Whether an event at a place stands behind the owing one and clears the notice.
fn clears_behind(notice: &Owed, place: usize, event: &Event) -> bool
    ensures { result ≡ (nat_lt notice.now.place place && clears notice.now.user notice.now.deal event.now) }
{
    notice.place < place && clears(notice, event)
}

/// Whether an event behind the owing one cleared the notice.
pub fn was_cleared(journal: &[Stamped], notice: &Owed) -> bool
    ensures { result ≡ cleared_kept journal.now notice.now }
{
    for i in 0..journal.len() {
        if clears_behind(notice, i, &journal[i].event) {
            return true;
        }
    }
    false
}

/// Whether an event at a place stands behind the owing one and absorbs the notice's deal.
fn deals_behind(notice: &Owed, place: usize, event: &Event) -> bool
    ensures { result ≡ (nat_lt notice.now.place place && absorbs (is_dealt notice.now.deal) event.now) }
{
    notice.place < place && deals(notice, event)
}

/// Whether an event behind the owing one absorbed the notice's deal.
pub fn was_dealt(journal: &[Stamped], notice: &Owed) -> bool
    ensures { result ≡ dealt_kept journal.now notice.now }
{
    for i in 0..journal.len() {
        if deals_behind(notice, i, &journal[i].event) {
            return true;
        }
    }
    false
}

/// Whether an event behind these makes the notice ready, and none of them cleared it.
fn is_ready_at(past: &[Stamped], notice: &Owed, event: &Event) -> bool
    ensures { result ≡ (nat_lt notice.now.place (length past.now) && (readies notice.now.user notice.now.deal notice.now.online event.now && not (cleared_kept past.now notice.now))) }
{
    notice.place < past.len() && readies(notice, event) && !was_cleared(past, notice)
}

/// The first event that makes the notice ready, before which none cleared it.
pub fn ready(journal: &[Stamped], notice: &Owed) -> Option<Spot>
    ensures { result ≡ option_map spot_of (ready_kept journal.now notice.now) }
{
    for i in 0..journal.len() {
        let stamped = &journal[i];
        if is_ready_at(&journal[..i], notice, &stamped.event) {
            return Some(Spot {
                place: i,
                at: stamped.at,
            });
        }
    }
    None
}

/// The event that makes the notice ready, unless a bar of it stands before.
pub fn unbarred_ready(journal: &[Stamped], notice: &Owed) -> Option<Spot>
    ensures { result ≡ option_map spot_of (unbarred_ready_kept journal.now notice.now) }
{
    match ready(journal, notice) {
        Some(spot) if is_unbarred(&journal[..spot.place], notice) => Some(spot),
        _ => None,
    }
}
