//! What of the deals that were sent still waits, user by user.
ghost use Rattle.std.specs.Prelude.{◌≡◌, ◌==◌, [], true, not, All, OnOk, filter, find, map};
ghost use Rattle.std.specs.List.{list_any};
ghost use Rattle.std.specs.Option.{option_copied, option_map_or};
ghost use Rattle.chat_model.specs.declared.ids.UserId.{UserId};
ghost use Rattle.missed_hook.specs.Outstanding.{gives_live, has_deal, is_live};
ghost use Rattle.presence_queues.specs.Fields.{HasRoomIfLive, deals_of, forgotten, has_entry, waiting_of, waiting_seen, with_live};

use chat_model::{DealNo, OutOfMemory, UserId, UserVerdict, Verdict};
use std::alloc::Global;

/// The deals that wait for a user, ascending.
#[derive(Debug, Drop)]
pub struct Waiting {
    pub user: UserId,
    pub deals: Vec<DealNo>,
}

/// Whether one of the verdicts is Live for the user.
fn gives_live(verdicts: &[UserVerdict], user: UserId) -> bool
    ensures { result ≡ gives_live verdicts.now user }
{
    verdicts.iter().any(|given| {
        given.user.0 == user.0
            && match given.verdict {
                Verdict::Live => true,
                Verdict::Idle => false,
            }
    })
}

/// Whether the deals have this one.
fn has_deal(deals: &[DealNo], deal: DealNo) -> bool
    ensures { result ≡ has_deal deals.now deal }
{
    deals.iter().any(|other| other.0 == deal.0)
}

/// Leaves these deals out.
fn leave_out(deals: &mut Vec<DealNo>, gone: &[DealNo])
    ensures { deals.new.items ≡ filter (λ k. not (has_deal gone.now k)) deals.old.items }
{
    deals.retain(|deal| !has_deal(gone, *deal));
}

impl Waiting {
    /// Takes room for a further deal, where a verdict is Live for the user.
    fn reserve_if_live(&mut self, verdicts: &[UserVerdict]) -> Result<(), OutOfMemory>
        ensures same { waiting_of self.new ≡ waiting_of self.old }
        ensures room { OnOk result (HasRoomIfLive verdicts.now self.new) }
    {
        if gives_live(verdicts, self.user) {
            self.deals.reserve(1)?;
        }
        Ok(())
    }

    /// Adds the deal, where a verdict is Live for the user. There is room for it.
    fn add_if_live(&mut self, verdicts: &[UserVerdict], deal: DealNo)
        requires room { HasRoomIfLive verdicts.now self.old }
        ensures { waiting_of self.new ≡ with_live verdicts.now deal (waiting_of self.old) }
    {
        if gives_live(verdicts, self.user) {
            self.deals.push_reserved(deal);
        }
    }

    /// Leaves these deals out, where they are the user's.
    fn forget(&mut self, user: UserId, gone: &[DealNo])
        ensures { waiting_of self.new ≡ forgotten user gone.now (waiting_of self.old) }
    {
        if self.user.0 == user.0 {
            leave_out(&mut self.deals, gone);
        }
    }
}

/// The entry of the user.
fn entry_of(waiting: &[Waiting], user: UserId) -> Option<&Waiting>
    ensures { option_copied result ≡ find (λ w. w.user.0 == user.0) waiting.now }
{
    waiting.iter().find(|entry| entry.user.0 == user.0)
}

/// The deals that wait for the user.
pub fn deals_of(waiting: &[Waiting], user: UserId) -> &[DealNo]
    ensures { result.now ≡ option_map_or (λ w. w.deals.items) (find (λ w. w.user.0 == user.0) waiting.now) [] }
{
    match entry_of(waiting, user) {
        Some(entry) => &entry.deals,
        None => &[],
    }
}

/// Whether the user has an entry.
fn has_entry(waiting: &[Waiting], user: UserId) -> bool
    ensures { result ≡ list_any (λ w. w.user.0 == user.0) waiting.now }
{
    waiting.iter().any(|entry| entry.user.0 == user.0)
}

/// Gives the user an entry, where there is none.
fn enter(alloc: Global, waiting: &mut Vec<Waiting>, user: UserId) -> Result<(), OutOfMemory>
    ensures same { (u : UserId) → deals_of u (waiting_seen waiting.new.items) ≡ deals_of u (waiting_seen waiting.old.items) }
    ensures kept { (u : UserId) → has_entry u (waiting_seen waiting.old.items) ≡ true → has_entry u (waiting_seen waiting.new.items) ≡ true }
    ensures entered { OnOk result (has_entry user (waiting_seen waiting.new.items) ≡ true) }
{
    if !has_entry(waiting, user) {
        waiting.push(Waiting {
            user,
            deals: Vec::new(alloc),
        })?;
    }
    Ok(())
}

/// Gives the user of the verdict an entry, where it is Live.
fn enter_if_live(
    alloc: Global,
    waiting: &mut Vec<Waiting>,
    given: &UserVerdict,
) -> Result<(), OutOfMemory>
    ensures same { (u : UserId) → deals_of u (waiting_seen waiting.new.items) ≡ deals_of u (waiting_seen waiting.old.items) }
    ensures kept { (u : UserId) → has_entry u (waiting_seen waiting.old.items) ≡ true → has_entry u (waiting_seen waiting.new.items) ≡ true }
    ensures entered { OnOk result (is_live given.now.verdict ≡ true → has_entry given.now.user (waiting_seen waiting.new.items) ≡ true) }
{
    match given.verdict {
        Verdict::Live => enter(alloc, waiting, given.user),
        Verdict::Idle => Ok(()),
    }
}

/// Gives each user an entry for whom a verdict is Live.
pub fn enter_live(
    alloc: Global,
    waiting: &mut Vec<Waiting>,
    verdicts: &[UserVerdict],
) -> Result<(), OutOfMemory>
    ensures same { (u : UserId) → deals_of u (waiting_seen waiting.new.items) ≡ deals_of u (waiting_seen waiting.old.items) }
    ensures entered { OnOk result ((u : UserId) → gives_live verdicts.now u ≡ true → has_entry u (waiting_seen waiting.new.items) ≡ true) }
{
    for given in verdicts {
        enter_if_live(alloc, waiting, given)?;
    }
    Ok(())
}

/// Takes room for a further deal of each user for whom a verdict is Live.
pub fn reserve_live(waiting: &mut [Waiting], verdicts: &[UserVerdict]) -> Result<(), OutOfMemory>
    ensures same { waiting_seen waiting.new ≡ waiting_seen waiting.old }
    ensures room { OnOk result (All (HasRoomIfLive verdicts.now) waiting.new) }
{
    for entry in waiting.iter_mut() {
        entry.reserve_if_live(verdicts)?;
    }
    Ok(())
}

/// Adds the deal for each user for whom a verdict is Live. There is room for it.
pub fn add_live(waiting: &mut [Waiting], verdicts: &[UserVerdict], deal: DealNo)
    requires room { All (HasRoomIfLive verdicts.now) waiting.old }
    ensures { waiting_seen waiting.new ≡ map (with_live verdicts.now deal) (waiting_seen waiting.old) }
{
    for entry in waiting.iter_mut() {
        entry.add_if_live(verdicts, deal);
    }
}

/// Leaves these deals out of what waits for the user.
pub fn forget(waiting: &mut [Waiting], user: UserId, gone: &[DealNo])
    ensures { waiting_seen waiting.new ≡ map (forgotten user gone.now) (waiting_seen waiting.old) }
{
    for entry in waiting.iter_mut() {
        entry.forget(user, gone);
    }
}
