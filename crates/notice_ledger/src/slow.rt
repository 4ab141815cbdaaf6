//! The account of a notice and the counts, computed plainly: no table, and the whole list for each question.
ghost use Rattle.std.specs.Prelude.{◌≡◌, map, count_by, IfOk};
ghost use Rattle.notice_ledger.specs.Past.Audit.{in_64_bits, removals_waiting, removals_written, same_account, same_cause};
ghost use Rattle.notice_ledger.specs.Past.Owed as lawful_owed;
ghost use Rattle.notice_ledger.specs.Past.Audit as lawful_audit;
ghost use Rattle.notice_ledger.specs.Owed.{account};
ghost use Rattle.notice_ledger.specs.Audit.{counts_of};
ghost use Rattle.notice_ledger.specs.Plain.{account_kept, counts_kept, removals_counted};

use crate::Account;
use crate::kept::lawful_events;
use crate::outbox::entry_count;
use crate::owed::{Owed, found, notices};
use crate::pushes::waiting_items;
use crate::revocations::{RevokedPush, revoked_pushes, waiting_among, written_among};
use crate::turns::account_of;
use chat_model::{Cause, Counts, MessageId, OutOfMemory, PushItem, Stamped, UserId, Way};
use std::alloc::Global;

/// Where a notice stands after events that are all lawful.
fn lawful_account(
    alloc: Global,
    events: &[Stamped],
    user: UserId,
    message: MessageId,
    way: Way,
) -> Result<Account, OutOfMemory>
    ensures { IfOk result (λ a. a ≡ lawful_owed.account events.now user message way) }
{
    let notices = notices(alloc, events)?;
    match found(&notices, user, message, way) {
        Some(notice) => Ok(account_of(events, notice)),
        None => Ok(Account::NotOwed),
    }
}

/// Where the notice of a user, a message and a way stands after any list of events, whose lawful ones alone count. It
/// goes through the whole list for each of them, and is slow.
pub fn account(
    alloc: Global,
    journal: &[Stamped],
    user: UserId,
    message: MessageId,
    way: Way,
) -> Result<Account, OutOfMemory>
    ensures { IfOk result (λ a. a ≡ account journal.now user message way) }
{
    let events = lawful_events(alloc, journal)?;
    lawful_account(alloc, &events, user, message, way)
}

fn is_same_cause(cause: Cause, other: Cause) -> bool
    ensures { result ≡ same_cause cause other }
{
    match (cause, other) {
        (Cause::Read, Cause::Read) => true,
        (Cause::Deleted, Cause::Deleted) => true,
        (Cause::SwitchedOff, Cause::SwitchedOff) => true,
        _ => false,
    }
}

fn is_same(account: Account, other: Account) -> bool
    ensures { result ≡ same_account account other }
{
    match (account, other) {
        (Account::NotOwed, Account::NotOwed) => true,
        (Account::Flight, Account::Flight) => true,
        (Account::Held, Account::Held) => true,
        (Account::Ready, Account::Ready) => true,
        (Account::Handed, Account::Handed) => true,
        (Account::Cancelled(cause), Account::Cancelled(another)) => is_same_cause(cause, another),
        (Account::LiveQueue, Account::LiveQueue) => true,
        _ => false,
    }
}

/// Where each of the notices stands.
fn accounts_of(
    alloc: Global,
    events: &[Stamped],
    notices: &[Owed],
) -> Result<Vec<Account>, OutOfMemory>
    ensures { IfOk result (λ accounts. accounts.items ≡ map (account_kept events.now) notices.now) }
{
    let mut accounts = Vec::new(alloc);
    for notice in notices {
        accounts.push(account_of(events, notice))?;
    }
    Ok(accounts)
}

/// How many of these are this account.
fn count_among(accounts: &[Account], account: Account) -> usize
    ensures { result ≡ count_by (λ a. same_account a account) accounts.now }
{
    accounts
        .iter()
        .filter(|other| is_same(**other, account))
        .count()
}

fn count_of(accounts: &[Account], account: Account) -> u64
    ensures { result ≡ in_64_bits (count_by (λ a. same_account a account) accounts.now) }
{
    count_among(accounts, account) as u64
}

/// How many revoked pushes there are whose removal waits, and how many whose removal was written.
#[derive(Clone, Copy, Debug)]
pub struct RemovalCounts {
    pub waiting: u64,
    pub written: u64,
}

/// How many of the revoked pushes have a removal among the items that wait, and how many have none there.
fn removals_among(waiting: &[PushItem], revoked: &[RevokedPush]) -> RemovalCounts
    ensures { result ≡ removals_counted waiting.now revoked.now }
{
    RemovalCounts {
        waiting: waiting_among(waiting, revoked) as u64,
        written: written_among(waiting, revoked) as u64,
    }
}

/// How many revoked pushes there are whose removal waits, and how many whose removal was written.
fn removals(alloc: Global, events: &[Stamped]) -> Result<RemovalCounts, OutOfMemory>
    ensures counts_waiting { IfOk result (λ removals. removals.waiting ≡ in_64_bits (removals_waiting events.now)) }
    ensures counts_written { IfOk result (λ removals. removals.written ≡ in_64_bits (removals_written events.now)) }
{
    let waiting = waiting_items(alloc, events)?;
    let revoked = revoked_pushes(alloc, events)?;
    Ok(removals_among(&waiting, &revoked))
}

/// The counts of these accounts, with so many entries, and with these removals.
fn counts_among(accounts: &[Account], entries: u64, removals: RemovalCounts) -> Counts
    ensures { result ≡ counts_kept accounts.now entries removals }
{
    Counts {
        flight: count_of(accounts, Account::Flight),
        held: count_of(accounts, Account::Held),
        ready: count_of(accounts, Account::Ready),
        handed: count_of(accounts, Account::Handed),
        read: count_of(accounts, Account::Cancelled(Cause::Read)),
        deleted: count_of(accounts, Account::Cancelled(Cause::Deleted)),
        off: count_of(accounts, Account::Cancelled(Cause::SwitchedOff)),
        live: count_of(accounts, Account::LiveQueue),
        entries,
        waiting: removals.waiting,
        written: removals.written,
    }
}

/// The counts of events that are all lawful.
fn lawful_counts(alloc: Global, events: &[Stamped]) -> Result<Counts, OutOfMemory>
    ensures { IfOk result (λ counts. counts ≡ lawful_audit.counts_of events.now) }
{
    let notices = notices(alloc, events)?;
    let accounts = accounts_of(alloc, events, &notices)?;
    let entries = entry_count(alloc, events)?;
    let removals = removals(alloc, events)?;
    Ok(counts_among(&accounts, entries, removals))
}

/// How many owed notices stand where, and how many outbox entries there are, after any list of events, whose lawful ones
/// alone count. It goes through the whole list for each of them, and is slow.
pub fn audit(alloc: Global, journal: &[Stamped]) -> Result<Counts, OutOfMemory>
    ensures { IfOk result (λ counts. counts ≡ counts_of journal.now) }
{
    let events = lawful_events(alloc, journal)?;
    lawful_counts(alloc, &events)
}
