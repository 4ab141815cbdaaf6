//! What a read or a deletion bars: the notices of some users and messages.
ghost use Rattle.std.specs.Prelude.{◌≡◌, ◌<◌, ◌++◌, not, length, filter, option_to_list, if◌then◌else◌, IfOk, IfSome, OnOk};
ghost use Rattle.std.specs.List.{flat_map, list_any};
ghost use Rattle.book_tables.specs.Notices.{IsInOrder, AreNumbered, IsFound};
ghost use Rattle.book_tables.specs.Bars.{pairs_read, pairs_gone, is_of_pair, is_unbarred_of, is_one_of_pairs, is_pushed_pair, unbarred_tests, is_removed, barred_where, revoked_where, cancelled_of_pair, cancelled_by};
ghost use Rattle.book_tables.specs.Prepared.{removes_where};

use crate::prepared::key_of;
use crate::pushes::PushKey;
use crate::tables::Waiting;
use crate::waiting::{deal_of, find_notice};
use chat_model::{Cause, MessageId, OutOfMemory, RowChange, UserId, Way};
use std::alloc::Global;

/// The user with each of these messages.
pub fn pairs_read(
    alloc: Global,
    user: UserId,
    messages: &[MessageId],
) -> Result<Vec<PushKey>, OutOfMemory>
    ensures { IfOk result (λ pairs. pairs.items ≡ pairs_read user messages.now) }
{
    let pairs = messages.iter().map(|message| PushKey {
        user,
        message: *message,
    });
    Ok(pairs.collect(alloc)?)
}

/// Each of these users with the message.
pub fn pairs_gone(
    alloc: Global,
    users: &[UserId],
    message: MessageId,
) -> Result<Vec<PushKey>, OutOfMemory>
    ensures { IfOk result (λ pairs. pairs.items ≡ pairs_gone users.now message) }
{
    let pairs = users.iter().map(|user| PushKey {
        user: *user,
        message,
    });
    Ok(pairs.collect(alloc)?)
}

/// The place of the user's notice of a message by a way.
fn find_of_pair(notices: &[Waiting], pair: PushKey, way: Way) -> Option<usize>
    ensures within { IfSome result (λ place. place < length notices.now) }
    ensures found { IsInOrder notices.now → AreNumbered notices.now → IsFound (is_of_pair pair way) notices.now result }
{
    let deal = deal_of(pair.message)?;
    find_notice(notices, deal, pair.user, way)
}

/// The notice of a pair by a way, if it is there and nothing bars it.
fn unbarred_of_pair(notices: &[Waiting], pair: PushKey, way: Way) -> Option<Waiting>
    ensures { IsInOrder notices.now → AreNumbered notices.now → option_to_list result ≡ filter (is_unbarred_of pair way) notices.now }
{
    let place = find_of_pair(notices, pair, way)?;
    if notices[place].is_barred() {
        None
    } else {
        Some(notices[place])
    }
}

/// Whether the push of a pair is active, and not revoked.
pub fn is_active_unrevoked(active: &[Waiting], pair: PushKey) -> bool
    ensures { IsInOrder active.now → AreNumbered active.now → result ≡ list_any (is_unbarred_of pair Way.Push) active.now }
{
    unbarred_of_pair(active, pair, Way::Push).is_some()
}

/// One where it holds.
fn one_if(holds: bool) -> u64
    ensures { result ≡ if holds then 1 else 0 }
{
    if holds { 1 } else { 0 }
}

/// How many notices of a pair by a way a bar cancels: one where it waits and nothing bars it yet, or a live queue cleared
/// it.
fn cancelled_of_pair(waiting: &[Waiting], cleared: &[Waiting], pair: PushKey, way: Way) -> u64
    ensures { IsInOrder waiting.now → AreNumbered waiting.now → IsInOrder cleared.now → AreNumbered cleared.now
        → result ≡ cancelled_of_pair waiting.now cleared.now pair way }
{
    let waits = unbarred_of_pair(waiting, pair, way).is_some();
    let was_cleared = find_of_pair(cleared, pair, way).is_some();
    one_if(waits) + one_if(was_cleared)
}

/// How many notices a bar of these pairs cancels, at most 2^64 - 1.
pub fn cancelled_by(waiting: &[Waiting], cleared: &[Waiting], pairs: &[PushKey]) -> u64
    ensures { IsInOrder waiting.now → AreNumbered waiting.now → IsInOrder cleared.now → AreNumbered cleared.now
        → result ≡ cancelled_by waiting.now cleared.now pairs.now }
{
    let mut count: u64 = 0;
    for pair in pairs {
        count = count
            .saturating_add(cancelled_of_pair(waiting, cleared, *pair, Way::Mail))
            .saturating_add(cancelled_of_pair(waiting, cleared, *pair, Way::Push));
    }
    count
}

/// Takes the row of the notice of a pair by a way away, where it has one.
fn remove_barred(
    changes: &mut Vec<RowChange>,
    waiting: &[Waiting],
    pair: PushKey,
    way: Way,
) -> Result<(), OutOfMemory>
    ensures { IsInOrder waiting.now → AreNumbered waiting.now → OnOk result (changes.new.items ≡ changes.old.items ++ removes_where (is_unbarred_of pair way) waiting.now) }
{
    if let Some(notice) = unbarred_of_pair(waiting, pair, way) {
        changes.push(RowChange::Remove(key_of(&notice)))?;
    }
    Ok(())
}

/// Takes the rows of the notices of these pairs away.
pub fn remove_all_barred(
    changes: &mut Vec<RowChange>,
    waiting: &[Waiting],
    pairs: &[PushKey],
) -> Result<(), OutOfMemory>
    ensures { IsInOrder waiting.now → AreNumbered waiting.now → OnOk result (changes.new.items ≡ changes.old.items ++ flat_map (λ test. removes_where test waiting.now) (unbarred_tests pairs.now)) }
{
    for pair in pairs {
        remove_barred(changes, waiting, *pair, Way::Mail)?;
        remove_barred(changes, waiting, *pair, Way::Push)?;
    }
    Ok(())
}

/// Bars the notice of a pair by a way, if it waits: an undecided one leaves, and a ready one stays to be dropped.
fn bar_waiting(waiting: &mut Vec<Waiting>, pair: PushKey, way: Way, cause: Cause)
    ensures { IsInOrder waiting.old.items → AreNumbered waiting.old.items → waiting.new.items ≡ barred_where (is_of_pair pair way) cause waiting.old.items }
{
    if let Some(place) = find_of_pair(waiting, pair, way) {
        if waiting[place].is_ready() {
            waiting[place] = waiting[place].barred_by(cause);
        } else {
            waiting.remove(place);
        }
    }
}

/// Bars the notices of these pairs that wait.
pub fn bar_all_waiting(waiting: &mut Vec<Waiting>, pairs: &[PushKey], cause: Cause)
    ensures { IsInOrder waiting.old.items → AreNumbered waiting.old.items → waiting.new.items ≡ barred_where (is_one_of_pairs pairs.now) cause waiting.old.items }
{
    for pair in pairs {
        bar_waiting(waiting, *pair, Way::Mail, cause);
        bar_waiting(waiting, *pair, Way::Push, cause);
    }
}

/// Takes the notice of a pair by a way out, if it is there.
fn take_of_pair(notices: &mut Vec<Waiting>, pair: PushKey, way: Way)
    ensures { IsInOrder notices.old.items → AreNumbered notices.old.items → notices.new.items ≡ filter (λ w. not (is_of_pair pair way w)) notices.old.items }
{
    if let Some(place) = find_of_pair(notices, pair, way) {
        notices.remove(place);
    }
}

/// Takes the notices of these pairs out of those that a live queue cleared.
pub fn take_all_cleared(cleared: &mut Vec<Waiting>, pairs: &[PushKey])
    ensures { IsInOrder cleared.old.items → AreNumbered cleared.old.items → cleared.new.items ≡ filter (λ w. not (is_one_of_pairs pairs.now w)) cleared.old.items }
{
    for pair in pairs {
        take_of_pair(cleared, *pair, Way::Mail);
        take_of_pair(cleared, *pair, Way::Push);
    }
}

/// Revokes the active pushes of these pairs.
pub fn revoke_all(active: &mut [Waiting], pairs: &[PushKey], cause: Cause)
    ensures { IsInOrder active.old → AreNumbered active.old → active.new ≡ revoked_where (is_pushed_pair pairs.now) cause active.old }
{
    for pair in pairs {
        if let Some(place) = find_of_pair(active, *pair, Way::Push) {
            active[place] = active[place].barred_by(cause);
        }
    }
}

/// Takes the user's pushes of these messages out of those that are active.
pub fn take_removed(active: &mut Vec<Waiting>, user: UserId, messages: &[MessageId])
    ensures { IsInOrder active.old.items → AreNumbered active.old.items → active.new.items ≡ filter (λ w. not (is_removed user messages.now w)) active.old.items }
{
    for message in messages {
        let pair = PushKey {
            user,
            message: *message,
        };
        take_of_pair(active, pair, Way::Push);
    }
}
