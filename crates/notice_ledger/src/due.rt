//! When mails are due, by looking through the whole list of events.
ghost use Rattle.std.specs.Prelude.{◌≡◌, ◌+◌, ◌&&◌, map, filter, is_none, is_some, option_map, IfOk};
ghost use Rattle.std.specs.Option.{option_map_or};
ghost use Rattle.std.specs.List.{filter_map, reduce};
ghost use Rattle.notice_ledger.specs.Past.Due.{batch_rows, due, earlier, first_due, sooner};
ghost use Rattle.notice_ledger.specs.Plain.{earlier_spot, found_due, is_batch_kept, owed_kept, ready_kept, spot_of, turn_kept, unbarred_ready_kept};

use crate::owed::{Owed, notices};
use crate::readiness::{Spot, ready, unbarred_ready};
use crate::settings::settings;
use crate::turns::turn;
use crate::values::user_names;
use chat_model::{OutOfMemory, Stamped, UserId, Way};
use std::alloc::Global;

/// A user with a due moment, in seconds since 1970-01-01T00:00:00Z. A list may hold a request that sets any period,
/// refused or not, so the moment has more than 64 bits.
#[derive(Clone, Copy, Debug)]
pub struct DueUser {
    pub due: u128,
    pub user: UserId,
}

/// Whether the notice became ready with no bar before, and had no turn.
fn is_unturned(journal: &[Stamped], notice: &Owed) -> bool
    ensures { result ≡ (is_some (unbarred_ready_kept journal.now notice.now) && is_none (turn_kept journal.now notice.now)) }
{
    unbarred_ready(journal, notice).is_some() && turn(journal, notice).is_none()
}

/// Whether the notice is a batch row of the user: a mail notice that became ready with no bar before, and had no turn.
fn is_batch_row(journal: &[Stamped], user: UserId, notice: &Owed) -> bool
    ensures { result ≡ is_batch_kept journal.now user notice.now }
{
    notice.user.0 == user.0
        && match notice.way {
            Way::Mail => true,
            Way::Push => false,
        }
        && is_unturned(journal, notice)
}

/// The user's batch rows, in the order of the events that owe them.
pub fn batch_rows(
    alloc: Global,
    journal: &[Stamped],
    user: UserId,
) -> Result<Vec<Owed>, OutOfMemory>
    ensures { IfOk result (λ rows. rows.items ≡ map owed_kept (batch_rows journal.now user)) }
{
    let notices = notices(alloc, journal)?;
    let rows = rows_among(alloc, journal, user, &notices)?;
    Ok(rows)
}

/// The batch rows of the user among these notices.
fn rows_among(
    alloc: Global,
    journal: &[Stamped],
    user: UserId,
    notices: &[Owed],
) -> Result<Vec<Owed>, OutOfMemory>
    ensures { IfOk result (λ rows. rows.items ≡ filter (is_batch_kept journal.now user) notices.now) }
{
    let rows = notices
        .iter()
        .copied()
        .filter(|notice| is_batch_row(journal, user, notice));
    Ok(rows.collect(alloc)?)
}

/// Of two events the one that stands first.
fn earlier(first: Option<Spot>, next: Spot) -> Spot
    ensures { result ≡ option_map_or (λ a. earlier_spot a next) first next }
{
    match first {
        Some(first) if first.place <= next.place => first,
        _ => next,
    }
}

/// The first of the events at which these notices are ready.
fn first_ready(journal: &[Stamped], rows: &[Owed]) -> Option<Spot>
    ensures { result ≡ option_map spot_of (reduce earlier (filter_map (ready_kept journal.now) rows.now)) }
{
    let mut first = None;
    for row in rows {
        if let Some(spot) = ready(journal, row) {
            first = Some(earlier(first, spot));
        }
    }
    first
}

/// The stamp of the event, plus the period.
fn first_moment(first: Option<Spot>, period: u64) -> Option<u128>
    ensures { result ≡ option_map (λ s. s.at + period) first }
{
    match first {
        Some(spot) => Some(spot.at.seconds() as u128 + period as u128),
        None => None,
    }
}

/// When the user's mails are due, in seconds since 1970-01-01T00:00:00Z: the batch row that is ready first settles it.
fn due(alloc: Global, journal: &[Stamped], user: UserId) -> Result<Option<u128>, OutOfMemory>
    ensures { IfOk result (λ moment. moment ≡ due journal.now user) }
{
    let rows = batch_rows(alloc, journal, user)?;
    let first = first_ready(journal, &rows);
    Ok(first_moment(first, settings(journal, user).period))
}

/// Of two users the one with the lesser due moment, and at a tie the first.
fn sooner(first: Option<DueUser>, next: DueUser) -> DueUser
    ensures { found_due result ≡ option_map_or (λ a. sooner (found_due a) (found_due next)) first (found_due next) }
{
    match first {
        Some(first) if first.due <= next.due => first,
        _ => next,
    }
}

/// The user with the least due moment, ties by the lower number.
pub fn first_due(alloc: Global, journal: &[Stamped]) -> Result<Option<DueUser>, OutOfMemory>
    ensures { IfOk result (λ first. option_map found_due first ≡ first_due journal.now) }
{
    let mut first = None;
    let users = user_names(alloc, journal)?;
    for name in &users {
        let user = name.id;
        let moment = due(alloc, journal, user)?;
        if let Some(due) = moment {
            first = Some(sooner(first, DueUser { due, user }));
        }
    }
    Ok(first)
}
