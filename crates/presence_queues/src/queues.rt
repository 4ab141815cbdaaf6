//! The live queues, by their numbers.
ghost use Rattle.std.specs.Prelude.{◌≡◌, ◌+◌, ◌-◌, ◌<◌, ◌^◌, ◌==◌, ◌&&◌, not, All, IfOk, OnOk, filter, find, length, map, option_map, if◌then◌else◌};
ghost use Rattle.std.specs.List.{list_any};
ghost use Rattle.std.specs.Option.{option_copied};
ghost use Rattle.presence_queues.specs.Hub.{holds, is_of, is_overdue, least, lesser};
ghost use Rattle.presence_queues.specs.Steps.{polled, received};
ghost use Rattle.presence_queues.specs.Fields.{HasRoomFor, ends_by, queue_of, queues_seen};

use crate::ending::Ending;
use crate::queue::Queue;
use chat_model::{Deal, DealNo, Moment, OutOfMemory, UserId};
use std::alloc::Global;

/// The queue of the number, where it is the user's.
pub fn find_queue(queues: &[Queue], user: UserId, number: u64) -> Option<&Queue>
    ensures { option_copied result ≡ find (λ q. is_of user (queue_of q) && q.number == number) queues.now }
{
    queues
        .iter()
        .find(|queue| queue.is_of(user) && queue.number == number)
}

/// Whether a queue is the user's.
pub fn has_queue(queues: &[Queue], user: UserId) -> bool
    ensures { result ≡ list_any (λ q. is_of user (queue_of q)) queues.now }
{
    queues.iter().any(|queue| queue.is_of(user))
}

/// Takes room for the deal's message in the queues of its users.
pub fn reserve_for(queues: &mut [Queue], deal: &Deal) -> Result<(), OutOfMemory>
    ensures same { queues_seen queues.new ≡ queues_seen queues.old }
    ensures room { OnOk result (All (HasRoomFor deal.now) queues.new) }
{
    for queue in queues.iter_mut() {
        queue.reserve_for(deal)?;
    }
    Ok(())
}

/// Puts the deal's message into the queues of its users. There is room for it.
pub fn receive(queues: &mut [Queue], deal: &Deal)
    requires room { All (HasRoomFor deal.now) queues.old }
    requires fit { All (λ q. q.next < 2 ^ 64 - 1) queues.old }
    ensures { queues_seen queues.new ≡ map (received deal.now) (queues_seen queues.old) }
{
    for queue in queues.iter_mut() {
        queue.receive(deal);
    }
}

/// Drops the acked items of the queue of the number, and polls it.
pub fn poll(queues: &mut [Queue], number: u64, upto: Option<u64>, now: Moment)
    ensures { queues_seen queues.new ≡ map (λ q. if q.number == number then polled upto now q else q) (queues_seen queues.old) }
{
    for queue in queues.iter_mut() {
        queue.poll(number, upto, now);
    }
}

/// Drops the queues that end.
pub fn end(queues: &mut Vec<Queue>, ending: &Ending)
    ensures { queues.new.items ≡ filter (λ q. not (ends_by ending.now (queue_of q))) queues.old.items }
{
    queues.retain(|queue| !ending.ends(queue));
}

/// How many queues end.
pub fn count_ending(queues: &[Queue], ending: &Ending) -> u64
    ensures { result ≡ length (filter (λ q. ends_by ending.now (queue_of q)) queues.now) }
{
    queues.iter().filter(|queue| ending.ends(queue)).count() as u64
}

/// The lesser of a number, if there is one yet, and the next.
fn lesser(least: Option<u64>, next: u64) -> Option<u64>
    ensures { result ≡ lesser least next }
{
    match least {
        Some(least) => Some(least.min(next)),
        None => Some(next),
    }
}

/// The lowest number of the queues of the user that don't end.
pub fn lowest_living(queues: &[Queue], user: UserId, ending: &Ending) -> Option<u64>
    ensures { result ≡ least (map (λ q. q.number) (filter (λ q. is_of user (queue_of q)) (filter (λ q. not (ends_by ending.now (queue_of q))) queues.now))) }
{
    queues
        .iter()
        .filter(|queue| !ending.ends(queue))
        .filter(|queue| queue.is_of(user))
        .map(|queue| queue.number)
        .fold(None, |least, number| lesser(least, number))
}

/// The lowest-numbered user of an overdue queue.
pub fn overdue_user(queues: &[Queue], now: Moment) -> Option<u64>
    ensures { result ≡ least (map (λ q. q.user.0) (filter (λ q. is_overdue now (queue_of q)) queues.now)) }
{
    queues
        .iter()
        .filter(|queue| queue.is_overdue(now))
        .map(|queue| queue.user.0)
        .fold(None, |least, number| lesser(least, number))
}

/// The least second at which a queue will be overdue.
pub fn next_overdue(queues: &[Queue]) -> Option<u64>
    ensures { result ≡ least (map (λ q. q.poll + 601) queues.now) }
{
    queues
        .iter()
        .map(|queue| queue.overdue_from())
        .fold(None, |least, number| lesser(least, number))
}

/// Whether a queue of the user that doesn't end holds an item of the deal.
fn is_held(queues: &[Queue], user: UserId, ending: &Ending, deal: DealNo) -> bool
    ensures { result ≡ list_any (λ q. holds deal (queue_of q)) (filter (λ q. is_of user (queue_of q)) (filter (λ q. not (ends_by ending.now (queue_of q))) queues.now)) }
{
    queues
        .iter()
        .filter(|queue| !ending.ends(queue))
        .filter(|queue| queue.is_of(user))
        .any(|queue| queue.holds(deal))
}

/// Of these deals the ones that no queue of the user holds that doesn't end.
pub fn unheld(
    alloc: Global,
    queues: &[Queue],
    user: UserId,
    ending: &Ending,
    deals: &[DealNo],
) -> Result<Vec<DealNo>, OutOfMemory>
    ensures { IfOk result (λ unheld. unheld.items ≡ filter (λ k. not (list_any (λ q. holds k (queue_of q)) (filter (λ q. is_of user (queue_of q)) (filter (λ q. not (ends_by ending.now (queue_of q))) queues.now)))) deals.now) }
{
    let unheld = deals
        .iter()
        .copied()
        .filter(|deal| !is_held(queues, user, ending, *deal))
        .collect(alloc)?;
    Ok(unheld)
}
