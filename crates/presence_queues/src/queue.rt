//! A live queue.
ghost use Rattle.std.specs.Prelude.{◌≡◌, ◌+◌, ◌-◌, ◌<◌, ◌^◌, ◌==◌, ◌&&◌, ◌↔◌, not, IfOk, IsTrue, OnOk, filter, map, if◌then◌else◌};
ghost use Rattle.std.specs.List.{list_any};
ghost use Rattle.presence_queues.specs.Hub.{holds, is_of, is_overdue};
ghost use Rattle.presence_queues.specs.Steps.{IsPastNext, is_acked, is_dealt_to, item_of, left_items, polled, received};
ghost use Rattle.presence_queues.specs.Fields.{HasRoomFor, queue_of};

use crate::QueueItem;
use chat_model::{Deal, DealNo, List, MessageId, Moment, OutOfMemory, UserId};
use std::alloc::Global;

/// An item that a queue holds: the dealt message, under its event number.
#[derive(Clone, Copy, Debug, PartialEq, Eq)]
pub struct Held {
    pub event: u64,
    pub deal: DealNo,
    pub message: MessageId,
}

impl Held {
    /// Whether an ack up to this event number drops it.
    pub fn is_acked(&self, upto: Option<u64>) -> bool
        ensures { result ≡ is_acked upto self.now }
    {
        match upto {
            Some(upto) => self.event <= upto,
            None => false,
        }
    }
}

/// A queue from its registration until it is left or swept.
#[derive(Debug, Drop)]
pub struct Queue {
    /// The place among the registrations, from 1.
    pub number: u64,
    pub user: UserId,
    /// When it was registered or acked last.
    pub poll: Moment,
    /// The event number of its next item.
    pub next: u64,
    pub items: Vec<Held>,
}

/// How many seconds after its last poll a queue lives on.
const OVERDUE: u64 = 600;

/// The items that an ack leaves, as they are answered.
fn shown(alloc: Global, items: &[Held], upto: Option<u64>) -> Result<Vec<QueueItem>, OutOfMemory>
    ensures { IfOk result (λ left. left.items ≡ map item_of (filter (λ item. not (is_acked upto item)) items.now)) }
{
    let left = items
        .iter()
        .filter(|item| !item.is_acked(upto))
        .map(|item| QueueItem {
            event: item.event,
            message: item.message,
        })
        .collect(alloc)?;
    Ok(left)
}

/// Drops the items that are acked.
fn drop_acked(items: &mut Vec<Held>, upto: Option<u64>)
    ensures { items.new.items ≡ filter (λ item. not (is_acked upto item)) items.old.items }
{
    items.retain(|item| !item.is_acked(upto));
}

impl Queue {
    /// Whether the queue is the user's.
    pub fn is_of(&self, user: UserId) -> bool
        ensures { result ≡ is_of user (queue_of self.now) }
    {
        self.user.0 == user.0
    }

    /// Whether an item of the queue is one of the deal.
    pub fn holds(&self, deal: DealNo) -> bool
        ensures { result ≡ holds deal (queue_of self.now) }
    {
        self.items.iter().any(|item| item.deal.0 == deal.0)
    }

    /// Whether its last poll was more than 600 seconds ago.
    pub fn is_overdue(&self, now: Moment) -> bool
        ensures { result ≡ is_overdue now (queue_of self.now) }
    {
        self.poll.seconds() + OVERDUE < now.seconds()
    }

    /// The first second at which it will be overdue.
    pub fn overdue_from(&self) -> u64
        ensures { result ≡ self.now.poll + 601 }
    {
        self.poll.seconds() + OVERDUE + 1
    }

    /// Whether the acked number is at or behind its next event number.
    pub fn is_past_next(&self, upto: Option<u64>) -> bool
        ensures { IsTrue result ↔ IsPastNext upto (queue_of self.now) }
    {
        match upto {
            Some(upto) => self.next <= upto,
            None => false,
        }
    }

    /// Whether an item that an ack drops is one of the deal.
    fn acks(&self, upto: Option<u64>, deal: DealNo) -> bool
        ensures { result ≡ list_any (λ item. is_acked upto item && item.deal.0 == deal.0) self.now.items.items }
    {
        self.items
            .iter()
            .any(|item| item.is_acked(upto) && item.deal.0 == deal.0)
    }

    /// Of these deals the ones of which an ack drops an item.
    pub fn acked(
        &self,
        alloc: Global,
        deals: &[DealNo],
        upto: Option<u64>,
    ) -> Result<Vec<DealNo>, OutOfMemory>
        ensures { IfOk result (λ acked. acked.items ≡ filter (λ k. list_any (λ item. is_acked upto item && item.deal.0 == k.0) self.now.items.items) deals.now) }
    {
        let acked = deals
            .iter()
            .copied()
            .filter(|deal| self.acks(upto, *deal))
            .collect(alloc)?;
        Ok(acked)
    }

    /// The items that an ack leaves.
    pub fn items_left(
        &self,
        alloc: Global,
        upto: Option<u64>,
    ) -> Result<List<QueueItem>, OutOfMemory>
        ensures { IfOk result (λ left. left ≡ map item_of (left_items upto (queue_of self.now))) }
    {
        Ok(List::from(shown(alloc, &self.items, upto)?))
    }

    /// Drops the acked items and polls, where the queue has the number.
    pub fn poll(&mut self, number: u64, upto: Option<u64>, now: Moment)
        ensures { queue_of self.new ≡ (if self.old.number == number then polled upto now (queue_of self.old) else queue_of self.old) }
    {
        if self.number == number {
            drop_acked(&mut self.items, upto);
            self.poll = now;
        }
    }

    /// Whether the queue is one of a user of the deal.
    fn is_dealt_to(&self, deal: &Deal) -> bool
        ensures { result ≡ is_dealt_to deal.now (queue_of self.now) }
    {
        deal.users
            .as_slice()
            .iter()
            .any(|user| user.0 == self.user.0)
    }

    /// Takes room for the deal's message, where it is for the queue's user.
    pub fn reserve_for(&mut self, deal: &Deal) -> Result<(), OutOfMemory>
        ensures same { queue_of self.new ≡ queue_of self.old }
        ensures room { OnOk result (HasRoomFor deal.now self.new) }
    {
        if self.is_dealt_to(deal) {
            self.items.reserve(1)?;
        }
        Ok(())
    }

    /// Puts the deal's message behind the items, where it is for the queue's user. There is room for it.
    pub fn receive(&mut self, deal: &Deal)
        requires room { HasRoomFor deal.now self.old }
        requires fits { self.old.next < 2 ^ 64 - 1 }
        ensures { queue_of self.new ≡ received deal.now (queue_of self.old) }
    {
        if self.is_dealt_to(deal) {
            self.items.push_reserved(Held {
                event: self.next,
                deal: deal.number,
                message: deal.message,
            });
            self.next += 1;
        }
    }
}
