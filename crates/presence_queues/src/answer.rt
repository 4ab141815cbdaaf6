//! What the calls of a hub answer.
use chat_model::{DealNo, List, MessageId, OutOfMemory, UserId, UserVerdict};

/// An item of a queue: a message, and the number under which the queue's client acks it.
#[derive(Clone, Copy, Debug, PartialEq, Eq)]
pub struct QueueItem {
    pub event: u64,
    pub message: MessageId,
}

/// Why a call on a queue did not do its work. The hub and its pipe are as they were.
#[derive(Clone, Copy, Debug, PartialEq, Eq)]
pub enum HubFault {
    /// The user has no live queue of that id.
    BadQueue,
    /// The acked number is at or behind the queue's next event number.
    BadEventId { next: u64 },
    /// Memory was wanted.
    OutOfMemory,
}

impl From<OutOfMemory> for HubFault {
    ghost use Rattle.std.specs.Prelude.{◌≡◌};
    ghost use Rattle.presence_queues.specs.declared.answer.HubFault.TheVariants as fault;

    ghost from_gives = { λ _ e. e ≡ fault.OutOfMemory };

    fn from(_: OutOfMemory) -> Self {
        HubFault::OutOfMemory
    }
}

/// What became of a deal.
#[derive(Debug, Drop)]
pub enum DealAnswer {
    /// It was dealt, with a verdict for each of its users.
    Dealt(List<UserVerdict>),
    /// It is not the deal that is dealt next, whose number is carried.
    NotNext(DealNo),
}

/// What became of a sweep.
#[derive(Clone, Copy, Debug, PartialEq, Eq)]
pub enum SweepAnswer {
    /// The overdue queues of the user ended, so many.
    Ended { user: UserId, queues: u64 },
    /// No queue is overdue. The least second at which one will be, if a queue lives.
    NoneOverdue(Option<u64>),
}
