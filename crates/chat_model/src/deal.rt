//! Deals, and what the hub says of them.
ghost use Rattle.std.specs.Prelude.{◌≡◌, IfOk};

use crate::duplicate::Duplicate;
use crate::{DealNo, List, MessageId, OutOfMemory, Same, UserId};
use std::alloc::Global;

/// A client's queue: the run of the office in which it was registered, and its place among the registrations of that
/// run, from 1.
#[derive(Clone, Copy, Debug, PartialEq, Eq)]
pub struct QueueId {
    pub run: u64,
    pub number: u64,
}

impl Same for QueueId {
    fn is_same(&self, other: &QueueId) -> bool {
        self == other
    }
}

/// Whether a user is there to see a message: `Live` with a live queue and a recent beat, else `Idle`.
#[derive(Clone, Copy, Debug, PartialEq, Eq)]
pub enum Verdict {
    Idle,
    Live,
}

impl Same for Verdict {
    fn is_same(&self, other: &Verdict) -> bool {
        self == other
    }
}

/// The verdict for one user of a deal.
#[derive(Clone, Copy, Debug, PartialEq, Eq)]
pub struct UserVerdict {
    pub user: UserId,
    pub verdict: Verdict,
}

impl Same for UserVerdict {
    fn is_same(&self, other: &UserVerdict) -> bool {
        self == other
    }
}

/// What a send or an edit hands to the hub: its message, and the users to whom it owes a notice.
#[derive(Debug, PartialEq, Eq, Drop)]
pub struct Deal {
    pub number: DealNo,
    pub message: MessageId,
    pub users: List<UserId>,
}

impl Deal {
    /// A second value, the same as this one.
    pub fn copy(&self, _alloc: Global) -> Result<Self, OutOfMemory>
        ensures { IfOk result (λ second. second ≡ self.now) }
    {
        Ok(Deal {
            number: self.number,
            message: self.message,
            users: self.users.copy()?,
        })
    }
}

impl Duplicate for Deal {
    fn duplicate(&self, alloc: Global) -> Result<Self, OutOfMemory> {
        self.copy(alloc)
    }
}

/// What became of deals: dealt with a verdict for each user, cleared by a live queue of the user, or missed.
#[derive(Debug, PartialEq, Eq, Drop)]
pub enum Outcome {
    Dealt {
        deal: DealNo,
        verdicts: List<UserVerdict>,
    },
    Cleared {
        user: UserId,
        deals: List<DealNo>,
        queue: QueueId,
    },
    Missed {
        user: UserId,
        deals: List<DealNo>,
    },
}

impl Outcome {
    /// A second value, the same as this one.
    pub fn copy(&self, _alloc: Global) -> Result<Self, OutOfMemory>
        ensures { IfOk result (λ second. second ≡ self.now) }
    {
        match self {
            Outcome::Dealt { deal, verdicts } => Ok(Outcome::Dealt {
                deal: *deal,
                verdicts: verdicts.copy()?,
            }),
            Outcome::Cleared { user, deals, queue } => Ok(Outcome::Cleared {
                user: *user,
                deals: deals.copy()?,
                queue: *queue,
            }),
            Outcome::Missed { user, deals } => Ok(Outcome::Missed {
                user: *user,
                deals: deals.copy()?,
            }),
        }
    }
}

impl Duplicate for Outcome {
    fn duplicate(&self, alloc: Global) -> Result<Self, OutOfMemory> {
        self.copy(alloc)
    }
}

impl Same for Outcome {
    fn is_same(&self, other: &Outcome) -> bool {
        self == other
    }
}
