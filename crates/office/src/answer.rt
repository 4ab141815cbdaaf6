//! What the office answers, and why it cannot.
use chat_model::{Cause, MessageId, OutOfMemory, Outcome, Refusal, Row, Trigger, UserId};
use keeper::KeepFault;
use std::alloc::AllocError;

/// Why an office could not start. The kept tables are as they were.
#[derive(Debug, Drop)]
pub enum StartFault {
    /// The keeper failed, and its count of faults rose.
    KeeperFault,
    /// Memory was wanted.
    OutOfMemory,
    /// A kept row differs from the replayed one. The first such pair by table and key is carried; where one side has
    /// no row of that key, `None`.
    Disagree {
        kept: Option<Row>,
        replayed: Option<Row>,
    },
}

/// Why a request was not granted. The office is as it was.
#[derive(Clone, Copy, Debug, PartialEq, Eq)]
pub enum AskFault {
    /// The request breaks a rule.
    Refused(Refusal),
    /// The keeper failed, and its count of faults rose.
    KeeperFault,
    /// Memory was wanted.
    OutOfMemory,
}

/// Why a step was not made. The office is as it was, but for the outcome in hand.
#[derive(Clone, Copy, Debug, PartialEq, Eq)]
pub enum StepFault {
    /// The keeper failed, and its count of faults rose.
    KeeperFault,
    /// Memory was wanted.
    OutOfMemory,
}

/// What a mail turn did.
#[derive(Clone, Copy, Debug, PartialEq, Eq)]
pub enum MailAnswer {
    /// The user's batch rows were handed over in so many entries, but for so many of which no item was made.
    Mailed {
        user: UserId,
        entries: u64,
        dropped: u64,
    },
    /// Nothing is due. The least due moment is carried, in seconds, or `None` where there is none.
    NotDue(Option<u64>),
}

/// What a push turn did.
#[derive(Clone, Copy, Debug, PartialEq, Eq)]
pub enum PushAnswer {
    /// The push was handed over in an entry of its own. The trigger is that by which the notice was owed.
    Pushed {
        user: UserId,
        message: MessageId,
        trigger: Trigger,
    },
    /// The user's device is told to take so many pushes back.
    Removed {
        user: UserId,
        count: u64,
    },
    /// The push was dropped, since its message was read or deleted or the push switch is off.
    Dropped {
        user: UserId,
        message: MessageId,
        cause: Cause,
    },
    /// No item waits.
    NothingReady,
}

/// What an absorption did.
#[derive(Debug, PartialEq, Eq, Drop)]
pub enum Absorbed {
    /// The outcome was absorbed.
    Outcome(Outcome),
    /// No outcome was in hand, and none was taken.
    NothingWaiting,
}

impl From<OutOfMemory> for StepFault {
    ghost use Rattle.std.specs.Prelude.{◌≡◌};
    ghost use Rattle.office.specs.declared.answer.StepFault.TheVariants.{OutOfMemory};

    ghost from_gives = { λ _ e. e ≡ OutOfMemory };

    fn from(_: OutOfMemory) -> Self {
        StepFault::OutOfMemory
    }
}

impl From<AllocError> for StepFault {
    ghost use Rattle.std.specs.Prelude.{◌≡◌};
    ghost use Rattle.office.specs.declared.answer.StepFault.TheVariants.{OutOfMemory};

    ghost from_gives = { λ _ e. e ≡ OutOfMemory };

    fn from(_: AllocError) -> Self {
        StepFault::OutOfMemory
    }
}

impl From<KeepFault> for StepFault {
    ghost use Rattle.std.specs.Prelude.{◌≡◌};
    ghost use Rattle.office.specs.Faults.{step_fault};

    ghost from_gives = { λ f e. e ≡ step_fault f };

    fn from(fault: KeepFault) -> Self {
        match fault {
            KeepFault::Failed => StepFault::KeeperFault,
            KeepFault::OutOfMemory => StepFault::OutOfMemory,
        }
    }
}

impl From<StepFault> for AskFault {
    ghost use Rattle.std.specs.Prelude.{◌≡◌};
    ghost use Rattle.office.specs.Faults.{ask_fault};

    ghost from_gives = { λ f e. e ≡ ask_fault f };

    fn from(fault: StepFault) -> Self {
        match fault {
            StepFault::KeeperFault => AskFault::KeeperFault,
            StepFault::OutOfMemory => AskFault::OutOfMemory,
        }
    }
}

impl From<StepFault> for StartFault {
    ghost use Rattle.std.specs.Prelude.{◌≡◌};
    ghost use Rattle.office.specs.Faults.{start_fault};

    ghost from_gives = { λ f e. e ≡ start_fault f };

    fn from(fault: StepFault) -> Self {
        match fault {
            StepFault::KeeperFault => StartFault::KeeperFault,
            StepFault::OutOfMemory => StartFault::OutOfMemory,
        }
    }
}
