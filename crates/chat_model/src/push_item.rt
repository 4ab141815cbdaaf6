//! What waits to be pushed.
ghost use Rattle.std.specs.Prelude.{◌≡◌, IfOk};

use crate::duplicate::Duplicate;
use crate::{List, MessageId, OutOfMemory, Same, UserId};
use std::alloc::Global;

/// A push that waits for its turn: that of a notice, or the removal of pushes that were handed over.
#[derive(Debug, PartialEq, Eq, Drop)]
pub enum PushItem {
    Notify {
        user: UserId,
        message: MessageId,
    },
    Remove {
        user: UserId,
        messages: List<MessageId>,
    },
}

impl PushItem {
    /// A second value, the same as this one.
    pub fn copy(&self, _alloc: Global) -> Result<Self, OutOfMemory>
        ensures { IfOk result (λ second. second ≡ self.now) }
    {
        match self {
            PushItem::Notify { user, message } => Ok(PushItem::Notify {
                user: *user,
                message: *message,
            }),
            PushItem::Remove { user, messages } => Ok(PushItem::Remove {
                user: *user,
                messages: messages.copy()?,
            }),
        }
    }
}

impl Duplicate for PushItem {
    fn duplicate(&self, alloc: Global) -> Result<Self, OutOfMemory> {
        self.copy(alloc)
    }
}

impl Same for PushItem {
    fn is_same(&self, other: &PushItem) -> bool {
        self == other
    }
}
