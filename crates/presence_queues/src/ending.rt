//! Which queues end.
ghost use Rattle.std.specs.Prelude.{◌≡◌};
ghost use Rattle.presence_queues.specs.Fields.{ends_by, queue_of};

use crate::queue::Queue;
use chat_model::{Moment, UserId};

/// Which queues end: the one of a number, or the overdue ones of a user.
#[derive(Debug, Drop)]
pub enum Ending {
    Number(u64),
    Overdue { user: UserId, now: Moment },
}

impl Ending {
    /// Whether the queue ends.
    pub fn ends(&self, queue: &Queue) -> bool
        ensures { result ≡ ends_by self.now (queue_of queue.now) }
    {
        match self {
            Ending::Number(number) => queue.number == *number,
            Ending::Overdue { user, now } => queue.is_of(*user) && queue.is_overdue(*now),
        }
    }
}
