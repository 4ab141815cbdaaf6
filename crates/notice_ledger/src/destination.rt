//! Where a message goes.
ghost use Rattle.std.specs.Prelude.{◌≡◌, IfOk};
ghost use Rattle.notice_ledger.specs.Past.Triggers.{is_direct};

use chat_model::{ChannelId, List, OutOfMemory, Text, UserId};
use std::alloc::Global;

/// A topic of a channel, or the users whom a direct message names.
#[derive(Debug, Drop)]
pub enum Destination {
    Channel { channel: ChannelId, topic: Text },
    Direct { to: List<UserId> },
}

impl Destination {
    /// A second value, the same as this one.
    pub fn copy(&self, _alloc: Global) -> Result<Self, OutOfMemory>
        ensures { IfOk result (λ second. second ≡ self.now) }
    {
        match self {
            Destination::Channel { channel, topic } => Ok(Destination::Channel {
                channel: *channel,
                topic: topic.copy()?,
            }),
            Destination::Direct { to } => Ok(Destination::Direct { to: to.copy()? }),
        }
    }

    /// Whether a message that goes there is a direct one.
    pub fn is_direct(&self) -> bool
        ensures { result ≡ is_direct self.now }
    {
        matches!(self, Destination::Direct { .. })
    }
}
