//! The ways of a notice, and what triggers it.

use crate::Same;

/// How a user is notified.
#[derive(Clone, Copy, Debug, PartialEq, Eq, Hash)]
pub enum Way {
    Mail,
    Push,
}

impl Same for Way {
    fn is_same(&self, other: &Way) -> bool {
        self == other
    }
}

/// Why a user is notified, in the order in which the triggers are tried.
#[derive(Clone, Copy, Debug, PartialEq, Eq, Hash)]
pub enum Trigger {
    Direct,
    Mention,
    FollowedTopicWildcard,
    FollowedChannelWildcard,
    TopicWildcard,
    ChannelWildcard,
    FollowedTopic,
    Channel,
}

impl Same for Trigger {
    fn is_same(&self, other: &Trigger) -> bool {
        self == other
    }
}
