//! Numbers of users, channels, groups, messages, outbox entries and deals.

use crate::Same;

/// A user's number, from 1.
#[derive(Clone, Copy, Debug, PartialEq, Eq, PartialOrd, Ord, Hash)]
pub struct UserId(pub u64);

impl Same for UserId {
    fn is_same(&self, other: &UserId) -> bool {
        self == other
    }
}

/// A channel's number, from 1.
#[derive(Clone, Copy, Debug, PartialEq, Eq, PartialOrd, Ord, Hash)]
pub struct ChannelId(pub u64);

impl Same for ChannelId {
    fn is_same(&self, other: &ChannelId) -> bool {
        self == other
    }
}

/// A group's number, from 1.
#[derive(Clone, Copy, Debug, PartialEq, Eq, PartialOrd, Ord, Hash)]
pub struct GroupId(pub u64);

impl Same for GroupId {
    fn is_same(&self, other: &GroupId) -> bool {
        self == other
    }
}

/// A message's number, from 1.
#[derive(Clone, Copy, Debug, PartialEq, Eq, PartialOrd, Ord, Hash)]
pub struct MessageId(pub u64);

impl Same for MessageId {
    fn is_same(&self, other: &MessageId) -> bool {
        self == other
    }
}

/// An outbox entry's number, from 1.
#[derive(Clone, Copy, Debug, PartialEq, Eq, PartialOrd, Ord, Hash)]
pub struct EntryNo(pub u64);

impl Same for EntryNo {
    fn is_same(&self, other: &EntryNo) -> bool {
        self == other
    }
}

/// A deal's number, from 0: the number of sends and edits before its own.
#[derive(Clone, Copy, Debug, PartialEq, Eq, PartialOrd, Ord, Hash)]
pub struct DealNo(pub u64);

impl Same for DealNo {
    fn is_same(&self, other: &DealNo) -> bool {
        self == other
    }
}
