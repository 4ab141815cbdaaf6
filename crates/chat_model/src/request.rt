//! What a client asks, what it is answered, and why it is refused.
ghost use Rattle.std.specs.Prelude.{◌≡◌, IfOk};
ghost use Rattle.chat_model.specs.Refusals.{refusal_number};

use crate::{
    ChannelId, DealNo, GroupId, List, MessageId, OutOfMemory, Policy, Same, SettingChange,
    SpecificChange, Text, UserId,
};
use std::alloc::Global;

/// A change that a client asks for.
#[derive(Debug, PartialEq, Eq, Drop)]
pub enum Request {
    AddUser {
        name: Text,
        bot: bool,
    },
    /// The members may stand in any order and repeat; the event keeps them ascending, once each.
    AddGroup {
        name: Text,
        members: List<UserId>,
    },
    Member {
        group: GroupId,
        user: UserId,
        on: bool,
    },
    AddChannel {
        name: Text,
    },
    Subscribe {
        user: UserId,
        channel: ChannelId,
        on: bool,
    },
    Set {
        user: UserId,
        change: SettingChange,
    },
    SetChannel {
        user: UserId,
        channel: ChannelId,
        change: SpecificChange,
    },
    SetPolicy {
        user: UserId,
        channel: ChannelId,
        topic: Text,
        policy: Policy,
    },
    /// The user mutes another, or hears the other again.
    Mute {
        user: UserId,
        other: UserId,
        on: bool,
    },
    Send {
        sender: UserId,
        channel: ChannelId,
        topic: Text,
        text: Text,
    },
    /// The users may stand in any order and repeat; the event keeps them ascending, once each.
    Direct {
        sender: UserId,
        to: List<UserId>,
        text: Text,
    },
    Delete {
        user: UserId,
        message: MessageId,
    },
    /// The messages may stand in any order and repeat; the event keeps them ascending, once each.
    Read {
        user: UserId,
        messages: List<MessageId>,
    },
}

impl Request {
    /// A second value, the same as this one.
    pub fn copy(&self, _alloc: Global) -> Result<Self, OutOfMemory>
        ensures { IfOk result (λ second. second ≡ self.now) }
    {
        match self {
            Request::AddUser { name, bot } => Ok(Request::AddUser {
                name: name.copy()?,
                bot: *bot,
            }),
            Request::AddGroup { name, members } => Ok(Request::AddGroup {
                name: name.copy()?,
                members: members.copy()?,
            }),
            Request::Member { group, user, on } => Ok(Request::Member {
                group: *group,
                user: *user,
                on: *on,
            }),
            Request::AddChannel { name } => Ok(Request::AddChannel { name: name.copy()? }),
            Request::Subscribe { user, channel, on } => Ok(Request::Subscribe {
                user: *user,
                channel: *channel,
                on: *on,
            }),
            Request::Set { user, change } => Ok(Request::Set {
                user: *user,
                change: *change,
            }),
            Request::SetChannel {
                user,
                channel,
                change,
            } => Ok(Request::SetChannel {
                user: *user,
                channel: *channel,
                change: *change,
            }),
            Request::SetPolicy {
                user,
                channel,
                topic,
                policy,
            } => Ok(Request::SetPolicy {
                user: *user,
                channel: *channel,
                topic: topic.copy()?,
                policy: *policy,
            }),
            Request::Mute { user, other, on } => Ok(Request::Mute {
                user: *user,
                other: *other,
                on: *on,
            }),
            Request::Send {
                sender,
                channel,
                topic,
                text,
            } => Ok(Request::Send {
                sender: *sender,
                channel: *channel,
                topic: topic.copy()?,
                text: text.copy()?,
            }),
            Request::Direct { sender, to, text } => Ok(Request::Direct {
                sender: *sender,
                to: to.copy()?,
                text: text.copy()?,
            }),
            Request::Delete { user, message } => Ok(Request::Delete {
                user: *user,
                message: *message,
            }),
            Request::Read { user, messages } => Ok(Request::Read {
                user: *user,
                messages: messages.copy()?,
            }),
        }
    }
}

impl Same for Request {
    fn is_same(&self, other: &Request) -> bool {
        self == other
    }
}

/// What became of a request that was not refused.
#[derive(Clone, Copy, Debug, PartialEq, Eq)]
pub enum Answer {
    User(UserId),
    Group(GroupId),
    Channel(ChannelId),
    Sent { message: MessageId, deal: DealNo },
    Done,
}

/// Why a request is refused. A request is checked in the order of the numbers.
#[derive(Clone, Copy, Debug, PartialEq, Eq)]
pub enum Refusal {
    /// 10: a user that the request names does not exist.
    NoUser,
    /// 11: the channel does not exist.
    NoChannel,
    /// 12: a named message does not exist or was deleted, or, for a read, its user is neither sender nor recipient.
    NoMessage,
    /// 13: the group does not exist.
    NoGroup,
    /// 14: a channel is made and a channel has that name, or a group is made and a group has it, without ASCII case.
    Exists,
    /// 15: a deletion by another than the sender.
    NotSender,
    /// 16: the sender is not subscribed to the channel.
    NotSubscribed,
    /// 17: the text has only whitespace.
    EmptyText,
    /// 18: the text has more than 10,000 characters.
    TextTooLong,
    /// 19: the topic has more than 60 characters.
    TopicTooLong,
    /// 20: the period is outside 1 to 604,800 seconds.
    BadPeriod,
    /// 21: the user has no live queue of that id. The hub tells it.
    BadQueue,
    /// 22: the acked number is at least this one, the queue's next event number. The hub tells it.
    BadEventId { next: u64 },
    /// 23: a list of the request has more items than the limit, or the channel of a send more subscribers.
    TooMany { limit: u64 },
    /// 24: the name has more than 100 characters.
    NameTooLong,
    /// 25: the name is empty, begins or ends with a space, or holds a control character or one of `*`, `|`, `@`, `\`,
    /// `>`, `"` and a backquote.
    BadName,
}

impl Refusal {
    /// The number of this refusal.
    pub fn number(self) -> u64
        ensures { result ≡ refusal_number self }
    {
        match self {
            Refusal::NoUser => 10,
            Refusal::NoChannel => 11,
            Refusal::NoMessage => 12,
            Refusal::NoGroup => 13,
            Refusal::Exists => 14,
            Refusal::NotSender => 15,
            Refusal::NotSubscribed => 16,
            Refusal::EmptyText => 17,
            Refusal::TextTooLong => 18,
            Refusal::TopicTooLong => 19,
            Refusal::BadPeriod => 20,
            Refusal::BadQueue => 21,
            Refusal::BadEventId { .. } => 22,
            Refusal::TooMany { .. } => 23,
            Refusal::NameTooLong => 24,
            Refusal::BadName => 25,
        }
    }
}
