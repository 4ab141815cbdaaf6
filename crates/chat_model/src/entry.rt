//! What is handed over to be delivered.
ghost use Rattle.std.specs.Prelude.{◌≡◌, IfOk};

use crate::duplicate::{Duplicate, duplicate_all};
use crate::{
    ChannelId, GroupName, List, MessageId, Moment, OutOfMemory, Same, Text, Trigger, UserId,
};
use std::alloc::Global;

/// A message in an entry, with its text as it was at the turn.
#[derive(Debug, PartialEq, Eq, Drop)]
pub struct Item {
    pub message: MessageId,
    pub sender: UserId,
    pub sender_name: Text,
    pub trigger: Trigger,
    /// The group by which a mention came, where the user is not mentioned by name.
    pub via: Option<GroupName>,
    pub text: Text,
}

impl Item {
    /// A second value, the same as this one.
    pub fn copy(&self, alloc: Global) -> Result<Self, OutOfMemory>
        ensures { IfOk result (λ second. second ≡ self.now) }
    {
        let via = match &self.via {
            Some(group) => Some(group.copy(alloc)?),
            None => None,
        };
        Ok(Item {
            message: self.message,
            sender: self.sender,
            sender_name: self.sender_name.copy()?,
            trigger: self.trigger,
            via,
            text: self.text.copy()?,
        })
    }
}

impl Duplicate for Item {
    fn duplicate(&self, alloc: Global) -> Result<Self, OutOfMemory> {
        self.copy(alloc)
    }
}

impl Same for Item {
    fn is_same(&self, other: &Item) -> bool {
        self == other
    }
}

/// Where the messages of an entry stand. A direct message stands with the others of its sender and the same users, of
/// whom the sender is one.
#[derive(Debug, PartialEq, Eq, Drop)]
pub enum Conversation {
    Channel {
        channel: ChannelId,
        name: Text,
        topic: Text,
    },
    Direct {
        users: List<UserId>,
        sender: UserId,
    },
}

impl Conversation {
    /// A second value, the same as this one.
    pub fn copy(&self, _alloc: Global) -> Result<Self, OutOfMemory>
        ensures { IfOk result (λ second. second ≡ self.now) }
    {
        match self {
            Conversation::Channel {
                channel,
                name,
                topic,
            } => Ok(Conversation::Channel {
                channel: *channel,
                name: name.copy()?,
                topic: topic.copy()?,
            }),
            Conversation::Direct { users, sender } => Ok(Conversation::Direct {
                users: users.copy()?,
                sender: *sender,
            }),
        }
    }
}

impl Same for Conversation {
    fn is_same(&self, other: &Conversation) -> bool {
        self == other
    }
}

/// An entry of the outbox, for one user. `at` is the stamp of the turn that made it.
#[derive(Debug, PartialEq, Eq, Drop)]
pub enum Entry {
    Mail {
        user: UserId,
        name: Text,
        at: Moment,
        conversation: Conversation,
        items: List<Item>,
    },
    /// A push shows the first 200 characters of its message's text.
    Push {
        user: UserId,
        name: Text,
        at: Moment,
        conversation: Conversation,
        item: Item,
    },
    /// The pushes of these messages go away.
    Remove {
        user: UserId,
        name: Text,
        at: Moment,
        messages: List<MessageId>,
    },
}

impl Entry {
    /// A second value, the same as this one.
    pub fn copy(&self, alloc: Global) -> Result<Self, OutOfMemory>
        ensures { IfOk result (λ second. second ≡ self.now) }
    {
        match self {
            Entry::Mail {
                user,
                name,
                at,
                conversation,
                items,
            } => {
                let copies = duplicate_all(alloc, items.as_slice())?;
                Ok(Entry::Mail {
                    user: *user,
                    name: name.copy()?,
                    at: *at,
                    conversation: conversation.copy(alloc)?,
                    items: List::from(copies),
                })
            }
            Entry::Push {
                user,
                name,
                at,
                conversation,
                item,
            } => Ok(Entry::Push {
                user: *user,
                name: name.copy()?,
                at: *at,
                conversation: conversation.copy(alloc)?,
                item: item.copy(alloc)?,
            }),
            Entry::Remove {
                user,
                name,
                at,
                messages,
            } => Ok(Entry::Remove {
                user: *user,
                name: name.copy()?,
                at: *at,
                messages: messages.copy()?,
            }),
        }
    }
}

impl Same for Entry {
    fn is_same(&self, other: &Entry) -> bool {
        self == other
    }
}
