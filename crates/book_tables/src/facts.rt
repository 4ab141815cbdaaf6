//! What is so of a user and a message.
ghost use Rattle.std.specs.Prelude.{◌≡◌, ◌&&◌, ◌==◌, not, true, List, IfOk};
ghost use Rattle.chat_model.specs.declared.event.Stamped.{Stamped};
ghost use Rattle.notice_ledger.specs.declared.destination.Destination.{Destination};
ghost use Rattle.notice_ledger.specs.Past.Values.{is_one_of, is_to_topic, is_participant};
ghost use Rattle.notice_ledger.specs.Past.Triggers.{goes_to, is_direct, is_participant_of, policy_for, specific_for};
ghost use Rattle.book_tables.specs.Gathered.{topic_of, took_part_from, IsGathered};

use crate::receipts::is_marked;
use crate::tables::{Message, Tables, item_at};
use crate::topic_key::TopicKey;
use crate::user_set::UserSet;
use chat_model::{
    ChannelId, Facts, List as UserList, Mentions, OutOfMemory, Policy, Settings, Specific, UserId,
    ascending_users,
};
use notice_ledger::Destination;
use std::alloc::Global;

/// What is gathered of a message once, for all of its recipients.
#[derive(Debug, Drop)]
pub struct Gathered {
    pub mentioned: Mentions,
    /// The topic, none of a direct message.
    pub topic: Option<TopicKey>,
    /// Who takes part in the topic, where the text has a wildcard for it; else nobody is asked for.
    pub participants: UserSet,
}

impl Message {
    /// Whether the message was sent to the topic of the channel.
    fn is_to_topic(&self, channel: ChannelId, topic: &str) -> bool
        ensures { result ≡ is_to_topic channel topic.now self.now.to }
    {
        match &self.to {
            Destination::Channel {
                channel: other,
                topic: named,
            } => other.0 == channel.0 && topic.eq_ignore_ascii_case(named.as_str()),
            Destination::Direct { .. } => false,
        }
    }
}

/// The senders of the messages to the topic of the channel that aren't deleted.
fn senders(
    alloc: Global,
    messages: &[Message],
    deleted: &[bool],
    channel: ChannelId,
    topic: &str,
) -> Result<Vec<UserId>, OutOfMemory>
    ensures { IfOk result (λ users. (u : UserId) → is_one_of users.items u ≡ took_part_from deleted.now u channel topic.now 1 messages.now) }
{
    let mut senders = Vec::new(alloc);
    for (i, message) in messages.iter().enumerate() {
        if !is_marked(deleted, 1 + i as u64) && message.is_to_topic(channel, topic) {
            senders.push(message.sender)?;
        }
    }
    Ok(senders)
}

/// These users as a set.
pub fn set_of(users: Vec<UserId>) -> UserSet
    ensures { (u : UserId) → is_one_of result.users.items u ≡ is_one_of users.items u }
{
    UserSet::from_ascending(ascending_users(UserList::from(users)))
}

/// Whether a wildcard of a message counts: in a direct message none does.
fn counts(is_there: bool, to: &Destination) -> bool
    ensures { result ≡ (is_there && not (is_direct to.now)) }
{
    is_there && !to.is_direct()
}

/// The topic to which a message goes, none of a direct one.
fn topic_of(to: &Destination) -> Result<Option<TopicKey>, OutOfMemory>
    ensures { IfOk result (λ topic. topic ≡ topic_of to.now) }
{
    match to {
        Destination::Channel { channel, topic } => {
            let key = TopicKey::new(*channel, topic)?;
            Ok(Some(key))
        }
        Destination::Direct { .. } => Ok(None),
    }
}

impl Tables {
    ghost use Rattle.notice_ledger.specs.Past.Values.{settings, specific, policy, has_muted};
    ghost use Rattle.notice_ledger.specs.Past.Triggers.{facts_of};
    ghost use Rattle.book_tables.specs.Tables.{Holds, sent_after};

    /// The user's settings.
    pub(crate) fn settings(&self, user: UserId) -> Settings
        ensures { (past : List Stamped) → Holds self.now past → result ≡ settings past user }
    {
        match item_at(&self.preferences, user.0) {
            Some(preferences) => preferences.settings,
            None => Settings::default(),
        }
    }

    fn has_muted(&self, user: UserId, other: UserId) -> bool
        ensures { (past : List Stamped) → Holds self.now past → result ≡ has_muted past user other }
    {
        match item_at(&self.preferences, user.0) {
            Some(preferences) => preferences.has_muted(other),
            None => false,
        }
    }

    fn specific(&self, user: UserId, channel: ChannelId) -> Specific
        ensures { (past : List Stamped) → Holds self.now past → result ≡ specific past user channel }
    {
        match item_at(&self.preferences, user.0) {
            Some(preferences) => preferences.specific(channel),
            None => Specific::default(),
        }
    }

    fn policy(&self, user: UserId, topic: &TopicKey) -> Policy
        ensures { (past : List Stamped) → Holds self.now past → result ≡ policy past user topic.now.channel topic.now.topic }
    {
        match item_at(&self.preferences, user.0) {
            Some(preferences) => preferences.policy(topic),
            None => Policy::Inherit,
        }
    }

    /// The user's policy for the topic of a message.
    fn policy_for(&self, topic: &Option<TopicKey>, user: UserId) -> Policy
        ensures { (past : List Stamped) (to : Destination) → Holds self.now past → topic.now ≡ topic_of to → result ≡ policy_for past to user }
    {
        match topic {
            Some(key) => self.policy(user, key),
            None => Policy::Inherit,
        }
    }

    fn specific_for(&self, to: &Destination, user: UserId) -> Specific
        ensures { (past : List Stamped) → Holds self.now past → result ≡ specific_for past to.now user }
    {
        match to {
            Destination::Channel { channel, .. } => self.specific(user, *channel),
            Destination::Direct { .. } => Specific::default(),
        }
    }

    /// Who takes part in the topic: the senders of its messages that aren't deleted.
    fn participants(&self, channel: ChannelId, topic: &str) -> Result<UserSet, OutOfMemory>
        ensures { IfOk result (λ set. (past : List Stamped) (u : UserId) → Holds self.now past → is_one_of set.users.items u ≡ is_participant past u channel topic.now) }
    {
        let users = senders(self.alloc, &self.messages, &self.deleted, channel, topic)?;
        Ok(set_of(users))
    }

    /// Who takes part in the topic to which a message goes; nobody in that of a direct message.
    fn participants_of(&self, to: &Destination) -> Result<UserSet, OutOfMemory>
        ensures { IfOk result (λ set. (past : List Stamped) (u : UserId) → Holds self.now past → is_one_of set.users.items u ≡ is_participant_of past to.now u) }
    {
        match to {
            Destination::Channel { channel, topic } => {
                let senders = self.participants(*channel, topic.as_str())?;
                Ok(senders)
            }
            Destination::Direct { .. } => Ok(UserSet::new(self.alloc)),
        }
    }

    /// The same where they are asked for, else nobody.
    fn participants_asked(&self, to: &Destination, is_asked: bool) -> Result<UserSet, OutOfMemory>
        ensures { IfOk result (λ set. (past : List Stamped) (u : UserId) → Holds self.now past → is_asked ≡ true → is_one_of set.users.items u ≡ is_participant_of past to.now u) }
    {
        if is_asked {
            let asked = self.participants_of(to)?;
            Ok(asked)
        } else {
            Ok(UserSet::new(self.alloc))
        }
    }

    /// What is so of the message, whoever the user.
    pub(crate) fn gather(&self, message: &Message) -> Result<Gathered, OutOfMemory>
        ensures { IfOk result (λ gathered. (past : List Stamped) → Holds self.now past → IsGathered past message.now gathered) }
    {
        let mentioned = self.mentions(&message.text)?;
        let topic = topic_of(&message.to)?;
        let participants = self.participants_asked(&message.to, mentioned.topic_wildcard)?;
        Ok(Gathered {
            mentioned,
            topic,
            participants,
        })
    }

    /// What is so of a user to whom the message goes of which this was gathered.
    pub(crate) fn facts(&self, message: &Message, gathered: &Gathered, user: UserId) -> Facts
        ensures { (past : List Stamped) → Holds self.now past → IsGathered past message.now gathered.now → goes_to past message.now.to user ≡ true
            → result ≡ record (facts_of past (sent_after past message.now) message.now.text user) { participant = is_one_of gathered.now.participants.users.items user } }
    {
        let mentioned = &gathered.mentioned;
        Facts {
            own: user.0 == message.sender.0,
            bot: self.is_bot(user),
            sender_muted: self.has_muted(user, message.sender),
            recipient: user.0 != message.sender.0,
            direct: message.to.is_direct(),
            mentioned: self.is_mentioned(mentioned, user),
            channel_wildcard: counts(mentioned.channel_wildcard, &message.to),
            topic_wildcard: counts(mentioned.topic_wildcard, &message.to),
            participant: gathered.participants.has(user),
            policy: self.policy_for(&gathered.topic, user),
            specific: self.specific_for(&message.to, user),
            settings: self.settings(user),
        }
    }
}
