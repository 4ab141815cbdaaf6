//! Why a request is refused: its rules stand in the order of the refusals' numbers.
ghost use Rattle.std.specs.Prelude.{◌≡◌, ◌&&◌, Bool, List, map, is_some};
ghost use Rattle.std.specs.Str.{str_eq_ignore_ascii_case};
ghost use Rattle.notice_ledger.specs.Past.Values.{numbered};
ghost use Rattle.std.specs.List.{list_all, list_any};
ghost use Rattle.chat_model.specs.declared.event.Stamped.{Stamped};
ghost use Rattle.chat_model.specs.declared.policy.Policy.{Policy};
ghost use Rattle.chat_model.specs.declared.policy.SpecificChange.{SpecificChange};
ghost use Rattle.notice_ledger.specs.Past.Refusals.{first_broken, is_taken, may_read};
ghost use Rattle.notice_ledger.specs.Limits.{longest_text, longest_topic, longest_name, most_items};
ghost use Rattle.book_tables.specs.Rules.{tested_rule};

use crate::sets::{is_in_set, size_of_set};
use crate::tables::{Tables, is_there};
use chat_model::{
    ChannelId, GroupId, GroupName, MessageId, Refusal, Request, SettingChange, Text, UserId,
    UserName,
};
use notice_ledger::{is_bad_name, is_bad_period, is_blank, is_longer_than};

// In characters.
const LONGEST_TEXT: usize = 10_000;

const LONGEST_TOPIC: usize = 60;

const LONGEST_NAME: usize = 100;

/// How many items a list of a request may have, and how many subscribers the channel of a send.
const MOST_ITEMS: usize = 10_000;

const TOO_MANY: Refusal = Refusal::TooMany {
    limit: MOST_ITEMS as u64,
};

/// The first of these rules that is broken, by its refusal.
fn first_broken(rules: &[(bool, Refusal)]) -> Option<Refusal>
    ensures { result ≡ first_broken (map tested_rule rules.now) }
{
    for rule in rules {
        if rule.0 {
            return Some(rule.1);
        }
    }
    None
}

/// Whether there are users of all these numbers.
fn are_there(names: &[UserName], users: &[UserId]) -> bool
    ensures { result ≡ list_all (λ u. is_some (numbered u.0 names.now)) users.now }
{
    users.iter().all(|user| is_there(names, user.0))
}

/// Whether a group has this name without ASCII case.
fn is_group_name(groups: &[GroupName], name: &str) -> bool
    ensures { result ≡ list_any (λ g. str_eq_ignore_ascii_case name.now g.name) groups.now }
{
    groups
        .iter()
        .any(|group| name.eq_ignore_ascii_case(group.name.as_str()))
}

/// Whether a channel has this name without ASCII case.
fn is_channel_name(channels: &[Text], name: &str) -> bool
    ensures { result ≡ list_any (str_eq_ignore_ascii_case name.now) channels.now }
{
    channels
        .iter()
        .any(|channel| name.eq_ignore_ascii_case(channel.as_str()))
}

impl Tables {
    ghost use Rattle.notice_ledger.specs.Past.Values.{is_user, groups, channels, subscribed, subscriber_count};
    ghost use Rattle.notice_ledger.specs.Past.Refusals as behind;
    ghost use Rattle.notice_ledger.specs.Refusals.{refusal};
    ghost use Rattle.book_tables.specs.Tables.{Holds, StandsFor};

    fn are_users(&self, users: &[UserId]) -> bool
        ensures { (past : List Stamped) → Holds self.now past → result ≡ list_all (is_user past) users.now }
    {
        are_there(&self.names, users)
    }

    fn is_taken_group(&self, name: &str) -> bool
        ensures { (past : List Stamped) → Holds self.now past → result ≡ is_taken (groups past) name.now }
    {
        is_group_name(&self.groups, name)
    }

    fn is_taken_channel(&self, name: &str) -> bool
        ensures { (past : List Stamped) → Holds self.now past → result ≡ is_taken (channels past) name.now }
    {
        is_channel_name(&self.channels, name)
    }

    fn is_subscribed(&self, user: UserId, channel: ChannelId) -> bool
        ensures { (past : List Stamped) → Holds self.now past → result ≡ subscribed past user channel }
    {
        is_in_set(&self.subscribers, channel.0, user)
    }

    fn subscriber_count(&self, channel: ChannelId) -> usize
        ensures { (past : List Stamped) → Holds self.now past → result ≡ subscriber_count past channel }
    {
        size_of_set(&self.subscribers, channel.0)
    }

    fn group_refusal(&self, name: &str, members: &[UserId]) -> Option<Refusal>
        ensures { (past : List Stamped) → Holds self.now past → result ≡ behind.refusal past (Request.AddGroup name.now members.now) }
    {
        first_broken(&[
            (!self.are_users(members), Refusal::NoUser),
            (self.is_taken_group(name), Refusal::Exists),
            (members.len() > MOST_ITEMS, TOO_MANY),
            (is_longer_than(name, LONGEST_NAME), Refusal::NameTooLong),
            (is_bad_name(name), Refusal::BadName),
        ])
    }

    fn member_refusal(&self, group: GroupId, user: UserId) -> Option<Refusal>
        ensures { (past : List Stamped) (on : Bool) → Holds self.now past → result ≡ behind.refusal past (Request.Member group user on) }
    {
        first_broken(&[
            (!self.is_user(user), Refusal::NoUser),
            (!self.is_group(group), Refusal::NoGroup),
        ])
    }

    fn channel_refusal(&self, name: &str) -> Option<Refusal>
        ensures { (past : List Stamped) → Holds self.now past → result ≡ behind.refusal past (Request.AddChannel name.now) }
    {
        first_broken(&[
            (self.is_taken_channel(name), Refusal::Exists),
            (is_longer_than(name, LONGEST_NAME), Refusal::NameTooLong),
            (is_bad_name(name), Refusal::BadName),
        ])
    }

    fn subscription_refusal(&self, user: UserId, channel: ChannelId) -> Option<Refusal>
        ensures { (past : List Stamped) (on : Bool) → Holds self.now past → result ≡ behind.refusal past (Request.Subscribe user channel on) }
    {
        first_broken(&[
            (!self.is_user(user), Refusal::NoUser),
            (!self.is_channel(channel), Refusal::NoChannel),
        ])
    }

    fn send_refusal(
        &self,
        sender: UserId,
        channel: ChannelId,
        topic: &str,
        text: &str,
    ) -> Option<Refusal>
        ensures { (past : List Stamped) → Holds self.now past → result ≡ behind.refusal past (Request.Send sender channel topic.now text.now) }
    {
        first_broken(&[
            (!self.is_user(sender), Refusal::NoUser),
            (!self.is_channel(channel), Refusal::NoChannel),
            (!self.is_subscribed(sender, channel), Refusal::NotSubscribed),
            (is_blank(text), Refusal::EmptyText),
            (is_longer_than(text, LONGEST_TEXT), Refusal::TextTooLong),
            (is_longer_than(topic, LONGEST_TOPIC), Refusal::TopicTooLong),
            (self.subscriber_count(channel) > MOST_ITEMS, TOO_MANY),
        ])
    }

    /// Whether there are both users.
    fn are_both(&self, user: UserId, other: UserId) -> bool
        ensures { (past : List Stamped) → Holds self.now past → result ≡ (is_user past user && is_user past other) }
    {
        self.is_user(user) && self.is_user(other)
    }

    /// Whether there are the sender and all these users.
    fn are_there_with(&self, sender: UserId, users: &[UserId]) -> bool
        ensures { (past : List Stamped) → Holds self.now past → result ≡ (is_user past sender && list_all (is_user past) users.now) }
    {
        self.is_user(sender) && self.are_users(users)
    }

    fn setting_refusal(&self, user: UserId, change: SettingChange) -> Option<Refusal>
        ensures { (past : List Stamped) → Holds self.now past → result ≡ behind.refusal past (Request.Set user change) }
    {
        first_broken(&[
            (!self.is_user(user), Refusal::NoUser),
            (is_bad_period(change), Refusal::BadPeriod),
        ])
    }

    fn specific_refusal(&self, user: UserId, channel: ChannelId) -> Option<Refusal>
        ensures { (past : List Stamped) (change : SpecificChange) → Holds self.now past → result ≡ behind.refusal past (Request.SetChannel user channel change) }
    {
        first_broken(&[
            (!self.is_user(user), Refusal::NoUser),
            (!self.is_channel(channel), Refusal::NoChannel),
        ])
    }

    fn policy_refusal(&self, user: UserId, channel: ChannelId, topic: &str) -> Option<Refusal>
        ensures { (past : List Stamped) (policy : Policy) → Holds self.now past → result ≡ behind.refusal past (Request.SetPolicy user channel topic.now policy) }
    {
        first_broken(&[
            (!self.is_user(user), Refusal::NoUser),
            (!self.is_channel(channel), Refusal::NoChannel),
            (is_longer_than(topic, LONGEST_TOPIC), Refusal::TopicTooLong),
        ])
    }

    fn mute_refusal(&self, user: UserId, other: UserId) -> Option<Refusal>
        ensures { (past : List Stamped) (on : Bool) → Holds self.now past → result ≡ behind.refusal past (Request.Mute user other on) }
    {
        first_broken(&[(!self.are_both(user, other), Refusal::NoUser)])
    }

    fn direct_refusal(&self, sender: UserId, to: &[UserId], text: &str) -> Option<Refusal>
        ensures { (past : List Stamped) → Holds self.now past → result ≡ behind.refusal past (Request.Direct sender to.now text.now) }
    {
        first_broken(&[
            (!self.are_there_with(sender, to), Refusal::NoUser),
            (is_blank(text), Refusal::EmptyText),
            (is_longer_than(text, LONGEST_TEXT), Refusal::TextTooLong),
            (to.len() > MOST_ITEMS, TOO_MANY),
        ])
    }

    fn user_refusal(&self, name: &str) -> Option<Refusal>
        ensures { (past : List Stamped) (bot : Bool) → result ≡ behind.refusal past (Request.AddUser name.now bot) }
    {
        first_broken(&[
            (is_longer_than(name, LONGEST_NAME), Refusal::NameTooLong),
            (is_bad_name(name), Refusal::BadName),
        ])
    }

    fn delete_refusal(&self, user: UserId, message: MessageId) -> Option<Refusal>
        ensures { (past : List Stamped) → Holds self.now past → result ≡ behind.refusal past (Request.Delete user message) }
    {
        first_broken(&[
            (!self.is_user(user), Refusal::NoUser),
            (!self.is_message(message), Refusal::NoMessage),
            (!self.is_sender(user, message), Refusal::NotSender),
        ])
    }

    /// Whether the user may read all of these messages.
    fn may_read_all(&self, user: UserId, messages: &[MessageId]) -> bool
        ensures { (past : List Stamped) → Holds self.now past → result ≡ list_all (may_read past user) messages.now }
    {
        for message in messages {
            if !self.may_read(user, *message) {
                return false;
            }
        }
        true
    }

    fn read_refusal(&self, user: UserId, messages: &[MessageId]) -> Option<Refusal>
        ensures { (past : List Stamped) → Holds self.now past → result ≡ behind.refusal past (Request.Read user messages.now) }
    {
        first_broken(&[
            (!self.is_user(user), Refusal::NoUser),
            (!self.may_read_all(user, messages), Refusal::NoMessage),
            (messages.len() > MOST_ITEMS, TOO_MANY),
        ])
    }

    /// Why the request is refused: the first refusal, by its number, whose rule is broken. It takes no memory.
    pub fn check(&self, request: &Request) -> Option<Refusal>
        ensures { (j : List Stamped) → StandsFor self.now j → result ≡ refusal j request.now }
    {
        match request {
            Request::AddUser { name, .. } => self.user_refusal(name.as_str()),
            Request::AddGroup { name, members } => {
                self.group_refusal(name.as_str(), members.as_slice())
            }
            Request::Member { group, user, .. } => self.member_refusal(*group, *user),
            Request::AddChannel { name } => self.channel_refusal(name.as_str()),
            Request::Subscribe { user, channel, .. } => {
                self.subscription_refusal(*user, *channel)
            }
            Request::Set { user, change } => self.setting_refusal(*user, *change),
            Request::SetChannel { user, channel, .. } => self.specific_refusal(*user, *channel),
            Request::SetPolicy {
                user,
                channel,
                topic,
                ..
            } => self.policy_refusal(*user, *channel, topic.as_str()),
            Request::Mute { user, other, .. } => self.mute_refusal(*user, *other),
            Request::Send {
                sender,
                channel,
                topic,
                text,
            } => self.send_refusal(*sender, *channel, topic.as_str(), text.as_str()),
            Request::Direct { sender, to, text } => {
                self.direct_refusal(*sender, to.as_slice(), text.as_str())
            }
            Request::Delete { user, message } => self.delete_refusal(*user, *message),
            Request::Read { user, messages } => self.read_refusal(*user, messages.as_slice()),
        }
    }
}
