//! Why a request is refused, by looking through the whole list of events.
ghost use Rattle.std.specs.Prelude.{◌≡◌, Bool};
ghost use Rattle.chat_model.specs.declared.policy.Policy.{Policy};
ghost use Rattle.chat_model.specs.declared.policy.SpecificChange.{SpecificChange};
ghost use Rattle.std.specs.List.{list_all};
ghost use Rattle.notice_ledger.specs.Limits.{longest_name, longest_text, longest_topic, most_items};
ghost use Rattle.notice_ledger.specs.Past.Values.{is_user};
ghost use Rattle.notice_ledger.specs.Past.Refusals.{first_broken, may_read, name_rules, refusal};

use crate::messages::{is_message, is_sender_of, may_read};
use crate::rules::{is_bad_name, is_bad_period, is_blank, is_longer_than};
use crate::values::{
    is_channel, is_channel_taken, is_group, is_group_taken, is_subscribed, is_user,
    subscriber_count,
};
use chat_model::{ChannelId, GroupId, MessageId, Refusal, Request, SettingChange, Stamped, UserId};

// In characters.
const LONGEST_TEXT: usize = 10_000;

const LONGEST_TOPIC: usize = 60;

const LONGEST_NAME: usize = 100;

/// How many items a list of a request may have, and how many subscribers the channel of a send.
const MOST_ITEMS: usize = 10_000;

const TOO_MANY: Refusal = Refusal::TooMany {
    limit: MOST_ITEMS as u64,
};

/// Why a name is refused.
fn name_refusal(name: &str) -> Option<Refusal>
    ensures { result ≡ first_broken (name_rules name.now) }
{
    if is_longer_than(name, LONGEST_NAME) {
        Some(Refusal::NameTooLong)
    } else if is_bad_name(name) {
        Some(Refusal::BadName)
    } else {
        None
    }
}

/// Whether each of these is a user.
fn are_users(past: &[Stamped], users: &[UserId]) -> bool
    ensures { result ≡ list_all (is_user past.now) users.now }
{
    users.iter().all(|user| is_user(past, *user))
}

#[tactic(auto, unfolding(crate::specs::Past::Refusals::refusal))]
fn group_refusal(past: &[Stamped], name: &str, members: &[UserId]) -> Option<Refusal>
    ensures { result ≡ refusal past.now (Request.AddGroup name.now members.now) }
{
    if !are_users(past, members) {
        Some(Refusal::NoUser)
    } else if is_group_taken(past, name) {
        Some(Refusal::Exists)
    } else if members.len() > MOST_ITEMS {
        Some(TOO_MANY)
    } else {
        name_refusal(name)
    }
}

#[tactic(auto, unfolding(crate::specs::Past::Refusals::refusal))]
fn member_refusal(past: &[Stamped], group: GroupId, user: UserId) -> Option<Refusal>
    ensures { (on : Bool) → result ≡ refusal past.now (Request.Member group user on) }
{
    if !is_user(past, user) {
        Some(Refusal::NoUser)
    } else if !is_group(past, group) {
        Some(Refusal::NoGroup)
    } else {
        None
    }
}

#[tactic(auto, unfolding(crate::specs::Past::Refusals::refusal))]
fn channel_refusal(past: &[Stamped], name: &str) -> Option<Refusal>
    ensures { result ≡ refusal past.now (Request.AddChannel name.now) }
{
    if is_channel_taken(past, name) {
        Some(Refusal::Exists)
    } else {
        name_refusal(name)
    }
}

#[tactic(auto, unfolding(crate::specs::Past::Refusals::refusal))]
fn subscription_refusal(past: &[Stamped], user: UserId, channel: ChannelId) -> Option<Refusal>
    ensures { (on : Bool) → result ≡ refusal past.now (Request.Subscribe user channel on) }
{
    if !is_user(past, user) {
        Some(Refusal::NoUser)
    } else if !is_channel(past, channel) {
        Some(Refusal::NoChannel)
    } else {
        None
    }
}

#[tactic(auto, unfolding(crate::specs::Past::Refusals::refusal))]
fn send_refusal(
    past: &[Stamped],
    sender: UserId,
    channel: ChannelId,
    topic: &str,
    text: &str,
) -> Option<Refusal>
    ensures { result ≡ refusal past.now (Request.Send sender channel topic.now text.now) }
{
    if !is_user(past, sender) {
        Some(Refusal::NoUser)
    } else if !is_channel(past, channel) {
        Some(Refusal::NoChannel)
    } else if !is_subscribed(past, sender, channel) {
        Some(Refusal::NotSubscribed)
    } else if is_blank(text) {
        Some(Refusal::EmptyText)
    } else if is_longer_than(text, LONGEST_TEXT) {
        Some(Refusal::TextTooLong)
    } else if is_longer_than(topic, LONGEST_TOPIC) {
        Some(Refusal::TopicTooLong)
    } else if subscriber_count(past, channel) > MOST_ITEMS {
        Some(TOO_MANY)
    } else {
        None
    }
}

#[tactic(auto, unfolding(crate::specs::Past::Refusals::refusal))]
fn setting_refusal(past: &[Stamped], user: UserId, change: SettingChange) -> Option<Refusal>
    ensures { result ≡ refusal past.now (Request.Set user change) }
{
    if !is_user(past, user) {
        Some(Refusal::NoUser)
    } else if is_bad_period(change) {
        Some(Refusal::BadPeriod)
    } else {
        None
    }
}

#[tactic(auto, unfolding(crate::specs::Past::Refusals::refusal))]
fn specific_refusal(past: &[Stamped], user: UserId, channel: ChannelId) -> Option<Refusal>
    ensures { (change : SpecificChange) → result ≡ refusal past.now (Request.SetChannel user channel change) }
{
    if !is_user(past, user) {
        Some(Refusal::NoUser)
    } else if !is_channel(past, channel) {
        Some(Refusal::NoChannel)
    } else {
        None
    }
}

#[tactic(auto, unfolding(crate::specs::Past::Refusals::refusal))]
fn policy_refusal(
    past: &[Stamped],
    user: UserId,
    channel: ChannelId,
    topic: &str,
) -> Option<Refusal>
    ensures { (policy : Policy) → result ≡ refusal past.now (Request.SetPolicy user channel topic.now policy) }
{
    if !is_user(past, user) {
        Some(Refusal::NoUser)
    } else if !is_channel(past, channel) {
        Some(Refusal::NoChannel)
    } else if is_longer_than(topic, LONGEST_TOPIC) {
        Some(Refusal::TopicTooLong)
    } else {
        None
    }
}

#[tactic(auto, unfolding(crate::specs::Past::Refusals::refusal))]
fn mute_refusal(past: &[Stamped], user: UserId, other: UserId) -> Option<Refusal>
    ensures { (on : Bool) → result ≡ refusal past.now (Request.Mute user other on) }
{
    if is_user(past, user) && is_user(past, other) {
        None
    } else {
        Some(Refusal::NoUser)
    }
}

#[tactic(auto, unfolding(crate::specs::Past::Refusals::refusal))]
fn direct_refusal(past: &[Stamped], sender: UserId, to: &[UserId], text: &str) -> Option<Refusal>
    ensures { result ≡ refusal past.now (Request.Direct sender to.now text.now) }
{
    if !(is_user(past, sender) && are_users(past, to)) {
        Some(Refusal::NoUser)
    } else if is_blank(text) {
        Some(Refusal::EmptyText)
    } else if is_longer_than(text, LONGEST_TEXT) {
        Some(Refusal::TextTooLong)
    } else if to.len() > MOST_ITEMS {
        Some(TOO_MANY)
    } else {
        None
    }
}

#[tactic(auto, unfolding(crate::specs::Past::Refusals::refusal))]
fn deletion_refusal(past: &[Stamped], user: UserId, message: MessageId) -> Option<Refusal>
    ensures { result ≡ refusal past.now (Request.Delete user message) }
{
    if !is_user(past, user) {
        Some(Refusal::NoUser)
    } else if !is_message(past, message) {
        Some(Refusal::NoMessage)
    } else if !is_sender_of(past, user, message) {
        Some(Refusal::NotSender)
    } else {
        None
    }
}

/// Whether the user may read each of these messages.
fn may_read_all(past: &[Stamped], user: UserId, messages: &[MessageId]) -> bool
    ensures { result ≡ list_all (may_read past.now user) messages.now }
{
    messages
        .iter()
        .all(|message| may_read(past, user, *message))
}

#[tactic(auto, unfolding(crate::specs::Past::Refusals::refusal))]
fn read_refusal(past: &[Stamped], user: UserId, messages: &[MessageId]) -> Option<Refusal>
    ensures { result ≡ refusal past.now (Request.Read user messages.now) }
{
    if !is_user(past, user) {
        Some(Refusal::NoUser)
    } else if !may_read_all(past, user, messages) {
        Some(Refusal::NoMessage)
    } else if messages.len() > MOST_ITEMS {
        Some(TOO_MANY)
    } else {
        None
    }
}

/// Why the request is refused: the first refusal, by its number, whose rule is broken.
#[tactic(auto, unfolding(crate::specs::Past::Refusals::refusal))]
pub fn refusal(past: &[Stamped], request: &Request) -> Option<Refusal>
    ensures { result ≡ refusal past.now request.now }
{
    match request {
        Request::AddUser { name, .. } => name_refusal(name.as_str()),
        Request::AddGroup { name, members } => {
            group_refusal(past, name.as_str(), members.as_slice())
        }
        Request::Member { group, user, .. } => member_refusal(past, *group, *user),
        Request::AddChannel { name } => channel_refusal(past, name.as_str()),
        Request::Subscribe { user, channel, .. } => { subscription_refusal(past, *user, *channel) }
        Request::Set { user, change } => setting_refusal(past, *user, *change),
        Request::SetChannel { user, channel, .. } => specific_refusal(past, *user, *channel),
        Request::SetPolicy {
            user,
            channel,
            topic,
            ..
        } => policy_refusal(past, *user, *channel, topic.as_str()),
        Request::Mute { user, other, .. } => mute_refusal(past, *user, *other),
        Request::Send {
            sender,
            channel,
            topic,
            text,
        } => send_refusal(past, *sender, *channel, topic.as_str(), text.as_str()),
        Request::Direct { sender, to, text } => {
            direct_refusal(past, *sender, to.as_slice(), text.as_str())
        }
        Request::Delete { user, message } => deletion_refusal(past, *user, *message),
        Request::Read { user, messages } => read_refusal(past, *user, messages.as_slice()),
    }
}
