//! What is so of a user and a message, by looking through the whole list of events.
ghost use Rattle.std.specs.Prelude.{◌≡◌, ◌||◌, ◌&&◌, ◌==◌, not, unwrap_or, false};
ghost use Rattle.std.specs.Option.{option_copied};
ghost use Rattle.std.specs.List.{list_any};
ghost use Rattle.notice_ledger.specs.Past.Values.{is_member, is_one_of, numbered};
ghost use Rattle.notice_ledger.specs.Past.Triggers.{goes_to, is_direct, is_participant_of, policy_for, specific_for};
ghost use Rattle.notice_ledger.specs.Plain.{is_mentioned_in};

use crate::Destination;
use crate::messages::is_participant;
use crate::settings::{has_muted, policy, settings, specific};
use crate::values::{is_member, is_one_of, is_subscribed};
use chat_model::{DealNo, Facts, GroupId, Mentions, MessageId, Policy, Specific, Stamped, UserId};

/// A message at its send: its deal, where it goes, what it mentions, and which users are bots.
#[derive(Debug, Drop)]
pub struct Heard {
    pub number: MessageId,
    pub deal: DealNo,
    pub sender: UserId,
    pub to: Destination,
    pub mentioned: Mentions,
    pub bots: Vec<bool>,
}

/// The item of a number, from 1.
pub fn item_at<T>(items: &[T], number: u64) -> Option<&T>
    ensures { option_copied result ≡ numbered number items.now }
{
    if number == 0 {
        return None;
    }
    items.get(number as usize - 1)
}

/// Whether the user is one of the bots.
fn is_bot(bots: &[bool], user: UserId) -> bool
    ensures { result ≡ unwrap_or (numbered user.0 bots.now) false }
{
    match item_at(bots, user.0) {
        Some(bot) => *bot,
        None => false,
    }
}

/// Whether the user is a member of one of these groups.
fn is_in_some(past: &[Stamped], groups: &[GroupId], user: UserId) -> bool
    ensures { result ≡ list_any (λ g. is_member past.now g user) groups.now }
{
    groups.iter().any(|group| is_member(past, *group, user))
}

/// Whether the user is mentioned, by name or by a group of the user.
fn is_mentioned(past: &[Stamped], mentioned: &Mentions, user: UserId) -> bool
    ensures { result ≡ is_mentioned_in past.now mentioned.now user }
{
    is_one_of(mentioned.users.as_slice(), user)
        || is_in_some(past, mentioned.groups.as_slice(), user)
}

/// Whether a message goes to the user.
fn goes_to(past: &[Stamped], to: &Destination, user: UserId) -> bool
    ensures { result ≡ goes_to past.now to.now user }
{
    match to {
        Destination::Channel { channel, .. } => is_subscribed(past, user, *channel),
        Destination::Direct { to } => is_one_of(to.as_slice(), user),
    }
}

/// Whether the user is a recipient of a message that goes there.
fn is_recipient(past: &[Stamped], to: &Destination, sender: UserId, user: UserId) -> bool
    ensures { result ≡ (goes_to past.now to.now user && not (user.0 == sender.0)) }
{
    goes_to(past, to, user) && user.0 != sender.0
}

/// Whether a wildcard counts in a message that goes there.
fn wildcard_counts(is_there: bool, to: &Destination) -> bool
    ensures { result ≡ (is_there && not (is_direct to.now)) }
{
    is_there && !to.is_direct()
}

/// Whether the user takes part in the topic.
fn is_participant_of(past: &[Stamped], to: &Destination, user: UserId) -> bool
    ensures { result ≡ is_participant_of past.now to.now user }
{
    match to {
        Destination::Channel { channel, topic } => {
            is_participant(past, user, *channel, topic.as_str())
        }
        Destination::Direct { .. } => false,
    }
}

/// The user's policy for the topic.
fn policy_for(past: &[Stamped], to: &Destination, user: UserId) -> Policy
    ensures { result ≡ policy_for past.now to.now user }
{
    match to {
        Destination::Channel { channel, topic } => policy(past, user, *channel, topic.as_str()),
        Destination::Direct { .. } => Policy::Inherit,
    }
}

/// The user's settings for the channel.
fn specific_for(past: &[Stamped], to: &Destination, user: UserId) -> Specific
    ensures { result ≡ specific_for past.now to.now user }
{
    match to {
        Destination::Channel { channel, .. } => specific(past, user, *channel),
        Destination::Direct { .. } => Specific::default(),
    }
}

impl Heard {
    ghost use Rattle.notice_ledger.specs.Plain.{facts_heard};

    /// What is so of the user, behind these events.
    pub fn facts(&self, past: &[Stamped], user: UserId) -> Facts
        ensures { result ≡ facts_heard past.now self.now user }
    {
        let mentioned = &self.mentioned;
        Facts {
            own: user.0 == self.sender.0,
            bot: is_bot(&self.bots, user),
            sender_muted: has_muted(past, user, self.sender),
            recipient: is_recipient(past, &self.to, self.sender, user),
            direct: self.to.is_direct(),
            mentioned: is_mentioned(past, mentioned, user),
            channel_wildcard: wildcard_counts(mentioned.channel_wildcard, &self.to),
            topic_wildcard: wildcard_counts(mentioned.topic_wildcard, &self.to),
            participant: is_participant_of(past, &self.to, user),
            policy: policy_for(past, &self.to, user),
            specific: specific_for(past, &self.to, user),
            settings: settings(past, user),
        }
    }
}
