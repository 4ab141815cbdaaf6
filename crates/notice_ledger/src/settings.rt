//! What users set, by looking through the whole list of events.
ghost use Rattle.std.specs.Prelude.{◌≡◌};
ghost use Rattle.notice_ledger.specs.Past.Values.{has_muted, mute_change, policy, policy_change, setting_change, settings, specific, specific_change};

use chat_model::{
    ChannelId, Event, Policy, Request, SettingChange, Settings, Specific, SpecificChange, Stamped,
    UserId,
};

/// What the event changes of the user's settings.
fn setting_change(user: UserId, event: &Event) -> Option<SettingChange>
    ensures { result ≡ setting_change user event.now }
{
    match event {
        Event::Asked(
            Request::Set {
                user: other,
                change,
            },
        ) if other.0 == user.0 => Some(*change),
        _ => None,
    }
}

/// The user's settings.
pub fn settings(past: &[Stamped], user: UserId) -> Settings
    ensures { result ≡ settings past.now user }
{
    let mut settings = Settings::default();
    for stamped in past {
        if let Some(change) = setting_change(user, &stamped.event) {
            settings = settings.changed(change);
        }
    }
    settings
}

/// What the event changes of the user's settings for the channel.
fn specific_change(user: UserId, channel: ChannelId, event: &Event) -> Option<SpecificChange>
    ensures { result ≡ specific_change user channel event.now }
{
    match event {
        Event::Asked(
            Request::SetChannel {
                user: other,
                channel: changed,
                change,
            },
        ) if other.0 == user.0 && changed.0 == channel.0 => Some(*change),
        _ => None,
    }
}

/// The user's settings for the channel.
pub fn specific(past: &[Stamped], user: UserId, channel: ChannelId) -> Specific
    ensures { result ≡ specific past.now user channel }
{
    let mut specific = Specific::default();
    for stamped in past {
        if let Some(change) = specific_change(user, channel, &stamped.event) {
            specific = specific.changed(change);
        }
    }
    specific
}

/// What the event makes of the user's policy for the topic of the channel.
fn policy_change(user: UserId, channel: ChannelId, topic: &str, event: &Event) -> Option<Policy>
    ensures { result ≡ policy_change user channel topic.now event.now }
{
    match event {
        Event::Asked(
            Request::SetPolicy {
                user: other,
                channel: changed,
                topic: named,
                policy,
            },
        ) if other.0 == user.0
            && changed.0 == channel.0
            && topic.eq_ignore_ascii_case(named.as_str()) => Some(*policy),
        _ => None,
    }
}

/// The user's policy for the topic of the channel.
pub fn policy(past: &[Stamped], user: UserId, channel: ChannelId, topic: &str) -> Policy
    ensures { result ≡ policy past.now user channel topic.now }
{
    let mut policy = Policy::Inherit;
    for stamped in past {
        policy = policy_change(user, channel, topic, &stamped.event).unwrap_or(policy);
    }
    policy
}

/// What the event makes of the user's muting of another.
fn mute_change(user: UserId, other: UserId, event: &Event) -> Option<bool>
    ensures { result ≡ mute_change user other event.now }
{
    match event {
        Event::Asked(
            Request::Mute {
                user: muting,
                other: muted,
                on,
            },
        ) if muting.0 == user.0 && muted.0 == other.0 => Some(*on),
        _ => None,
    }
}

/// Whether the user has muted the other.
pub fn has_muted(past: &[Stamped], user: UserId, other: UserId) -> bool
    ensures { result ≡ has_muted past.now user other }
{
    let mut on = false;
    for stamped in past {
        on = mute_change(user, other, &stamped.event).unwrap_or(on);
    }
    on
}
