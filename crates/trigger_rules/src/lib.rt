//! By what a message notifies a user: the table of the triggers.
#![tactic(auto)]

ghost use Rattle.std.specs.Prelude.{◌≡◌};
ghost use Rattle.chat_model.specs.Triggers.{mention_switch, followed_switch, channel_switch, specific_switch, follows_wildcards, allows_wildcards, follows_messages, allows_messages, is_left_out, first_that_holds, trigger_table, trigger_of};

pub use chat_model::Facts;
use chat_model::{Settings, Specific, Trigger, Way};
use visibility::{allows, followed};

#[cfg(test)]
mod tests;

/// The first trigger of the table that holds for the user by the way, and `None` where none holds, and for the sender,
/// for a bot, for who is no recipient and for who has muted the sender. It takes no memory.
#[tactic(auto, unfolding(chat_model::specs::Triggers::trigger_of))]
pub fn trigger(facts: &Facts, way: Way) -> Option<Trigger>
    ensures { result ≡ trigger_of facts.now way }
{
    if is_left_out(facts) {
        None
    } else {
        first_trigger(facts, way)
    }
}

fn is_left_out(facts: &Facts) -> bool
    ensures { result ≡ is_left_out facts.now }
{
    facts.own || facts.bot || !facts.recipient || facts.sender_muted
}

fn first_trigger(facts: &Facts, way: Way) -> Option<Trigger>
    ensures { result ≡ first_that_holds (trigger_table facts.now way) }
{
    let by_mentions = mention_switch(way, &facts.settings);
    let by_follow = follows_wildcards(facts, way);
    let by_wildcard = allows_wildcards(facts, way);
    if facts.direct && by_mentions {
        Some(Trigger::Direct)
    } else if facts.mentioned && by_mentions {
        Some(Trigger::Mention)
    } else if facts.topic_wildcard && facts.participant && by_follow {
        Some(Trigger::FollowedTopicWildcard)
    } else if facts.channel_wildcard && by_follow {
        Some(Trigger::FollowedChannelWildcard)
    } else if facts.topic_wildcard && facts.participant && by_wildcard {
        Some(Trigger::TopicWildcard)
    } else if facts.channel_wildcard && by_wildcard {
        Some(Trigger::ChannelWildcard)
    } else if !facts.direct && follows_messages(facts, way) {
        Some(Trigger::FollowedTopic)
    } else if !facts.direct && allows_messages(facts, way) {
        Some(Trigger::Channel)
    } else {
        None
    }
}

fn follows_wildcards(facts: &Facts, way: Way) -> bool
    ensures { result ≡ follows_wildcards facts.now way }
{
    followed(facts.policy, facts.settings.followed_wildcards)
        && mention_switch(way, &facts.settings)
}

fn allows_wildcards(facts: &Facts, way: Way) -> bool
    ensures { result ≡ allows_wildcards facts.now way }
{
    let specific = &facts.specific;
    let through = allows(
        specific.muted,
        facts.policy,
        specific.wildcards,
        facts.settings.wildcards,
    );
    through && mention_switch(way, &facts.settings)
}

fn follows_messages(facts: &Facts, way: Way) -> bool
    ensures { result ≡ follows_messages facts.now way }
{
    followed(facts.policy, followed_switch(way, &facts.settings))
}

fn allows_messages(facts: &Facts, way: Way) -> bool
    ensures { result ≡ allows_messages facts.now way }
{
    allows(
        facts.specific.muted,
        facts.policy,
        specific_switch(way, &facts.specific),
        channel_switch(way, &facts.settings),
    )
}

fn mention_switch(way: Way, settings: &Settings) -> bool
    ensures { result ≡ mention_switch way settings.now }
{
    match way {
        Way::Mail => settings.mail_mentions,
        Way::Push => settings.push_mentions,
    }
}

fn followed_switch(way: Way, settings: &Settings) -> bool
    ensures { result ≡ followed_switch way settings.now }
{
    match way {
        Way::Mail => settings.followed_mail,
        Way::Push => settings.followed_push,
    }
}

fn channel_switch(way: Way, settings: &Settings) -> bool
    ensures { result ≡ channel_switch way settings.now }
{
    match way {
        Way::Mail => settings.channel_mail,
        Way::Push => settings.channel_push,
    }
}

fn specific_switch(way: Way, specific: &Specific) -> Option<bool>
    ensures { result ≡ specific_switch way specific.now }
{
    match way {
        Way::Mail => specific.mail,
        Way::Push => specific.push,
    }
}
