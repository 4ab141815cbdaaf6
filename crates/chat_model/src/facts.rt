//! What the triggers look at.

use crate::{Policy, Settings, Specific};

/// What is so of a user and a message at the event that may owe a notice.
#[derive(Clone, Copy, Debug, PartialEq, Eq)]
pub struct Facts {
    /// The user sent the message.
    pub own: bool,
    /// The user is a bot.
    pub bot: bool,
    /// The user has muted the sender.
    pub sender_muted: bool,
    /// The user is a recipient of the message.
    pub recipient: bool,
    /// The message is a direct one.
    pub direct: bool,
    /// The text mentions the user, or a group of the user.
    pub mentioned: bool,
    /// The text mentions all of the channel.
    pub channel_wildcard: bool,
    /// The text mentions all who take part in the topic.
    pub topic_wildcard: bool,
    /// The user takes part in the topic: a message of the user stands in it.
    pub participant: bool,
    /// The user's policy for the topic.
    pub policy: Policy,
    /// The user's settings for the channel.
    pub specific: Specific,
    pub settings: Settings,
}
