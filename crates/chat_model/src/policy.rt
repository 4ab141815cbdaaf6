//! What a user wants of a channel and of a topic.
ghost use Rattle.std.specs.Prelude.{◌≡◌};
ghost use Rattle.chat_model.specs.Settings.{changed_specific};

use crate::Same;

/// What a user wants of a topic. After Zulip help center: "Topic notifications".
#[derive(Clone, Copy, Debug, Default, PartialEq, Eq)]
pub enum Policy {
    /// What the channel's settings say.
    #[default]
    Inherit,
    /// Nothing but direct messages and mentions.
    Muted,
    /// As in a channel that isn't muted, also where it is.
    Unmuted,
    /// More than else: the topic is followed.
    Followed,
}

impl Same for Policy {
    fn is_same(&self, other: &Policy) -> bool {
        self == other
    }
}

/// A user's settings for one channel. `None` is the default: what the user's own settings say.
#[derive(Clone, Copy, Debug, PartialEq, Eq)]
pub struct Specific {
    pub muted: bool,
    pub mail: Option<bool>,
    pub push: Option<bool>,
    pub wildcards: Option<bool>,
}

impl Default for Specific {
    ghost use Rattle.std.specs.Prelude.{◌≡◌};
    ghost use Rattle.chat_model.specs.Settings.{default_specific};

    ghost is_default = { λ s. s ≡ default_specific };

    fn default() -> Specific {
        Specific {
            muted: false,
            mail: None,
            push: None,
            wildcards: None,
        }
    }
}

impl Specific {
    /// The settings with one of them set.
    pub fn changed(self, change: SpecificChange) -> Specific
        ensures { result ≡ changed_specific change self }
    {
        let mut specific = self;
        match change {
            SpecificChange::Muted(on) => specific.muted = on,
            SpecificChange::Mail(on) => specific.mail = on,
            SpecificChange::Push(on) => specific.push = on,
            SpecificChange::Wildcards(on) => specific.wildcards = on,
        }
        specific
    }
}

/// A change of one of the settings for a channel.
#[derive(Clone, Copy, Debug, PartialEq, Eq)]
pub enum SpecificChange {
    Muted(bool),
    Mail(Option<bool>),
    Push(Option<bool>),
    Wildcards(Option<bool>),
}

impl Same for SpecificChange {
    fn is_same(&self, other: &SpecificChange) -> bool {
        self == other
    }
}
