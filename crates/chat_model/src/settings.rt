//! A user's settings.
ghost use Rattle.std.specs.Prelude.{◌≡◌};
ghost use Rattle.chat_model.specs.Settings.{changed_settings};

use crate::Same;

/// Nine switches, and the period of a user's mails in seconds (1 to 604,800, a week).
#[derive(Clone, Copy, Debug, PartialEq, Eq)]
pub struct Settings {
    pub mail_mentions: bool,
    pub push_mentions: bool,
    pub push_online: bool,
    pub channel_mail: bool,
    pub channel_push: bool,
    pub wildcards: bool,
    pub followed_mail: bool,
    pub followed_push: bool,
    pub followed_wildcards: bool,
    pub period: u64,
}

impl Same for Settings {
    fn is_same(&self, other: &Settings) -> bool {
        self == other
    }
}

impl Default for Settings {
    ghost use Rattle.std.specs.Prelude.{◌≡◌};
    ghost use Rattle.chat_model.specs.Settings.{default_settings};

    ghost is_default = { λ s. s ≡ default_settings };

    fn default() -> Settings {
        Settings {
            mail_mentions: true,
            push_mentions: true,
            push_online: false,
            channel_mail: false,
            channel_push: false,
            wildcards: true,
            followed_mail: true,
            followed_push: true,
            followed_wildcards: true,
            period: 120,
        }
    }
}

impl Settings {
    /// The settings with a switch or the period set.
    pub fn changed(self, change: SettingChange) -> Settings
        ensures { result ≡ changed_settings change self }
    {
        let mut settings = self;
        match change {
            SettingChange::MailMentions(on) => settings.mail_mentions = on,
            SettingChange::PushMentions(on) => settings.push_mentions = on,
            SettingChange::PushOnline(on) => settings.push_online = on,
            SettingChange::ChannelMail(on) => settings.channel_mail = on,
            SettingChange::ChannelPush(on) => settings.channel_push = on,
            SettingChange::Wildcards(on) => settings.wildcards = on,
            SettingChange::FollowedMail(on) => settings.followed_mail = on,
            SettingChange::FollowedPush(on) => settings.followed_push = on,
            SettingChange::FollowedWildcards(on) => settings.followed_wildcards = on,
            SettingChange::Period(seconds) => settings.period = seconds,
        }
        settings
    }
}

/// A change of one of the switches, or of the period.
#[derive(Clone, Copy, Debug, PartialEq, Eq)]
pub enum SettingChange {
    MailMentions(bool),
    PushMentions(bool),
    PushOnline(bool),
    ChannelMail(bool),
    ChannelPush(bool),
    Wildcards(bool),
    FollowedMail(bool),
    FollowedPush(bool),
    FollowedWildcards(bool),
    /// In seconds. A request sets 1 to 604,800 of them and is refused outside.
    Period(u64),
}

impl Same for SettingChange {
    fn is_same(&self, other: &SettingChange) -> bool {
        self == other
    }
}
