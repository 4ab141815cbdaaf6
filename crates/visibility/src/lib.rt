//! What a user's settings let through, and which topics a user follows.
//! After Zulip help center: "Mute or unmute a channel", "Topic notifications" and "Follow a topic".
#![tactic(auto)]

ghost use Rattle.std.specs.Prelude.{◌≡◌};
ghost use Rattle.chat_model.specs.Visibility.{allows, followed};

use chat_model::Policy;

#[cfg(test)]
mod tests;

/// Whether a user's settings let a message of a topic through: its channel's and its topic's muting, the setting for
/// the channel, or else the user's own switch. The first that applies counts. It takes no memory.
pub fn allows(muted: bool, policy: Policy, specific: Option<bool>, account: bool) -> bool
    ensures { result ≡ allows muted policy specific account }
{
    match policy {
        Policy::Muted => false,
        Policy::Inherit | Policy::Followed if muted => false,
        _ => specific.unwrap_or(account),
    }
}

/// Whether the topic is followed and the user's switch is on. It takes no memory.
pub fn followed(policy: Policy, account: bool) -> bool
    ensures { result ≡ followed policy account }
{
    matches!(policy, Policy::Followed) && account
}
