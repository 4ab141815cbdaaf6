use crate::{allows, followed};
use chat_model::Policy;

/// Whether the channel is muted, the topic's policy, whether the user's switch is on, and what is let through.
const WITHOUT_A_SETTING_FOR_THE_CHANNEL: [(bool, Policy, bool, bool); 16] = [
    (false, Policy::Inherit, false, false),
    (false, Policy::Inherit, true, true),
    (false, Policy::Muted, false, false),
    (false, Policy::Muted, true, false),
    (false, Policy::Unmuted, false, false),
    (false, Policy::Unmuted, true, true),
    (false, Policy::Followed, false, false),
    (false, Policy::Followed, true, true),
    (true, Policy::Inherit, false, false),
    (true, Policy::Inherit, true, false),
    (true, Policy::Muted, false, false),
    (true, Policy::Muted, true, false),
    (true, Policy::Unmuted, false, false),
    (true, Policy::Unmuted, true, true),
    (true, Policy::Followed, false, false),
    (true, Policy::Followed, true, false),
];

#[test]
fn muting_of_channel_and_topic_and_the_own_switch(rt: HostRuntime) {
    for (muted, policy, account, through) in WITHOUT_A_SETTING_FOR_THE_CHANNEL {
        assert_eq!(rt;
            allows(muted, policy, None, account),
            through,
            "{muted} {policy:?} {account}"
        );
    }
}

#[test]
fn a_setting_for_the_channel_stands_before_the_own_switch(rt: HostRuntime) {
    assert!(rt; allows(false, Policy::Inherit, Some(true), false));
    assert!(rt; !allows(false, Policy::Inherit, Some(false), true));
    assert!(rt; !allows(true, Policy::Inherit, Some(true), true));
    assert!(rt; allows(true, Policy::Unmuted, Some(true), false));
}

#[test]
fn a_followed_topic_needs_its_switch(rt: HostRuntime) {
    assert!(rt; followed(Policy::Followed, true));
    assert!(rt; !followed(Policy::Followed, false));
    assert!(rt; !followed(Policy::Unmuted, true));
}
