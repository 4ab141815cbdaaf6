//! What there is after a list of events, each of which counts, and its values, by looking through the whole list.
ghost use Rattle.std.specs.Prelude.{◌≡◌, ◌&&◌, false, map, length, is_some, nat_lt, nat_le, option_map, count_by, IfOk};
ghost use Rattle.std.specs.List.{list_any};
ghost use Rattle.std.specs.Option.{option_copied, option_map_or};
ghost use Rattle.std.specs.Str.{str_eq_ignore_ascii_case};
ghost use Rattle.notice_ledger.specs.Past.Refusals.{is_taken};
ghost use Rattle.notice_ledger.specs.Past.Values.{channel_name, channel_of, channels, group_names, group_of, groups, is_channel, is_group, is_member, is_one_of, is_user, membership_change, people, person_of, subscribed, subscriber_count, subscription_change, user_names};

use crate::facts::item_at;
use chat_model::{
    ChannelId, Event, GroupId, GroupName, OutOfMemory, Request, Stamped, Text, UserId, UserName,
};
use std::alloc::Global;

/// The name of the user that the event adds, if it adds one.
fn added_user(event: &Event) -> Option<&Text>
    ensures { option_copied result ≡ option_map (λ p. p.name) (person_of event.now) }
{
    match event {
        Event::Asked(Request::AddUser { name, .. }) => Some(name),
        _ => None,
    }
}

/// Whether the user that the event adds is a bot, if it adds one.
fn added_bot(event: &Event) -> Option<bool>
    ensures { result ≡ option_map (λ p. p.bot) (person_of event.now) }
{
    match event {
        Event::Asked(Request::AddUser { bot, .. }) => Some(*bot),
        _ => None,
    }
}

/// The name of the group that the event adds, if it adds one.
fn added_group(event: &Event) -> Option<&Text>
    ensures { option_copied result ≡ group_of event.now }
{
    match event {
        Event::Asked(Request::AddGroup { name, .. }) => Some(name),
        _ => None,
    }
}

/// The name of the channel that the event adds, if it adds one.
fn added_channel(event: &Event) -> Option<&Text>
    ensures { option_copied result ≡ channel_of event.now }
{
    match event {
        Event::Asked(Request::AddChannel { name }) => Some(name),
        _ => None,
    }
}

/// The users with their names, ascending.
pub fn user_names(alloc: Global, past: &[Stamped]) -> Result<Vec<UserName>, OutOfMemory>
    ensures { IfOk result (λ names. names.items ≡ user_names past.now) }
{
    let mut names = Vec::new(alloc);
    for stamped in past {
        if let Some(name) = added_user(&stamped.event) {
            let id = UserId(names.len() as u64 + 1);
            let name = name.copy()?;
            names.push(UserName { id, name })?;
        }
    }
    Ok(names)
}

/// Which of the users are bots, ascending by user.
pub fn bots(alloc: Global, past: &[Stamped]) -> Result<Vec<bool>, OutOfMemory>
    ensures { IfOk result (λ bots. bots.items ≡ map (λ p. p.bot) (people past.now)) }
{
    let mut bots = Vec::new(alloc);
    for stamped in past {
        if let Some(bot) = added_bot(&stamped.event) {
            bots.push(bot)?;
        }
    }
    Ok(bots)
}

/// The groups with their names, ascending.
pub fn group_names(alloc: Global, past: &[Stamped]) -> Result<Vec<GroupName>, OutOfMemory>
    ensures { IfOk result (λ names. names.items ≡ group_names past.now) }
{
    let mut names = Vec::new(alloc);
    for stamped in past {
        if let Some(name) = added_group(&stamped.event) {
            let id = GroupId(names.len() as u64 + 1);
            let name = name.copy()?;
            names.push(GroupName { id, name })?;
        }
    }
    Ok(names)
}

/// The names of the channels, in the order of their numbers.
fn channel_names(alloc: Global, past: &[Stamped]) -> Result<Vec<Text>, OutOfMemory>
    ensures { IfOk result (λ names. names.items ≡ channels past.now) }
{
    let mut names = Vec::new(alloc);
    for stamped in past {
        if let Some(name) = added_channel(&stamped.event) {
            let name = name.copy()?;
            names.push(name)?;
        }
    }
    Ok(names)
}

/// The name of a channel, empty where there is none of that number.
pub fn channel_name(
    alloc: Global,
    past: &[Stamped],
    channel: ChannelId,
) -> Result<Text, OutOfMemory>
    ensures { IfOk result (λ name. name ≡ channel_name past.now channel) }
{
    let names = channel_names(alloc, past)?;
    match item_at(&names, channel.0) {
        Some(name) => name.copy(),
        None => Text::from_str(alloc, ""),
    }
}

/// Whether the event adds a user.
fn adds_user(event: &Event) -> bool
    ensures { result ≡ is_some (person_of event.now) }
{
    matches!(event, Event::Asked(Request::AddUser { .. }))
}

/// How many events add a user.
fn user_additions(past: &[Stamped]) -> usize
    ensures { result ≡ count_by (λ s. is_some (person_of s.event)) past.now }
{
    past.iter()
        .filter(|stamped| adds_user(&stamped.event))
        .count()
}

/// How many users there are.
fn user_count(past: &[Stamped]) -> usize
    ensures { result ≡ length (people past.now) }
{
    user_additions(past)
}

/// Whether the event adds a group.
fn adds_group(event: &Event) -> bool
    ensures { result ≡ is_some (group_of event.now) }
{
    matches!(event, Event::Asked(Request::AddGroup { .. }))
}

/// How many events add a group.
fn group_additions(past: &[Stamped]) -> usize
    ensures { result ≡ count_by (λ s. is_some (group_of s.event)) past.now }
{
    past.iter()
        .filter(|stamped| adds_group(&stamped.event))
        .count()
}

/// How many groups there are.
fn group_count(past: &[Stamped]) -> usize
    ensures { result ≡ length (groups past.now) }
{
    group_additions(past)
}

/// Whether the event adds a channel.
fn adds_channel(event: &Event) -> bool
    ensures { result ≡ is_some (channel_of event.now) }
{
    matches!(event, Event::Asked(Request::AddChannel { .. }))
}

/// How many events add a channel.
fn channel_additions(past: &[Stamped]) -> usize
    ensures { result ≡ count_by (λ s. is_some (channel_of s.event)) past.now }
{
    past.iter()
        .filter(|stamped| adds_channel(&stamped.event))
        .count()
}

/// How many channels there are.
fn channel_count(past: &[Stamped]) -> usize
    ensures { result ≡ length (channels past.now) }
{
    channel_additions(past)
}

/// Whether the number is one of so many, counted from 1.
pub fn is_number(number: u64, count: usize) -> bool
    ensures { result ≡ (nat_lt 0 number && nat_le number count) }
{
    0 < number && number <= count as u64
}

/// Whether there is a user of that number.
pub fn is_user(past: &[Stamped], user: UserId) -> bool
    ensures { result ≡ is_user past.now user }
{
    is_number(user.0, user_count(past))
}

/// Whether there is a group of that number.
pub fn is_group(past: &[Stamped], group: GroupId) -> bool
    ensures { result ≡ is_group past.now group }
{
    is_number(group.0, group_count(past))
}

/// Whether there is a channel of that number.
pub fn is_channel(past: &[Stamped], channel: ChannelId) -> bool
    ensures { result ≡ is_channel past.now channel }
{
    is_number(channel.0, channel_count(past))
}

/// Whether the event adds a group of this name without ASCII case.
fn adds_group_named(event: &Event, name: &str) -> bool
    ensures { result ≡ option_map_or (str_eq_ignore_ascii_case name.now) (group_of event.now) false }
{
    match event {
        Event::Asked(Request::AddGroup { name: added, .. }) => {
            name.eq_ignore_ascii_case(added.as_str())
        }
        _ => false,
    }
}

/// Whether an event adds a group of this name without ASCII case.
fn some_adds_group_named(past: &[Stamped], name: &str) -> bool
    ensures { result ≡ list_any (λ s. option_map_or (str_eq_ignore_ascii_case name.now) (group_of s.event) false) past.now }
{
    past.iter()
        .any(|stamped| adds_group_named(&stamped.event, name))
}

/// Whether a group has this name without ASCII case.
pub fn is_group_taken(past: &[Stamped], name: &str) -> bool
    ensures { result ≡ is_taken (groups past.now) name.now }
{
    some_adds_group_named(past, name)
}

/// Whether the event adds a channel of this name without ASCII case.
fn adds_channel_named(event: &Event, name: &str) -> bool
    ensures { result ≡ option_map_or (str_eq_ignore_ascii_case name.now) (channel_of event.now) false }
{
    match event {
        Event::Asked(Request::AddChannel { name: added }) => {
            name.eq_ignore_ascii_case(added.as_str())
        }
        _ => false,
    }
}

/// Whether an event adds a channel of this name without ASCII case.
fn some_adds_channel_named(past: &[Stamped], name: &str) -> bool
    ensures { result ≡ list_any (λ s. option_map_or (str_eq_ignore_ascii_case name.now) (channel_of s.event) false) past.now }
{
    past.iter()
        .any(|stamped| adds_channel_named(&stamped.event, name))
}

/// Whether a channel has this name without ASCII case.
pub fn is_channel_taken(past: &[Stamped], name: &str) -> bool
    ensures { result ≡ is_taken (channels past.now) name.now }
{
    some_adds_channel_named(past, name)
}

/// Whether the user is one of these.
pub fn is_one_of(users: &[UserId], user: UserId) -> bool
    ensures { result ≡ is_one_of users.now user }
{
    users.iter().any(|other| other.0 == user.0)
}

/// What an event behind these makes of a user's membership in a group.
fn membership_change(group: GroupId, user: UserId, past: &[Stamped], event: &Event) -> Option<bool>
    ensures { result ≡ membership_change group user past.now event.now }
{
    match event {
        Event::Asked(Request::AddGroup { members, .. })
            if group.0 > 0 && group_count(past) as u64 == group.0 - 1 => {
            Some(is_one_of(members.as_slice(), user))
        }
        Event::Asked(
            Request::Member {
                group: changed,
                user: other,
                on,
            },
        ) if changed.0 == group.0 && other.0 == user.0 => Some(*on),
        _ => None,
    }
}

/// Whether the user is a member of the group.
pub fn is_member(past: &[Stamped], group: GroupId, user: UserId) -> bool
    ensures { result ≡ is_member past.now group user }
{
    let mut on = false;
    for i in 0..past.len() {
        on = membership_change(group, user, &past[..i], &past[i].event).unwrap_or(on);
    }
    on
}

/// What an event makes of a user's subscription to a channel.
fn subscription_change(user: UserId, channel: ChannelId, event: &Event) -> Option<bool>
    ensures { result ≡ subscription_change user channel event.now }
{
    match event {
        Event::Asked(
            Request::Subscribe {
                user: other,
                channel: changed,
                on,
            },
        ) if other.0 == user.0 && changed.0 == channel.0 => Some(*on),
        _ => None,
    }
}

/// Whether the user is subscribed to the channel.
pub fn is_subscribed(past: &[Stamped], user: UserId, channel: ChannelId) -> bool
    ensures { result ≡ subscribed past.now user channel }
{
    let mut on = false;
    for stamped in past {
        on = subscription_change(user, channel, &stamped.event).unwrap_or(on);
    }
    on
}

/// How many subscribers the channel has.
pub fn subscriber_count(past: &[Stamped], channel: ChannelId) -> usize
    ensures { result ≡ subscriber_count past.now channel }
{
    let mut count = 0;
    for i in 0..user_count(past) {
        if is_subscribed(past, UserId(i as u64 + 1), channel) {
            count += 1;
        }
    }
    count
}
