//! What a text mentions.
ghost use Rattle.std.specs.Prelude.{◌≡◌, ◌&&◌, true, All, map, filter, IfOk};
ghost use Rattle.std.specs.List.{list_any};
ghost use Rattle.chat_model.specs.Ascending.{is_ascending_by};
ghost use Rattle.mention_scan.specs.Division.{LiesWithin, spans_of};
ghost use Rattle.mention_scan.specs.Mentions.{inner_of, is_channel_wildcard, is_group_named, is_group_span, is_topic_wildcard, is_user_span, may_name, mentions, speaks_of};

use crate::Span;
use crate::inner::{is_channel_wildcard, is_group_named, is_topic_wildcard, may_name, speaks_of};
use chat_model::{
    GroupId, GroupName, List, Mentions, OutOfMemory, UserId, UserName, ascending_groups,
    ascending_users,
};
use std::alloc::Global;

/// What the spans of a text mention, with these users and groups.
pub fn resolve(
    alloc: Global,
    text: &str,
    spans: &[Span],
    users: &[UserName],
    groups: &[GroupName],
) -> Result<Mentions, OutOfMemory>
    requires spans_of_the_text { spans.now ≡ spans_of text.now }
    ensures mentions { IfOk result (λ m. m ≡ mentions text.now users.now groups.now) }
    ensures ascending_users { IfOk result (λ m. is_ascending_by (λ u. u.0) m.users ≡ true) }
    ensures ascending_groups { IfOk result (λ m. is_ascending_by (λ g. g.0) m.groups ≡ true) }
{
    let naming = naming_spans(alloc, text, spans, users)?;
    let users = named_users(alloc, text, naming.as_slice(), users)?;
    let groups = named_groups(alloc, text, spans, groups)?;
    Ok(Mentions {
        users: ascending_users(users),
        groups: ascending_groups(groups),
        channel_wildcard: has_channel_wildcard(text, spans),
        topic_wildcard: has_topic_wildcard(text, spans),
    })
}

/// The user spans that can mention one of these users.
fn naming_spans(
    alloc: Global,
    text: &str,
    spans: &[Span],
    users: &[UserName],
) -> Result<List<Span>, OutOfMemory>
    requires within { All (LiesWithin text.now) spans.now }
    ensures { IfOk result (λ found.
        found ≡ filter (λ s. is_user_span s && may_name users.now (inner_of text.now s)) spans.now) }
{
    let mut found = List::new(alloc);
    for span in spans {
        if span.is_of_user() && may_name(users, inner(text, span)) {
            found.push(*span)?;
        }
    }
    Ok(found)
}

/// The users of whom one of these spans speaks, in their order.
fn named_users(
    alloc: Global,
    text: &str,
    spans: &[Span],
    users: &[UserName],
) -> Result<List<UserId>, OutOfMemory>
    requires within { All (LiesWithin text.now) spans.now }
    ensures { IfOk result (λ found. found ≡ map (λ u. u.id)
        (filter (λ u. list_any (λ s. speaks_of (inner_of text.now s) u) spans.now) users.now)) }
{
    let mut found = List::new(alloc);
    for user in users {
        if names_user(text, spans, user) {
            found.push(user.id)?;
        }
    }
    Ok(found)
}

/// Whether one of these spans speaks of the user.
fn names_user(text: &str, spans: &[Span], user: &UserName) -> bool
    requires within { All (LiesWithin text.now) spans.now }
    ensures { result ≡ list_any (λ s. speaks_of (inner_of text.now s) user.now) spans.now }
{
    for span in spans {
        if speaks_of(inner(text, span), user) {
            return true;
        }
    }
    false
}

/// The groups whose name one of the group spans has, in their order.
fn named_groups(
    alloc: Global,
    text: &str,
    spans: &[Span],
    groups: &[GroupName],
) -> Result<List<GroupId>, OutOfMemory>
    requires within { All (LiesWithin text.now) spans.now }
    ensures { IfOk result (λ found. found ≡ map (λ g. g.id)
        (filter (λ g. list_any (λ s. is_group_span s && is_group_named (inner_of text.now s) g) spans.now) groups.now)) }
{
    let mut found = List::new(alloc);
    for group in groups {
        if names_group(text, spans, group) {
            found.push(group.id)?;
        }
    }
    Ok(found)
}

/// Whether one of the group spans has the group's name.
fn names_group(text: &str, spans: &[Span], group: &GroupName) -> bool
    requires within { All (LiesWithin text.now) spans.now }
    ensures { result ≡ list_any (λ s. is_group_span s && is_group_named (inner_of text.now s) group.now) spans.now }
{
    for span in spans {
        if span.is_of_group() && is_group_named(inner(text, span), group) {
            return true;
        }
    }
    false
}

/// Whether one of the user spans has a word for all of a channel.
fn has_channel_wildcard(text: &str, spans: &[Span]) -> bool
    requires within { All (LiesWithin text.now) spans.now }
    ensures { result ≡ list_any (λ s. is_user_span s && is_channel_wildcard (inner_of text.now s)) spans.now }
{
    for span in spans {
        if span.is_of_user() && is_channel_wildcard(inner(text, span)) {
            return true;
        }
    }
    false
}

/// Whether one of the user spans has the word for all of a topic.
fn has_topic_wildcard(text: &str, spans: &[Span]) -> bool
    requires within { All (LiesWithin text.now) spans.now }
    ensures { result ≡ list_any (λ s. is_user_span s && is_topic_wildcard (inner_of text.now s)) spans.now }
{
    for span in spans {
        if span.is_of_user() && is_topic_wildcard(inner(text, span)) {
            return true;
        }
    }
    false
}

/// The bytes between the stars of a span that is not silent.
fn inner<'a>(text: &'a str, span: &Span) -> &'a [u8]
    requires within { LiesWithin text.now span.now }
    ensures { result.now ≡ inner_of text.now span.now }
{
    if span.group {
        &text.as_bytes()[span.start + 2..span.end - 1]
    } else {
        &text.as_bytes()[span.start + 3..span.end - 2]
    }
}
