//! The words that stand between the stars of a span.
ghost use Rattle.std.specs.Prelude.{◌≡◌, ◌+◌, ◌<◌, length, take, drop, MatchOption, true, false};
ghost use Rattle.mention_scan.specs.Mentions.{after_bar, before_bar, has_bar, is_channel_wildcard, is_group_named, is_named, is_topic_wildcard, is_unshared, may_name, speaks_of};

use chat_model::{GroupName, UserName, number_of};

/// Whether the Inner is a word for all of a channel.
pub fn is_channel_wildcard(inner: &[u8]) -> bool
    ensures { result ≡ is_channel_wildcard inner.now }
{
    inner == b"all".as_slice()
        || inner == b"everyone".as_slice()
        || inner == b"channel".as_slice()
        || inner == b"stream".as_slice()
}

/// Whether the Inner is the word for all of a topic.
pub fn is_topic_wildcard(inner: &[u8]) -> bool
    ensures { result ≡ is_topic_wildcard inner.now }
{
    inner == b"topic".as_slice()
}

/// Whether the Inner can mention one of these users.
pub fn may_name(users: &[UserName], inner: &[u8]) -> bool
    ensures { result ≡ may_name users.now inner.now }
{
    if is_channel_wildcard(inner) || is_topic_wildcard(inner) {
        return false;
    }
    last_bar(inner).is_some() || is_unshared(users, inner)
}

/// Whether the Inner speaks of the user: by the number behind its last `|`, or where it has none by the name.
pub fn speaks_of(inner: &[u8], user: &UserName) -> bool
    ensures { result ≡ speaks_of inner.now user.now }
{
    match last_bar(inner) {
        None => is_named(inner, user),
        Some(bar) => {
            let name = &inner[..bar];
            number_of(&inner[bar + 1..]) == Some(user.id.0)
                && (name.is_empty() || is_named(name, user))
        }
    }
}

/// Whether this is the group's name without ASCII case.
pub fn is_group_named(name: &[u8], group: &GroupName) -> bool
    ensures { result ≡ is_group_named name.now group.now }
{
    name.eq_ignore_ascii_case(group.name.as_str().as_bytes())
}

/// Whether this is the user's name without ASCII case.
fn is_named(name: &[u8], user: &UserName) -> bool
    ensures { result ≡ is_named name.now user.now }
{
    name.eq_ignore_ascii_case(user.name.as_str().as_bytes())
}

/// Whether exactly one of these users has this name.
fn is_unshared(users: &[UserName], name: &[u8]) -> bool
    ensures { result ≡ is_unshared users.now name.now }
{
    users.iter().filter(|user| is_named(name, user)).count() == 1
}

/// Where the last `|` stands.
fn last_bar(inner: &[u8]) -> Option<usize>
    ensures { MatchOption result (has_bar inner.now ≡ false) (λ bar. (bar < length inner.now) ×
        (has_bar inner.now ≡ true) × (take bar inner.now ≡ before_bar inner.now) × (drop (bar + 1) inner.now ≡ after_bar inner.now)) }
{
    let mut end = inner.len();
    while end > 0 {
        end -= 1;
        if inner[end] == b'|' {
            return Some(end);
        }
    }
    None
}
