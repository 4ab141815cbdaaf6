//! Numbers of users, groups and messages in order.
ghost use Rattle.std.specs.Prelude.{◌≡◌};
ghost use Rattle.chat_model.specs.Ascending.{ascending_once_by};

use crate::{GroupId, List, MessageId, UserId};

/// The users ascending, once each. It takes no memory.
pub fn ascending_users(users: List<UserId>) -> List<UserId>
    ensures { result ≡ ascending_once_by (λ u. u.0) users }
{
    let mut users = users.into_vec();
    users.sort_unstable();
    users.dedup();
    List::from(users)
}

/// The groups ascending, once each. It takes no memory.
pub fn ascending_groups(groups: List<GroupId>) -> List<GroupId>
    ensures { result ≡ ascending_once_by (λ g. g.0) groups }
{
    let mut groups = groups.into_vec();
    groups.sort_unstable();
    groups.dedup();
    List::from(groups)
}

/// The messages ascending, once each. It takes no memory.
pub fn ascending_messages(messages: List<MessageId>) -> List<MessageId>
    ensures { result ≡ ascending_once_by (λ m. m.0) messages }
{
    let mut messages = messages.into_vec();
    messages.sort_unstable();
    messages.dedup();
    List::from(messages)
}
