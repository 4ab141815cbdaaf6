//! The order of a request's lists.
ghost use Rattle.std.specs.Prelude.{◌≡◌};
ghost use Rattle.chat_model.specs.Ascending.{is_ascending_by};
ghost use Rattle.notice_ledger.specs.InOrder.{in_order, is_ascending, is_in_order};

use chat_model::{MessageId, Request, UserId, ascending_messages, ascending_users};

/// The request with its lists ascending, once each, as its event keeps them. It takes no memory.
pub fn in_order(request: Request) -> Request
    ensures { result ≡ in_order request }
{
    match request {
        Request::AddGroup { name, members } => Request::AddGroup {
            name,
            members: ascending_users(members),
        },
        Request::Direct { sender, to, text } => Request::Direct {
            sender,
            to: ascending_users(to),
            text,
        },
        Request::Read { user, messages } => Request::Read {
            user,
            messages: ascending_messages(messages),
        },
        other => other,
    }
}

/// Whether the users ascend, and so stand once each.
fn is_ascending(users: &[UserId]) -> bool
    ensures { result ≡ is_ascending users.now }
{
    for i in 1..users.len() {
        if users[i].0 <= users[i - 1].0 {
            return false;
        }
    }
    true
}

/// Whether the messages ascend, and so stand once each.
fn do_messages_ascend(messages: &[MessageId]) -> bool
    ensures { result ≡ is_ascending_by (λ m. m.0) messages.now }
{
    for i in 1..messages.len() {
        if messages[i].0 <= messages[i - 1].0 {
            return false;
        }
    }
    true
}

/// Whether the lists of the request ascend, each item once. It takes no memory.
pub fn is_in_order(request: &Request) -> bool
    ensures { result ≡ is_in_order request.now }
{
    match request {
        Request::AddGroup { members, .. } => is_ascending(members.as_slice()),
        Request::Direct { to, .. } => is_ascending(to.as_slice()),
        Request::Read { messages, .. } => do_messages_ascend(messages.as_slice()),
        _ => true,
    }
}
