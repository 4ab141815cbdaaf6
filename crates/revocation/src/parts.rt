//! The messages that are revoked, in removals.
ghost use Rattle.std.specs.Prelude.{◌≡◌, IfOk};
ghost use Rattle.revocation.specs.Removals.{removals_of};

use chat_model::{List, MessageId, OutOfMemory, PushItem, UserId};
use std::alloc::Global;

/// How many messages a removal has at most.
const MOST: usize = 200;

/// The removals of these messages for a user, in order: parts of 200 messages, and a last part of 1 to 200. No messages
/// make no removal.
pub fn removals(
    alloc: Global,
    user: UserId,
    messages: &[MessageId],
) -> Result<List<PushItem>, OutOfMemory>
    ensures { IfOk result (λ items. items ≡ removals_of user messages.now) }
{
    let mut items = List::new(alloc);
    for k in 0..messages.len().div_ceil(MOST) {
        let from = k * MOST;
        let to = messages.len().min(from + MOST);
        let part = Vec::from_slice(alloc, &messages[from..to])?;
        items.push(PushItem::Remove {
            user,
            messages: List::from(part),
        })?;
    }
    Ok(items)
}
