//! What became of a notice.
use chat_model::Cause;

/// Where a notice stands: owed or not, still pending, handed over, or cancelled.
#[derive(Clone, Copy, Debug, PartialEq, Eq)]
pub enum Account {
    /// No event owes it.
    NotOwed,
    /// Its deal was not absorbed yet.
    Flight,
    /// Its deal was absorbed, and nothing has made it ready yet.
    Held,
    /// It waits for a turn.
    Ready,
    /// It is in one outbox entry.
    Handed,
    /// A read, a deletion or a switched-off setting cancelled it.
    Cancelled(Cause),
    /// A live queue cleared it before it was ready.
    LiveQueue,
}
