//! What waits to be pushed, which pushes are active, and what becomes of a push at its turn.
#![tactic(auto)]

mod judging;
mod queue;
#[cfg(test)]
mod tests;

pub use judging::{Judged, judge};
pub use queue::PushQueue;
