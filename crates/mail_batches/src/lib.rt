//! Mails that wait until they are due, and how they are grouped into entries.
//!
//! How entries are grouped is defined in this crate's specifications, over lists alone.
#![tactic(auto)]

mod batches;
mod by_user;
mod conversation;
mod grouping;
#[cfg(test)]
mod tests;

pub use batches::{Batches, DueUser};
pub use grouping::{ReadyItem, entries};
