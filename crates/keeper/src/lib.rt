//! What is kept beyond a run: the journal, and the rows that follow from it.
#![tactic(auto)]

mod keeper;
mod memory;
#[cfg(test)]
mod tests;

pub use keeper::{KeepFault, Keeper, Kept};
pub use memory::MemoryKeeper;
