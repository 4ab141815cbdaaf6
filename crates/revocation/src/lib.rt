//! Removals of pushes that were handed over.
//!
//! How a list is divided into parts is defined in this crate's specifications, over lists alone.
#![tactic(auto)]

mod parts;
#[cfg(test)]
mod tests;

pub use parts::removals;
