//! The hub: client queues, presence, and what becomes of each deal.
#![tactic(auto)]

mod answer;
mod beats;
mod ending;
mod hub;
mod queue;
mod queues;
mod sender;
#[cfg(test)]
mod tests;
mod waiting;

pub use answer::{DealAnswer, HubFault, QueueItem, SweepAnswer};
pub use hub::Hub;
