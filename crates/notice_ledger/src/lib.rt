//! What the journal means: the definitions that every table, answer and outbox entry is held to, and the rules of
//! a request that need no journal.
//!
//! The definitions are in this crate's specifications, where contracts of the crates above cite them. Each is a
//! function of the journal alone, and knows no table and no index.
#![tactic(auto)]

mod accounts;
mod bars;
mod destination;
mod due;
mod facts;
mod kept;
mod laws;
mod messages;
mod order;
mod outbox;
mod owed;
#[cfg(test)]
mod push_tests;
mod pushes;
#[cfg(test)]
mod read_tests;
mod readiness;
mod refused;
mod revocations;
mod rules;
mod settings;
mod slow;
#[cfg(test)]
mod slow_tests;
#[cfg(test)]
mod tests;
mod turns;
mod values;

pub use accounts::Account;
pub use destination::Destination;
pub use laws::{refusal_is_least, rows_are_listed, rows_ascend, rows_conserve, rules_ascend};
pub use order::{in_order, is_in_order};
pub use rules::{is_bad_name, is_bad_period, is_blank, is_longer_than};
pub use slow::{account, audit};
