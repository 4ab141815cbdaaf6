//! The tables that follow from the journal: what a look-up reads in them, and how an event changes them.
//!
//! The tables stand for a list of events where they hold what its lawful events leave. What each call answers is said
//! for every list of events for which they stand, by the definitions of `notice_ledger`. An event is first prepared,
//! which may want memory and changes nothing; then room is reserved, which may want memory and changes no contents;
//! then it is applied, which cannot fail.
#![tactic(auto)]

mod apply;
mod audit;
mod bars;
mod deals;
mod entries;
mod facts;
mod lawful;
mod mails;
mod notices;
mod preferences;
mod prepared;
mod pushes;
mod readiness;
mod reads;
mod receipts;
mod refusal;
mod removals;
mod rows;
mod sets;
mod tables;
mod topic_key;
mod user_set;
mod waiting;

pub use mail_batches::DueUser;
pub use prepared::Prepared;
pub use pushes::PushVerdict;
pub use tables::Tables;
