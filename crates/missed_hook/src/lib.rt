//! The missed-message hook: what the hub says of deals, on its way to the office.
//!
//! Which deals are outstanding for a user, and which lists of outcomes are orderly, is defined in this crate's
//! specifications, over lists of outcomes alone.
#![tactic(auto)]

mod pipe;
mod post;
mod take;
#[cfg(test)]
mod tests;

pub use pipe::PlainPipe;
pub use post::{Post, front_is_orderly};
pub use take::Take;
