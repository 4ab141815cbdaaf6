//! Where a text mentions someone, and whom it mentions.
#![tactic(auto)]

mod fence;
mod form;
mod inner;
pub mod laws;
mod line;
mod mentions;
mod run;
mod span;
mod spans;

pub use mentions::resolve;
pub use span::Span;
pub use spans::scan;

#[cfg(test)]
mod tests;
