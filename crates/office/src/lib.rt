//! The office: the journal, what is kept of it, and the calls that add an event.
#![tactic(auto)]

#[cfg(test)]
mod absorb_tests;
mod answer;
mod difference;
mod load;
mod office;
mod replay;
#[cfg(test)]
mod start_tests;
#[cfg(test)]
mod test_team;
#[cfg(test)]
mod tests;

pub use answer::{Absorbed, AskFault, MailAnswer, PushAnswer, StartFault, StepFault};
pub use load::kept_journal;
pub use office::Office;
