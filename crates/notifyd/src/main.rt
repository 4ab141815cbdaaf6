//! The program `notifyd`: it plays a script of lines over an office, and writes the answers.
#![tactic(auto)]

mod command;
mod ending;
mod field;
mod fields;
mod hub_kinds;
mod hub_lines;
mod hub_words;
mod keys;
mod kinds;
mod last_line;
mod line;
mod line_buffer;
mod listed;
mod pieces;
mod play;
mod preference_kinds;
mod push_words;
mod quoted;
mod reply;
mod script;
mod sink;
mod source;
mod spool;
mod standard;
mod status;
mod step_kinds;
mod under_way;
mod words;

use chat_model::{OutOfMemory, Text};
pub use command::{Ran, run};
pub use last_line::{LastLine, write_last_line};
pub use line::{Column, Line, LineFault, MAX_LINE, read_line};
pub use reply::{Reply, print_reply, write_reply};
pub use sink::{MemorySink, Sink, write_all};
pub use source::{MemorySource, Source};
pub use spool::{MemorySpool, PutFault, Spool};
pub use standard::{StandardSink, StandardSource, run_over};
use std::process::ExitCode;
use std::{env, io};

#[cfg(test)]
mod batch_tests;
#[cfg(test)]
mod deletion_tests;
#[cfg(test)]
mod group_tests;
#[cfg(test)]
mod hook_tests;
#[cfg(test)]
mod hub_tests;
#[cfg(test)]
mod kept_tests;
#[cfg(test)]
mod listed_tests;
#[cfg(test)]
mod period_tests;
#[cfg(test)]
mod play_tests;
#[cfg(test)]
mod preference_tests;
#[cfg(test)]
mod push_tests;
#[cfg(test)]
mod read_tests;
#[cfg(test)]
mod removal_tests;
#[cfg(test)]
mod request_tests;
#[cfg(test)]
mod run_tests;
#[cfg(test)]
mod standard_tests;
#[cfg(test)]
mod tests;

// The words of the command line. Where one is no text they are no command, and stand here as none at all.
fn words_of(rt: &HostRuntime) -> Result<Vec<Text>, OutOfMemory> {
    let alloc = rt.alloc();
    let mut words = Vec::new(alloc);
    match env::args(rt) {
        Ok(args) => {
            for word in args.skip(1) {
                words.push(Text::from(word))?;
            }
            Ok(words)
        }
        Err(error) if error.kind() == io::ErrorKind::OutOfMemory => Err(OutOfMemory),
        Err(_) => Ok(words),
    }
}

fn main(rt: HostRuntime) -> ExitCode {
    match words_of(&rt) {
        Ok(words) => run_over(rt.alloc(), words.as_slice(), rt.reader(), io::writer(&rt)),
        Err(OutOfMemory) => {
            let mut out = StandardSink::new(io::writer(&rt));
            match write_reply(&mut out, &Reply::OutOfMemory) {
                Ok(()) => ExitCode::from(7),
                Err(_) => ExitCode::from(4),
            }
        }
    }
}
