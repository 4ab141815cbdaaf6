//! The spans of a text.
ghost use Rattle.std.specs.Prelude.{◌≡◌, ◌==◌, ◌+◌, ◌^◌, ◌<◌, ◌≤◌, ◌++◌, true, false, length, All, IfOk, OnOk};
ghost use Rattle.std.specs.List.{position_or_len};
ghost use Rattle.mention_scan.specs.Division.{AreSpansOf, LiesWithin, parts_of_line, spans_from, spans_of};

use crate::Span;
use crate::fence::Fence;
use crate::line::{Manner, scan_line};
use chat_model::{List, OutOfMemory};
use std::alloc::Global;

/// The spans of a text, in order, by one reading from left to right, line by line.
///
/// Two things look ahead. An opening looks through its Inner up to the next star, and each later opening ends with that
/// star or one behind it. A run of backquotes looks for the run that ends it: what it finds is passed over with it, and
/// where it finds none, that took the time of the line. But then it is a bare run, and no other bare run of its line is as
/// long. So the time grows no faster than the text's length times the number of different lengths of its runs.
pub fn scan(alloc: Global, text: &str) -> Result<List<Span>, OutOfMemory>
    ensures divided { IfOk result (λ s. AreSpansOf text.now s) }
    ensures spans { IfOk result (λ s. s ≡ spans_of text.now) }
    ensures within { IfOk result (λ s. All (LiesWithin text.now) s) }
{
    let mut found = List::new(alloc);
    let mut rest = text;
    let mut start = 0;
    let mut current = None;
    'lines: loop {
        let length = line_length(rest.as_bytes());
        let line = &rest[..length];
        scan_in(
            Manner::of(current, line.as_bytes()),
            line,
            start,
            &mut found,
        )?;
        if length == rest.len() {
            return Ok(found);
        }
        current = Fence::behind(current, line.as_bytes());
        rest = &rest[length + 1..];
        start += length + 1;
    }
}

/// Adds the spans of a line that begins at this byte of the text and is read in this manner.
fn scan_in(
    manner: Manner,
    line: &str,
    start: usize,
    found: &mut List<Span>,
) -> Result<(), OutOfMemory>
    requires fits { start + length line.now < 2 ^ 64 }
    ensures fenced { manner ≡ Manner.Fenced → OnOk result (found.new ≡ found.old) }
    ensures quoted { manner ≡ Manner.Quoted → OnOk result (found.new ≡ found.old ++ spans_from start (parts_of_line true line.now)) }
    ensures plain { manner ≡ Manner.Plain → OnOk result (found.new ≡ found.old ++ spans_from start (parts_of_line false line.now)) }
{
    match manner {
        Manner::Fenced => Ok(()),
        Manner::Quoted => scan_line(line, start, true, found),
        Manner::Plain => scan_line(line, start, false, found),
    }
}

/// How many bytes stand before the first line feed.
fn line_length(bytes: &[u8]) -> usize
    ensures value { result ≡ position_or_len (λ b. b == 10) bytes.now }
    ensures bound { result ≤ length bytes.now }
{
    for (i, b) in bytes.iter().enumerate() {
        if *b == b'\n' {
            return i;
        }
    }
    bytes.len()
}
