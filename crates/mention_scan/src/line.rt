//! The lines of a text, and the spans of one.
ghost use Rattle.std.specs.Prelude.{◌≡◌, ◌+◌, ◌^◌, ◌<◌, ◌≤◌, ◌&&◌, ◌++◌, not, length, drop, OnOk, if◌then◌else◌};
ghost use Rattle.std.specs.Option.{option_map, option_map_or};
ghost use Rattle.mention_scan.specs.Fences.{begins_fence, begins_quoted, is_run_alone};
ghost use Rattle.mention_scan.specs.Division.{bytes_of, form_with, may_begin, parts_of_line, run_length, run_part, span_form, spans_from};

use crate::Span;
use crate::fence::Fence;
use crate::form::Form;
use crate::run::{nearest_run, run_of};
use chat_model::{List, OutOfMemory};

/// How a line is read: as one of a fence that holds no span, as a quoted line, or as one whose spans may be loud.
#[derive(Clone, Copy)]
pub enum Manner {
    Fenced,
    Quoted,
    Plain,
}

impl Manner {
    /// How a line is read where this fence is open, or none.
    pub fn of(current: Option<Fence>, line: &[u8]) -> Manner
        ensures { result ≡ option_map_or
            (λ fence. if fence.quotes && not (is_run_alone fence.character fence.size line.now) then Manner.Quoted else Manner.Fenced) current
            (if begins_fence line.now then Manner.Fenced else (if begins_quoted line.now then Manner.Quoted else Manner.Plain)) }
    {
        match current {
            None => Manner::outside(line),
            Some(fence) => {
                if fence.quotes && !fence.closes(line) {
                    Manner::Quoted
                } else {
                    Manner::Fenced
                }
            }
        }
    }

    /// How a line outside fences is read.
    fn outside(line: &[u8]) -> Manner
        ensures { result ≡ (if begins_fence line.now then Manner.Fenced else (if begins_quoted line.now then Manner.Quoted else Manner.Plain)) }
    {
        if Fence::opened(line).is_some() {
            Manner::Fenced
        } else if line.starts_with(b">") {
            Manner::Quoted
        } else {
            Manner::Plain
        }
    }
}

/// Adds the spans of a line that begins at this byte of the text, by one reading from left to right.
pub fn scan_line(
    line: &str,
    start: usize,
    quoted: bool,
    found: &mut List<Span>,
) -> Result<(), OutOfMemory>
    requires fits { start + length line.now < 2 ^ 64 }
    ensures { OnOk result (found.new ≡ found.old ++ spans_from start (parts_of_line quoted line.now)) }
{
    let mut rest = line;
    let mut place = start;
    let mut before = None;
    'reading: loop {
        let run = run_of(b'`', rest.as_bytes());
        if run > 0 {
            let length = run_part_length(run, rest.as_bytes());
            rest = &rest[length..];
            place += length;
            before = Some('`');
        } else if let Some(form) = span_form(before, rest.as_bytes()) {
            let length = form.length(rest.as_bytes());
            let end = place + length;
            found.push(Span {
                start: place,
                end,
                silent: form.is_silent_in(quoted),
                group: form.group,
            })?;
            rest = &rest[length..];
            place = end;
            before = Some('*');
        } else {
            let mut characters = rest.chars();
            let Some(c) = characters.next() else {
                return Ok(());
            };
            rest = characters.as_str();
            place += c.len_utf8();
            before = Some(c);
        }
    }
}

/// How many bytes the code part or the bare run has that begins with this run.
fn run_part_length(run: usize, bytes: &[u8]) -> usize
    requires begins { run ≡ run_length bytes.now }
    requires within { run ≤ length bytes.now }
    requires some { 0 < run }
    ensures value { result ≡ length (bytes_of (run_part run (drop run bytes.now))) }
    ensures bound { result ≤ length bytes.now }
{
    match nearest_run(run, &bytes[run..]) {
        Some(inside) => run + inside + run,
        None => run,
    }
}

/// The form of the span that begins these bytes, behind this character.
fn span_form(before: Option<char>, bytes: &[u8]) -> Option<Form>
    ensures { option_map (λ form. form_with form.silent form.group) result ≡ span_form before bytes.now }
{
    if lets_begin(before) {
        Form::of(bytes)
    } else {
        None
    }
}

/// Whether a span may begin behind this character.
fn lets_begin(before: Option<char>) -> bool
    ensures { result ≡ may_begin before }
{
    match before {
        None => true,
        Some(c) => c.is_whitespace() || matches!(c, '\'' | '"' | '(' | '{' | '[' | '/' | '<'),
    }
}
