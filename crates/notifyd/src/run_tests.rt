//! Whole scripts over devices in memory. A worked script is written as the rules write it: each line with its answer
//! behind ` => `, and without one where the line has none.
ghost use Rattle.std.specs.Prelude.{ℕ, ◌≤◌};

use super::*;
use chat_model::List;
use keeper::MemoryKeeper;
use std::alloc::{AllocError, Global};
use std::process::Abort;
use std::test::Fail;

/// What most worked scripts begin with.
pub const OPENING: &str = r#"user "Ada" => user 1
user "Ben" => user 2
channel "team" => channel 1
sub 1 1 on => ok
sub 2 1 on => ok
at 100
"#;

// The numbers of the calls at which each device fails.
#[derive(Clone, Copy)]
pub struct Failing<'a> {
    pub source: &'a [u64],
    pub sink: &'a [u64],
    pub keeper: &'a [u64],
}

pub const NEVER: Failing<'static> = Failing {
    source: &[],
    sink: &[],
    keeper: &[],
};

fn list_of(alloc: Global, numbers: &[u64]) -> Result<List<u64>, AllocError> {
    Ok(List::from(Vec::from_slice(alloc, numbers)?))
}

/// Runs a command over a keeper on the bytes in pieces of so many, compares what is written and the status, and gives the
/// keeper back.
pub fn expect_over<R: Abort + AllocGlobal>(
    rt: &R,
    command: &str,
    keeper: MemoryKeeper,
    bytes: List<u8>,
    piece: usize,
    failing: &Failing<'_>,
    written: &[u8],
    status: u8,
) -> Result<MemoryKeeper, Fail>
    requires { 1 ≤ piece }
{
    let alloc = rt.alloc();
    let words = vec![in alloc; Text::from_str(alloc, command)?]?;
    let mut source = MemorySource::new(bytes, piece, list_of(alloc, failing.source)?);
    let mut sink = MemorySink::new(alloc, 65_536, list_of(alloc, failing.sink)?)?;
    let mut spool = MemorySpool::new(alloc, List::new(alloc));
    let ran = run(
        alloc,
        words.as_slice(),
        &mut source,
        &mut sink,
        keeper,
        &mut spool,
    );
    assert_eq!(rt; sink.bytes(), written);
    assert_eq!(rt; ran.status, status);
    Ok(ran.keeper)
}

/// Runs `play` over an empty keeper.
pub fn expect_run<R: Abort + AllocGlobal>(
    rt: &R,
    bytes: List<u8>,
    piece: usize,
    failing: &Failing<'_>,
    written: &[u8],
    status: u8,
) -> Result<(), Fail>
    requires { 1 ≤ piece }
{
    let keeper = MemoryKeeper::new(rt.alloc(), list_of(rt.alloc(), failing.keeper)?);
    expect_over(rt, "play", keeper, bytes, piece, failing, written, status)?;
    Ok(())
}

/// The lines of a worked script, and their answers, each with a line feed.
pub fn lines_and_answers(alloc: Global, worked: &str) -> Result<(Vec<u8>, Vec<u8>), AllocError> {
    let mut lines = Vec::new(alloc);
    let mut answers = Vec::new(alloc);
    for row in worked.lines() {
        match row.split_once(" => ") {
            Some((line, answer)) => {
                push_line(&mut lines, line)?;
                push_line(&mut answers, answer)?;
            }
            None => push_line(&mut lines, row)?,
        }
    }
    Ok((lines, answers))
}

fn push_line(bytes: &mut Vec<u8>, line: &str) -> Result<(), AllocError> {
    bytes.extend_from_slice(line.as_bytes())?;
    bytes.extend_from_slice(b"\n")
}

/// Plays a worked script in pieces of so many bytes, and compares all answers and the status.
pub fn expect_worked<R: Abort + AllocGlobal>(
    rt: &R,
    worked: &str,
    piece: usize,
    failing: &Failing<'_>,
    status: u8,
) -> Result<(), Fail>
    requires { 1 ≤ piece }
{
    let (lines, answers) = lines_and_answers(rt.alloc(), worked)?;
    expect_run(
        rt,
        List::from(lines),
        piece,
        failing,
        answers.as_slice(),
        status,
    )
}

/// Plays the opening and the rows of a worked script behind it, to status 0.
pub fn expect_opened<R: Abort + AllocGlobal>(rt: &R, rows: &str) -> Result<(), Fail> {
    let worked = format!(in rt.alloc(); "{OPENING}{rows}")?;
    expect_worked(rt, worked.as_str(), 4_096, &NEVER, 0)
}

/// Behind the opening, Ada mentions Ben, who is mailed once the period is over.
pub const IDLE: &str = r#"# Ada mentions Ben.
send 1 1 "lunch" "hi @**Ben**" => sent 1 deal 0
deal => dealt 0 2=idle
absorb => absorbed dealt 0
audit => audit flight=0 held=0 ready=2 handed=0 read=0 deleted=0 off=0 live=0 entries=0 waiting=0 written=0
at 219
mail => not due 220
at 220
mail => mailed 2 entries=1 dropped=0
mail => not due -
audit => audit flight=0 held=0 ready=1 handed=1 read=0 deleted=0 off=0 live=0 entries=1 waiting=0 written=0
"#;

#[test]
fn an_idle_user_is_mailed_after_the_period(rt: HostRuntime) -> Result<(), Fail> {
    let worked = format!(in rt.alloc(); "{OPENING}{IDLE}")?;
    for piece in [1, 4_096] {
        assert!(rt; 1 <= piece);
        expect_worked(&rt, worked.as_str(), piece, &NEVER, 0)?;
    }
    Ok(())
}

// The start makes the first two calls of the keeper, and the opening five more.
#[test]
fn what_fails_is_answered_and_may_end_the_play(rt: HostRuntime) -> Result<(), Fail> {
    let opened = r#"send 1 1 "lunch" "hi @**Ben**" => fault keeper
send 1 1 "lunch" "hi @**Ben**" => sent 1 deal 0
"#;
    let worked = format!(in rt.alloc(); "{OPENING}{opened}")?;
    let keeper = Failing {
        keeper: &[8],
        ..NEVER
    };
    expect_worked(&rt, worked.as_str(), 4_096, &keeper, 5)?;
    let start = Failing {
        keeper: &[1],
        ..NEVER
    };
    expect_worked(&rt, r#"user "Ada" => fault keeper"#, 4_096, &start, 5)?;
    let source = Failing {
        source: &[2],
        ..NEVER
    };
    let worked = r#"user "Ada" => user 1
user "Ben" => fault source"#;
    expect_worked(&rt, worked, 12, &source, 3)?;
    let sink = Failing {
        sink: &[2],
        ..NEVER
    };
    let worked = r#"user "Ada" => user 1
user "Ben""#;
    expect_worked(&rt, worked, 4_096, &sink, 4)
}

/// Behind the opening, an outcome whose absorption fails, as the keeper's ninth call does: the start makes the first two,
/// the opening five more, and the send one.
pub const ABSORBED_NEXT: &str = r#"send 1 1 "lunch" "hi @**Ben**" => sent 1 deal 0
deal => dealt 0 2=idle
absorb => fault keeper
audit => audit flight=2 held=0 ready=0 handed=0 read=0 deleted=0 off=0 live=0 entries=0 waiting=0 written=0
at 130
absorb => absorbed dealt 0
absorb => nothing waiting
mail => not due 250
"#;

#[test]
fn an_outcome_whose_absorption_failed_is_absorbed_next(rt: HostRuntime) -> Result<(), Fail> {
    let worked = format!(in rt.alloc(); "{OPENING}{ABSORBED_NEXT}")?;
    let keeper = Failing {
        keeper: &[9],
        ..NEVER
    };
    expect_worked(&rt, worked.as_str(), 4_096, &keeper, 5)
}

#[test]
fn scripts_end_with_their_status(rt: HostRuntime) -> Result<(), Fail> {
    let rows = [
        ("", 0),
        (
            "audit => audit flight=0 held=0 ready=0 handed=0 read=0 deleted=0 off=0 live=0 entries=0 waiting=0 written=0",
            0,
        ),
        (
            r#"user "Ada" => user 1
send 1 one "a" "x" => bad line 2 column 8
user "Ben""#,
            2,
        ),
        ("at => bad line 1 column 3", 2),
        ("hello => bad line 1 column 1", 2),
        (r#"user "Ada => bad line 1 column 6"#, 2),
    ];
    for (worked, status) in rows {
        expect_worked(&rt, worked, 4_096, &NEVER, status)?;
    }
    Ok(())
}

#[test]
fn a_last_line_needs_no_line_feed(rt: HostRuntime) -> Result<(), Fail> {
    let bytes = List::from(Vec::from_slice(rt.alloc(), b"user \"Ada\"")?);
    expect_run(&rt, bytes, 4_096, &NEVER, b"user 1\n", 0)
}

#[test]
fn other_words_are_no_command(rt: HostRuntime) -> Result<(), Fail> {
    let alloc = rt.alloc();
    let usage = "usage: notifyd play [--config PATH] | audit [--config PATH] | sample N SEED\n";
    let written = usage.as_bytes();
    let keeper = MemoryKeeper::new(alloc, List::new(alloc));
    expect_over(
        &rt,
        "serve",
        keeper,
        List::new(alloc),
        1,
        &NEVER,
        written,
        1,
    )?;
    Ok(())
}

// A comment of so many bytes, without a line feed.
fn push_comment(bytes: &mut Vec<u8>, count: usize) -> Result<(), AllocError> {
    for _ in 0..count {
        bytes.push(b'#')?;
    }
    Ok(())
}

#[test]
fn a_line_may_cross_pieces_and_have_131072_bytes(rt: HostRuntime) -> Result<(), Fail> {
    for count in [4_090, 131_072] {
        let mut script = Vec::new(rt.alloc());
        push_comment(&mut script, count)?;
        script.extend_from_slice(b"\nuser \"Ada\"\n")?;
        expect_run(&rt, List::from(script), 4_096, &NEVER, b"user 1\n", 0)?;
    }
    let mut too_long = Vec::new(rt.alloc());
    push_comment(&mut too_long, 131_073)?;
    let written = b"bad line 1 column 131073\n";
    expect_run(&rt, List::from(too_long), 4_096, &NEVER, written, 2)
}

// The most bytes that a script may have: comments, and a request without its line feed as the last ten.
fn longest_script(alloc: Global) -> Result<Vec<u8>, AllocError> {
    let mut script = Vec::with_capacity(alloc, 67_108_865)?;
    for _ in 0..1_023 {
        push_comment(&mut script, 65_535)?;
        script.push(b'\n')?;
    }
    push_comment(&mut script, 65_525)?;
    script.extend_from_slice(b"\nuser \"Ada\"")?;
    Ok(script)
}

#[test]
fn a_script_of_67108864_bytes_is_played_to_its_end(rt: HostRuntime) -> Result<(), Fail> {
    let script = longest_script(rt.alloc())?;
    assert_eq!(rt; script.len(), 67_108_864);
    expect_run(&rt, List::from(script), 4_096, &NEVER, b"user 1\n", 0)
}

#[test]
fn a_script_of_67108865_bytes_is_too_long(rt: HostRuntime) -> Result<(), Fail> {
    let mut script = longest_script(rt.alloc())?;
    script.push(b'\n')?;
    expect_run(
        &rt,
        List::from(script),
        4_096,
        &NEVER,
        b"script too long\n",
        9,
    )
}
