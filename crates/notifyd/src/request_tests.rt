//! Whole scripts with groups, with texts of all kinds, and with requests that break a rule.
use super::*;
use crate::run_tests::{NEVER, OPENING, expect_opened, expect_worked};
use std::alloc::AllocError;
use std::process::Abort;
use std::test::Fail;

/// Behind the opening, requests that are granted or refused.
pub const REQUESTS: [&str; 5] = [
    r#"send 3 1 "a" "x" => refused 10
send 1 9 "a" "x" => refused 11
member 4 1 on => refused 13
channel "TEAM" => refused 14
send 1 1 "a" "x" => sent 1 deal 0
"#,
    r#"sub 2 1 off => ok
send 2 1 "a" "x" => refused 16
send 1 1 "a" "  " => refused 17
user "a*b" => refused 25
user "" => refused 25
group "a*b" 1 => refused 25
channel "a*b" => refused 25
"#,
    r#"group "ops" - => group 1
group "OPS" 1 => refused 14
group "dev" 1,9 => refused 10
member 1 9 on => refused 10
"#,
    r#"# Names that may be shared.
user "ada" => user 3
group "team" 1 => group 1
channel "Ada" => channel 2
send 1 1 "" "x" => sent 1 deal 0
"#,
    r#"# Of two broken rules the smaller number is answered.
group "ops" - => group 1
group "OPS" 9 => refused 10
member 4 9 on => refused 10
sub 2 1 off => ok
send 2 1 "a" "  " => refused 16
"#,
];

#[test]
fn requests_are_granted_or_refused_by_their_rules(rt: HostRuntime) -> Result<(), Fail> {
    for rows in REQUESTS {
        expect_opened(&rt, rows)?;
    }
    Ok(())
}

/// Behind the opening, texts that mention Ben or nobody.
pub const NOTICES: [&str; 4] = [
    r#"# A group of the sender alone.
group "ops" 2,2 => group 1
member 1 1 on => ok
member 1 2 off => ok
send 1 1 "a" "@*OPS* x" => sent 1 deal 0
deal => dealt 0 -
absorb => absorbed dealt 0
audit => audit flight=0 held=0 ready=0 handed=0 read=0 deleted=0 off=0 live=0 entries=0 waiting=0 written=0
"#,
    r#"group "ops" 2,1 => group 1
send 1 1 "lunch" "ask @*Ops*" => sent 1 deal 0
deal => dealt 0 2=idle
absorb => absorbed dealt 0
audit => audit flight=0 held=0 ready=2 handed=0 read=0 deleted=0 off=0 live=0 entries=0 waiting=0 written=0
at 219
mail => not due 220
at 220
mail => mailed 2 entries=1 dropped=0
mail => not due -
"#,
    r#"# All of a channel, by each of its words, once for each way.
send 1 1 "a" "@**all** @**everyone** @**topic**" => sent 1 deal 0
deal => dealt 0 2=idle
absorb => absorbed dealt 0
audit => audit flight=0 held=0 ready=2 handed=0 read=0 deleted=0 off=0 live=0 entries=0 waiting=0 written=0
"#,
    r#"# Marks and line feeds in a text.
send 1 1 "a" "one `|` two\n_three_ > four ~" => sent 1 deal 0
deal => dealt 0 -
absorb => absorbed dealt 0
send 1 1 "a" "`@**Ben**` @_**Ben**\n> @**Ben**" => sent 2 deal 1
deal => dealt 1 -
absorb => absorbed dealt 1
audit => audit flight=0 held=0 ready=0 handed=0 read=0 deleted=0 off=0 live=0 entries=0 waiting=0 written=0
send 1 1 "a" "> no\n@**Ben|2**" => sent 3 deal 2
deal => dealt 2 2=idle
absorb => absorbed dealt 2
audit => audit flight=0 held=0 ready=2 handed=0 read=0 deleted=0 off=0 live=0 entries=0 waiting=0 written=0
"#,
];

#[test]
fn notices_come_by_name_by_group_and_by_wildcards(rt: HostRuntime) -> Result<(), Fail> {
    for rows in NOTICES {
        expect_opened(&rt, rows)?;
    }
    Ok(())
}

// A row, of which each piece is repeated so often.
fn push_written(worked: &mut String, row: &[(&str, usize)]) -> Result<(), AllocError> {
    for (text, count) in row {
        for _ in 0..*count {
            worked.push_str(text)?;
        }
    }
    worked.push_str("\n")
}

// Plays the opening and rows whose pieces are repeated so often.
fn expect_repeated<R: Abort + AllocGlobal>(rt: &R, rows: &[&[(&str, usize)]]) -> Result<(), Fail> {
    let mut worked = String::from_str(rt.alloc(), OPENING)?;
    for row in rows {
        push_written(&mut worked, row)?;
    }
    expect_worked(rt, worked.as_str(), 4_096, &NEVER, 0)
}

// Lengths are counted in characters, and lists with their repeats.
#[test]
fn names_texts_and_lists_have_their_limits(rt: HostRuntime) -> Result<(), Fail> {
    for character in ["x", "é"] {
        expect_repeated(
            &rt,
            &[
                &[("user \"", 1), (character, 101), ("\" => refused 24", 1)],
                &[("user \"", 1), (character, 100), ("\" => user 3", 1)],
                &[("group \"", 1), (character, 101), ("\" 1 => refused 24", 1)],
                &[("channel \"", 1), (character, 101), ("\" => refused 24", 1)],
                &[
                    ("send 1 1 \"", 1),
                    (character, 61),
                    ("\" \"x\" => refused 19", 1),
                ],
                &[
                    ("send 1 1 \"", 1),
                    (character, 60),
                    ("\" \"x\" => sent 1 deal 0", 1),
                ],
                &[
                    ("send 1 1 \"a\" \"", 1),
                    (character, 10_001),
                    ("\" => refused 18", 1),
                ],
                &[
                    ("send 1 1 \"a\" \"", 1),
                    (character, 10_000),
                    ("\" => sent 2 deal 1", 1),
                ],
                &[
                    ("dm 1 2 \"", 1),
                    (character, 10_001),
                    ("\" => refused 18", 1),
                ],
                &[
                    ("policy 1 1 \"", 1),
                    (character, 61),
                    ("\" muted => refused 19", 1),
                ],
                &[("policy 1 1 \"", 1), (character, 60), ("\" muted => ok", 1)],
            ],
        )?;
    }
    expect_repeated(
        &rt,
        &[
            &[("group \"ops\" 1", 1), (",1", 9_999), (" => group 1", 1)],
            &[
                ("group \"dev\" 1", 1),
                (",1", 10_000),
                (" => refused 23 limit 10000", 1),
            ],
            &[
                ("group \"OPS\" 1", 1),
                (",1", 10_000),
                (" => refused 14", 1),
            ],
            &[("dm 1 2", 1), (",2", 9_999), (" \"x\" => sent 1 deal 0", 1)],
            &[
                ("dm 1 2", 1),
                (",2", 10_000),
                (" \"x\" => refused 23 limit 10000", 1),
            ],
            &[("read 2 1", 1), (",1", 9_999), (" => ok", 1)],
            &[
                ("read 2 1", 1),
                (",1", 10_000),
                (" => refused 23 limit 10000", 1),
            ],
            &[("read 2 9", 1), (",9", 10_000), (" => refused 12", 1)],
            &[
                ("send 1 1 \"a\" \"", 1),
                (" ", 10_001),
                ("\" => refused 17", 1),
            ],
            &[("user \"", 1), ("*", 101), ("\" => refused 24", 1)],
        ],
    )
}
