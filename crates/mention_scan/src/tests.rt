use crate::{Span, resolve, scan};
use chat_model::{GroupId, GroupName, Text, UserId, UserName};
use std::alloc::Global;
use std::process::Abort;
use std::test::Fail;

/// A text, its spans by start, end, silent and group, the users and the groups that it mentions, and whether it mentions
/// a channel and a topic.
type Row = (
    &'static str,
    &'static [(usize, usize, bool, bool)],
    &'static [u64],
    &'static [u64],
    (bool, bool),
);

const NONE: (bool, bool) = (false, false);

/// The table of what texts mention.
const ROWS: [Row; 17] = [
    ("", &[], &[], &[], NONE),
    ("@**Ada**", &[(0, 8, false, false)], &[1], &[], NONE),
    ("x@**Ada**", &[], &[], &[], NONE),
    ("(@**ADA**)", &[(1, 9, false, false)], &[1], &[], NONE),
    ("@**Ben**", &[(0, 8, false, false)], &[], &[], NONE),
    ("@**Ben|3**", &[(0, 10, false, false)], &[3], &[], NONE),
    ("@**|2**", &[(0, 7, false, false)], &[2], &[], NONE),
    ("@**Ada|2**", &[(0, 10, false, false)], &[], &[], NONE),
    ("@_**Ada**", &[(0, 9, true, false)], &[], &[], NONE),
    ("@*OPS*", &[(0, 6, false, true)], &[], &[1], NONE),
    ("`@**Ada**`", &[], &[], &[], NONE),
    ("` @**Ada**", &[(2, 10, false, false)], &[1], &[], NONE),
    ("> @**Ada**", &[(2, 10, true, false)], &[], &[], NONE),
    (
        "@**all** @**topic** @**All**",
        &[
            (0, 8, false, false),
            (9, 19, false, false),
            (20, 28, false, false),
        ],
        &[],
        &[],
        (true, true),
    ),
    ("@****", &[], &[], &[], NONE),
    ("@**Ada**@**Ada**", &[(0, 8, false, false)], &[1], &[], NONE),
    (
        "~~~\n@**Ada**\n~~~\n@**Ada**",
        &[(17, 25, false, false)],
        &[1],
        &[],
        NONE,
    ),
];

/// Fences: how they open, what closes them, and what stands in them.
const FENCES: [Row; 21] = [
    // closed by a longer run, behind which spaces may stand
    (
        "```\n@**Ada**\n`````  \n@**Ada**",
        &[(21, 29, false, false)],
        &[1],
        &[],
        NONE,
    ),
    // a shorter run, and a run of the other character, don't close
    ("````\n```\n@**Ada**", &[], &[], &[], NONE),
    ("```\n~~~\n@**Ada**", &[], &[], &[], NONE),
    // nor does a run behind which a word stands
    ("```\n``` a\n@**Ada**", &[], &[], &[], NONE),
    // nor one before which spaces stand
    ("```\n  ```\n@**Ada**", &[], &[], &[], NONE),
    // closed by the end of the text
    ("```", &[], &[], &[], NONE),
    ("```\n@**Ada**\n\n@*ops*", &[], &[], &[], NONE),
    // two are no fence
    ("~~\n@**Ada**", &[(3, 11, false, false)], &[1], &[], NONE),
    // the lines that open and close hold no span
    ("~~~ @**Ada**\n~~~", &[], &[], &[], NONE),
    // a quote fence, with spaces round its word
    (
        "```  quote  \n@**Ada**\n```\n@**Ada**",
        &[(13, 21, true, false), (26, 34, false, false)],
        &[1],
        &[],
        NONE,
    ),
    // another word makes a code fence
    ("```quotes\n@**Ada**", &[], &[], &[], NONE),
    ("``` Quote\n@**Ada**", &[], &[], &[], NONE),
    // no further fence opens in a quote fence
    (
        "~~~quote\n```\n@**Ada**\n```\n~~~\n@**Ben|2**",
        &[(13, 21, true, false), (30, 40, false, false)],
        &[2],
        &[],
        NONE,
    ),
    // a carriage return stands at the end of its line: the word isn't `quote`, and the run doesn't close
    (
        "~~~quote\r\n@**Ada**\r\n~~~\r\n@**Ada**",
        &[],
        &[],
        &[],
        NONE,
    ),
    // a line that would open a fence doesn't close one
    (
        "~~~quote\n~~~quote\n@**Ada**",
        &[(18, 26, true, false)],
        &[],
        &[],
        NONE,
    ),
    // `>` in a fence changes nothing
    ("```\n> @**Ada**", &[], &[], &[], NONE),
    (
        "~~~quote\n> @**Ada**",
        &[(11, 19, true, false)],
        &[],
        &[],
        NONE,
    ),
    // an empty line of a fence closes nothing
    (
        "~~~quote\n\n@**Ada**",
        &[(10, 18, true, false)],
        &[],
        &[],
        NONE,
    ),
    // a line that begins with a space or `>` opens no fence
    (" ```\n@**Ada**", &[(5, 13, false, false)], &[1], &[], NONE),
    ("> ```\n@**Ada**", &[(6, 14, false, false)], &[1], &[], NONE),
    // a word may have a backquote
    ("```a`b\n@**Ada**", &[], &[], &[], NONE),
];

/// Code within a line, and what may stand before a span.
const LINES: [Row; 22] = [
    // a later run of exactly as many backquotes
    ("`` @**Ada** ` ``@*ops*", &[], &[], &[], NONE),
    (
        "`` @**Ada** ` @*ops*",
        &[(3, 11, false, false), (14, 20, false, true)],
        &[1],
        &[1],
        NONE,
    ),
    // a longer one doesn't end the code
    ("` @**Ada** ``", &[(2, 10, false, false)], &[1], &[], NONE),
    // the nearest one
    (
        "` ` @**Ada** ` `",
        &[(4, 12, false, false)],
        &[1],
        &[],
        NONE,
    ),
    // code doesn't cross a line
    ("` @**Ada**\n`", &[(2, 10, false, false)], &[1], &[], NONE),
    // a carriage return before a line feed is whitespace
    (
        "\r@**Ada**\r\n@**Ada**",
        &[(1, 9, false, false), (11, 19, false, false)],
        &[1],
        &[],
        NONE,
    ),
    // each of the characters that may stand before a span
    (
        "'@*ops* \"@*ops* (@*ops* {@*ops*",
        &[
            (1, 7, false, true),
            (9, 15, false, true),
            (17, 23, false, true),
            (25, 31, false, true),
        ],
        &[],
        &[1],
        NONE,
    ),
    (
        "[@*ops* /@*ops* <@*ops*",
        &[
            (1, 7, false, true),
            (9, 15, false, true),
            (17, 23, false, true),
        ],
        &[],
        &[1],
        NONE,
    ),
    // whitespace that isn't ASCII
    ("\u{a0}@**Ada**", &[(2, 10, false, false)], &[1], &[], NONE),
    (
        "\u{3000}@**Ada**",
        &[(3, 11, false, false)],
        &[1],
        &[],
        NONE,
    ),
    // none of those, nor a backquote that ends code or stands alone
    ("é@**Ada**", &[], &[], &[], NONE),
    ("`@**Ada**", &[], &[], &[], NONE),
    ("`a`@**Ada**", &[], &[], &[], NONE),
    (">@**Ada**", &[], &[], &[], NONE),
    // forms that don't fit
    ("@***Ada**", &[], &[], &[], NONE),
    ("@**Ada*", &[], &[], &[], NONE),
    ("@**A\nda**", &[], &[], &[], NONE),
    ("@*ops**", &[(0, 6, false, true)], &[], &[1], NONE),
    ("@**Ada***", &[(0, 8, false, false)], &[1], &[], NONE),
    ("@_*ops*", &[(0, 7, true, true)], &[], &[], NONE),
    ("> a\n@**Ada**", &[(4, 12, false, false)], &[1], &[], NONE),
    // a line that begins with a space isn't quoted
    (" > @**Ada**", &[(3, 11, false, false)], &[1], &[], NONE),
];

/// Whom an Inner mentions.
const INNERS: [Row; 13] = [
    ("@**|**", &[(0, 6, false, false)], &[], &[], NONE),
    ("@**Ada|**", &[(0, 9, false, false)], &[], &[], NONE),
    ("@**aDA|01**", &[(0, 11, false, false)], &[1], &[], NONE),
    (
        "@**|00000000000000000001**",
        &[(0, 26, false, false)],
        &[],
        &[],
        NONE,
    ),
    (
        "@**|0000000000000000001**",
        &[(0, 25, false, false)],
        &[1],
        &[],
        NONE,
    ),
    ("@**|9**", &[(0, 7, false, false)], &[], &[], NONE),
    ("@**all|1**", &[(0, 10, false, false)], &[], &[], NONE),
    ("@**`** `", &[(0, 6, false, false)], &[], &[], NONE),
    ("@**@**", &[(0, 6, false, false)], &[], &[], NONE),
    ("@**Ada|x**", &[(0, 10, false, false)], &[], &[], NONE),
    ("@**x|Ada|1**", &[(0, 12, false, false)], &[], &[], NONE),
    (
        "@**nobody** @*nobody*",
        &[(0, 11, false, false), (12, 21, false, true)],
        &[],
        &[],
        NONE,
    ),
    (
        "@**|3** @**Ben|2** @**Ada**",
        &[
            (0, 7, false, false),
            (8, 18, false, false),
            (19, 27, false, false),
        ],
        &[1, 2, 3],
        &[],
        NONE,
    ),
];

/// The words of the channel wildcard beside `all`, and wildcards that are silent.
const WILDCARDS: [Row; 5] = [
    (
        "@**everyone**",
        &[(0, 13, false, false)],
        &[],
        &[],
        (true, false),
    ),
    (
        "@**channel**",
        &[(0, 12, false, false)],
        &[],
        &[],
        (true, false),
    ),
    (
        "@**stream**",
        &[(0, 11, false, false)],
        &[],
        &[],
        (true, false),
    ),
    ("@_**all**", &[(0, 9, true, false)], &[], &[], NONE),
    ("> @**all**", &[(2, 10, true, false)], &[], &[], NONE),
];

/// How many characters the long text has, and how many backquotes its longest run.
const LONG_TEXT: usize = 10_000;

const LONGEST_RUN: usize = 139;

/// The name of user 7, a text that is one span, and whether it mentions the user and the channel.
const NAMED: [(&'static str, &'static str, bool, bool); 7] = [
    // a user may be named like a wildcard in other letters
    ("All", "@**All**", true, false),
    ("All", "@**all**", false, true),
    // names are compared without case in ASCII alone
    ("é", "@**é**", true, false),
    ("é", "@**É**", false, false),
    // the last `|` ends the name, which may have one itself
    ("A|da", "@**a|DA|7**", true, false),
    ("A|da", "@**A|7**", false, false),
    ("A|da", "@**A|da**", false, false),
];

#[test]
fn worked_texts(rt: HostRuntime) -> Result<(), Fail> {
    rows_hold(&rt, rt.alloc(), &ROWS)
}

#[test]
fn texts_with_fences(rt: HostRuntime) -> Result<(), Fail> {
    rows_hold(&rt, rt.alloc(), &FENCES)
}

#[test]
fn lines_with_code(rt: HostRuntime) -> Result<(), Fail> {
    rows_hold(&rt, rt.alloc(), &LINES)
}

#[test]
fn names_and_numbers(rt: HostRuntime) -> Result<(), Fail> {
    rows_hold(&rt, rt.alloc(), &INNERS)
}

#[test]
fn wildcards_by_each_word_and_silent_ones(rt: HostRuntime) -> Result<(), Fail> {
    rows_hold(&rt, rt.alloc(), &WILDCARDS)
}

#[test]
fn names_of_one_user(rt: HostRuntime) -> Result<(), Fail> {
    let alloc = rt.alloc();
    for (name, text, named, channel) in &NAMED {
        let users = [user(alloc, 7, name)?];
        let spans = scan(alloc, text)?;
        assert_eq!(rt; spans.as_slice().len(), 1, "the spans of {text:?}");
        assert_eq!(rt;
            spans.as_slice().first().copied(),
            Some(Span {
                start: 0,
                end: text.len(),
                silent: false,
                group: false,
            }),
            "the span of {text:?}"
        );
        let mentions = resolve(alloc, text, spans.as_slice(), &users, &[])?;
        assert_eq!(rt;
            mentions.users.as_slice().len(),
            usize::from(*named),
            "the users in {text:?}"
        );
        assert_eq!(rt;
            mentions.channel_wildcard,
            *channel,
            "the channel in {text:?}"
        );
    }
    Ok(())
}

fn user(alloc: Global, id: u64, name: &str) -> Result<UserName, Fail> {
    Ok(UserName {
        id: UserId(id),
        name: Text::from_str(alloc, name)?,
    })
}

fn group(alloc: Global, id: u64, name: &str) -> Result<GroupName, Fail> {
    Ok(GroupName {
        id: GroupId(id),
        name: Text::from_str(alloc, name)?,
    })
}

#[test]
fn mentions_ascend_once_each_whatever_is_handed_in(rt: HostRuntime) -> Result<(), Fail> {
    let alloc = rt.alloc();
    let users = [
        user(alloc, 2, "Ben")?,
        user(alloc, 1, "Ada")?,
        user(alloc, 2, "Ben")?,
    ];
    let groups = [
        group(alloc, 5, "ops")?,
        group(alloc, 3, "dev")?,
        group(alloc, 5, "ops")?,
    ];
    let text = "@**|2** @**Ada** @*ops* @*dev*";
    let spans = scan(alloc, text)?;
    let mentions = resolve(alloc, text, spans.as_slice(), &users, &groups)?;
    assert_eq!(rt;
        mentions.users.as_slice(),
        [UserId(1), UserId(2)].as_slice()
    );
    assert_eq!(rt;
        mentions.groups.as_slice(),
        [GroupId(3), GroupId(5)].as_slice()
    );
    Ok(())
}

/// Runs of 1, 2, 3, .. backquotes, each with an `@` behind it, and then `@` alone: 10,000 characters.
fn growing_runs(alloc: Global) -> Result<String, Fail> {
    let mut text = String::new(alloc);
    for length in 1..=LONGEST_RUN {
        for _ in 0..length {
            text.push('`')?;
        }
        text.push('@')?;
    }
    for _ in text.len()..LONG_TEXT {
        text.push('@')?;
    }
    Ok(text)
}

/// No two runs are as long, so none is code, and no form follows an `@` of them.
#[test]
fn runs_that_grow(rt: HostRuntime) -> Result<(), Fail> {
    let alloc = rt.alloc();
    let mut text = growing_runs(alloc)?;
    assert_eq!(rt; text.len(), LONG_TEXT, "the bytes of the text");
    assert!(rt;
        scan(alloc, text.as_str())?.as_slice().is_empty(),
        "the runs alone"
    );
    text.push_str(" @**Ada**")?;
    let behind = scan(alloc, text.as_str())?;
    assert_eq!(rt; behind.as_slice().len(), 1, "one span behind the runs");
    assert_eq!(rt;
        behind.as_slice().first().copied(),
        Some(Span {
            start: LONG_TEXT + 1,
            end: LONG_TEXT + 9,
            silent: false,
            group: false,
        }),
        "the span behind the runs"
    );
    Ok(())
}

/// The first run of the first half, of one backquote, ends at the first of the second half, so what stands between is code.
#[test]
fn runs_that_grow_twice(rt: HostRuntime) -> Result<(), Fail> {
    let alloc = rt.alloc();
    let runs = growing_runs(alloc)?;
    let mut text = String::new(alloc);
    text.push_str(runs.as_str())?;
    text.push_str(" @**Ada** ")?;
    text.push_str(runs.as_str())?;
    assert!(rt;
        scan(alloc, text.as_str())?.as_slice().is_empty(),
        "the runs twice"
    );
    Ok(())
}

fn rows_hold(rt: &impl Abort, alloc: Global, rows: &[Row]) -> Result<(), Fail> {
    let users = [
        UserName {
            id: UserId(1),
            name: Text::from_str(alloc, "Ada")?,
        },
        UserName {
            id: UserId(2),
            name: Text::from_str(alloc, "Ben")?,
        },
        UserName {
            id: UserId(3),
            name: Text::from_str(alloc, "ben")?,
        },
    ];
    let groups = [GroupName {
        id: GroupId(1),
        name: Text::from_str(alloc, "ops")?,
    }];
    for (text, places, named, named_groups, wildcards) in rows {
        let spans = scan(alloc, text)?;
        let mentions = resolve(alloc, text, spans.as_slice(), &users, &groups)?;
        assert_eq!(rt;
            spans.as_slice().len(),
            places.len(),
            "the spans of {text:?}"
        );
        for (i, (start, end, silent, group)) in places.iter().enumerate() {
            let span = Span {
                start: *start,
                end: *end,
                silent: *silent,
                group: *group,
            };
            assert_eq!(rt;
                spans.as_slice().get(i).copied(),
                Some(span),
                "a span of {text:?}"
            );
        }
        assert_eq!(rt;
            mentions.users.as_slice().len(),
            named.len(),
            "the users in {text:?}"
        );
        for (i, id) in named.iter().enumerate() {
            assert_eq!(rt;
                mentions.users.as_slice().get(i).copied(),
                Some(UserId(*id)),
                "a user in {text:?}"
            );
        }
        assert_eq!(rt;
            mentions.groups.as_slice().len(),
            named_groups.len(),
            "the groups in {text:?}"
        );
        for (i, id) in named_groups.iter().enumerate() {
            assert_eq!(rt;
                mentions.groups.as_slice().get(i).copied(),
                Some(GroupId(*id)),
                "a group in {text:?}"
            );
        }
        assert_eq!(rt;
            mentions.channel_wildcard,
            wildcards.0,
            "the channel in {text:?}"
        );
        assert_eq!(rt;
            mentions.topic_wildcard,
            wildcards.1,
            "the topic in {text:?}"
        );
    }
    Ok(())
}
