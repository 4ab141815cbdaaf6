//! Whole scripts with removals of pushes: their parts, what is kept of them, and what a fault and a start leave of them.
use super::*;
use crate::kept_tests::{expect_worked_over, with_change};
use crate::preference_tests::opened;
use crate::run_tests::{Failing, NEVER, OPENING, expect_worked};
use chat_model::{Entry, EntryNo, List, MessageId, Row, RowChange, RowKey, UserId};
use keeper::{Keeper, Kept, MemoryKeeper};
use std::alloc::{AllocError, Global};
use std::process::Abort;
use std::test::Fail;

// So many messages to Ben, each of which is pushed to him.
fn push_pushes(worked: &mut String, alloc: Global, count: u64) -> Result<(), AllocError> {
    for deal in 0..count {
        let message = deal.saturating_add(1);
        let sent = format!(in alloc;
            "send 1 1 \"lunch\" \"hi @**Ben**\" => sent {message} deal {deal}\n"
        )?;
        worked.push_str(sent.as_str())?;
        let dealt = format!(in alloc;
            "deal => dealt {deal} 2=idle\nabsorb => absorbed dealt {deal}\n"
        )?;
        worked.push_str(dealt.as_str())?;
        let pushed = format!(in alloc; "push => pushed 2 message={message} mention\n")?;
        worked.push_str(pushed.as_str())?;
    }
    Ok(())
}

// One line by which Ben reads the messages from 1 to so many.
fn push_read(worked: &mut String, alloc: Global, count: u64) -> Result<(), AllocError> {
    worked.push_str("read 2 1")?;
    for message in 2..=count {
        worked.push_str(format!(in alloc; ",{message}")?.as_str())?;
    }
    worked.push_str(" => ok\n")
}

// Ben reads so many messages at once that were pushed to him, and each removal has so many of them.
fn expect_parts<R: Abort + AllocGlobal>(
    rt: &R,
    count: u64,
    entries: u64,
    parts: &[u64],
) -> Result<(), Fail> {
    let alloc = rt.alloc();
    let mut worked = String::from_str(alloc, OPENING)?;
    push_pushes(&mut worked, alloc, count)?;
    push_read(&mut worked, alloc, count)?;
    for part in parts {
        let part = *part;
        let removed = format!(in alloc; "push => removed 2 count={part}\n")?;
        worked.push_str(removed.as_str())?;
    }
    worked.push_str("push => nothing ready\n")?;
    let counts = format!(in alloc;
        "audit => audit flight=0 held=0 ready=0 handed={count} read={count} deleted=0 off=0 live=0 entries={entries} waiting=0 written={count}\n"
    )?;
    worked.push_str(counts.as_str())?;
    expect_worked(rt, worked.as_str(), 4_096, &NEVER, 0)
}

#[test]
fn pushes_that_one_read_revokes_are_removed_in_parts_of_200(rt: HostRuntime) -> Result<(), Fail> {
    expect_parts(&rt, 199, 200, &[199])?;
    expect_parts(&rt, 200, 201, &[200])?;
    expect_parts(&rt, 201, 203, &[200, 1])?;
    expect_parts(&rt, 400, 402, &[200, 200])?;
    expect_parts(&rt, 401, 404, &[200, 200, 1])
}

/// A morning of six users and a bot. The keeper's 31st call, by which the first mail turn is kept, fails.
const MORNING: &str = r#"user "Ada" => user 1
user "Ben" => user 2
user "Cy" => user 3
user "Dee" => user 4
user "Eve" => user 5
user "Fay" => user 6
bot "Builder" => user 7
group "ops" 2,3 => group 1
channel "team" => channel 1
sub 1 1 on => ok
sub 2 1 on => ok
sub 3 1 on => ok
sub 4 1 on => ok
sub 5 1 on => ok
sub 6 1 on => ok
sub 7 1 on => ok
mute 4 1 on => ok
set 5 wildcards off => ok
at 1000
register 6 => queue 1:1
beat 6 => ok
send 1 1 "deploy" "@*ops*, @**Dee**, @_**Eve** and @**Ada**" => sent 1 deal 0
deal => dealt 0 2=idle,3=idle
absorb => absorbed dealt 0
at 1010
send 7 1 "deploy" "@**all** build done" => sent 2 deal 1
deal => dealt 1 1=idle,2=idle,3=idle,4=idle,6=live
absorb => absorbed dealt 1
at 1015
ack 6 1:1 0 => items -
absorb => absorbed cleared 6 1 by 1:1
read 3 1,2 => ok
push => pushed 2 message=1 mention
push => dropped 3 message=1 read
dm 2 4 "lunch?" => sent 3 deal 2
deal => dealt 2 4=idle
absorb => absorbed dealt 2
at 1120
mail => fault keeper
mail => mailed 2 entries=1 dropped=0
mail => mailed 3 entries=0 dropped=2
mail => not due 1130
at 1130
mail => mailed 1 entries=1 dropped=0
mail => mailed 4 entries=2 dropped=0
mail => not due -
audit => audit flight=0 held=0 ready=4 handed=6 read=4 deleted=0 off=0 live=2 entries=5 waiting=0 written=0
"#;

// The audit reads what is kept, and has no lines.
#[test]
fn a_morning_with_a_failing_keeper(rt: HostRuntime) -> Result<(), Fail> {
    let alloc = rt.alloc();
    let mut failing = List::new(alloc);
    failing.push(31)?;
    let keeper = MemoryKeeper::new(alloc, failing);
    let keeper = expect_worked_over(&rt, "play", keeper, MORNING, 5)?;
    let counts =
        " => audit flight=0 held=0 ready=4 handed=6 read=4 deleted=0 off=0 live=2 entries=5 waiting=0 written=0";
    expect_worked_over(&rt, "audit", keeper, counts, 0)?;
    Ok(())
}

/// Behind the opening, a read that fails, as the keeper's eleventh call does, and the turn of its removal, as the
/// thirteenth does: the start makes the first two, the opening five more, the send, the absorption and the push one each.
pub const REMOVED_NEXT: &str = r#"send 1 1 "lunch" "hi @**Ben**" => sent 1 deal 0
deal => dealt 0 2=idle
absorb => absorbed dealt 0
push => pushed 2 message=1 mention
read 2 1 => fault keeper
audit => audit flight=0 held=0 ready=1 handed=1 read=0 deleted=0 off=0 live=0 entries=1 waiting=0 written=0
read 2 1 => ok
push => fault keeper
audit => audit flight=0 held=0 ready=0 handed=1 read=1 deleted=0 off=0 live=0 entries=1 waiting=1 written=0
push => removed 2 count=1
push => nothing ready
audit => audit flight=0 held=0 ready=0 handed=1 read=1 deleted=0 off=0 live=0 entries=2 waiting=0 written=1
"#;

#[test]
fn after_a_fault_the_read_is_made_and_the_removal_has_its_turn(
    rt: HostRuntime,
) -> Result<(), Fail> {
    let worked = format!(in rt.alloc(); "{OPENING}{REMOVED_NEXT}")?;
    let keeper = Failing {
        keeper: &[11, 13],
        ..NEVER
    };
    expect_worked(&rt, worked.as_str(), 4_096, &keeper, 5)
}

/// The scripts of runs, each over what the earlier ones kept, and the counts behind it.
pub const REMOVAL_RUNS: [(&str, &str); 4] = [
    (
        r#"# What was read and deleted before a start: at each place where a notice may stand.
user "Ada" => user 1
user "Ben" => user 2
channel "team" => channel 1
sub 1 1 on => ok
sub 2 1 on => ok
at 100
send 1 1 "lunch" "one @**Ben**" => sent 1 deal 0
deal => dealt 0 2=idle
absorb => absorbed dealt 0
push => pushed 2 message=1 mention
send 1 1 "lunch" "two @**Ben**" => sent 2 deal 1
deal => dealt 1 2=idle
absorb => absorbed dealt 1
send 1 1 "lunch" "three @**Ben**" => sent 3 deal 2
send 1 1 "lunch" "four @**Ben**" => sent 4 deal 3
send 1 1 "lunch" "five @**Ben**" => sent 5 deal 4
read 2 3,1,2 => ok
delete 1 4 => ok
"#,
        "audit => audit flight=2 held=0 ready=0 handed=1 read=5 deleted=2 off=0 live=0 entries=1 waiting=1 written=0",
    ),
    (
        r#"# A start makes ready the one that is left, and what waited already has its turn before it.
audit => audit flight=0 held=0 ready=2 handed=1 read=5 deleted=2 off=0 live=0 entries=1 waiting=1 written=0
push => dropped 2 message=2 read
push => removed 2 count=1
push => pushed 2 message=5 mention
push => nothing ready
at 219
mail => not due 220
at 220
mail => mailed 2 entries=1 dropped=2
mail => not due -
"#,
        "audit => audit flight=0 held=0 ready=0 handed=3 read=5 deleted=2 off=0 live=0 entries=4 waiting=0 written=1",
    ),
    (
        r#"# Another start makes nothing of it ready again, and what was handed over before it may still be removed.
push => nothing ready
mail => not due -
read 2 4 => refused 12
read 2 1,2,3 => ok
push => nothing ready
read 2 5 => ok
"#,
        "audit => audit flight=0 held=0 ready=0 handed=3 read=5 deleted=2 off=0 live=0 entries=4 waiting=1 written=1",
    ),
    (
        r#"# A removal that waits has its turn after a start.
push => removed 2 count=1
push => nothing ready
"#,
        "audit => audit flight=0 held=0 ready=0 handed=3 read=5 deleted=2 off=0 live=0 entries=5 waiting=0 written=2",
    ),
];

#[test]
fn what_was_read_or_deleted_stays_so_over_starts(rt: HostRuntime) -> Result<(), Fail> {
    let mut keeper = MemoryKeeper::new(rt.alloc(), List::new(rt.alloc()));
    for (script, counts) in REMOVAL_RUNS {
        keeper = expect_worked_over(&rt, "play", keeper, script, 0)?;
        keeper = expect_worked_over(&rt, "audit", keeper, counts, 0)?;
    }
    Ok(())
}

/// Behind the opening, three messages are pushed to Ben, who reads two of them; the third is deleted. The removal of the
/// two is written, and that of the third waits.
const KEPT: &str = r#"send 1 1 "lunch" "one @**Ben**" => sent 1 deal 0
dealt 0 2=idle
send 1 1 "lunch" "two @**Ben**" => sent 2 deal 1
dealt 1 2=idle
send 1 1 "lunch" "three @**Ben**" => sent 3 deal 2
dealt 2 2=idle
push => pushed 2 message=1 mention
push => pushed 2 message=2 mention
push => pushed 2 message=3 mention
read 2 2,1 => ok
delete 1 3 => ok
push => removed 2 count=2
"#;

// A keeper over which the opening and these rows were played.
fn kept_removals<R: Abort + AllocGlobal>(rt: &R) -> Result<MemoryKeeper, Fail> {
    let worked = opened(rt.alloc(), KEPT)?;
    let keeper = MemoryKeeper::new(rt.alloc(), List::new(rt.alloc()));
    expect_worked_over(rt, "play", keeper, worked.as_str(), 0)
}

// Adds the message of an active push, or a deleted message, each by its number.
fn push_marked(active: &mut Vec<u64>, deleted: &mut Vec<u64>, row: &Row) -> Result<(), AllocError> {
    match row {
        Row::Active { message, .. } => active.push(message.0)?,
        Row::Message {
            id,
            deleted: true,
            ..
        } => deleted.push(id.0)?,
        _ => {}
    }
    Ok(())
}

// Adds the messages of a removal.
fn push_removed(removed: &mut Vec<u64>, row: &Row) -> Result<(), AllocError> {
    if let Row::Outbox {
        entry: Entry::Remove { messages, .. },
        ..
    } = row
    {
        for message in messages.as_slice() {
            removed.push(message.0)?;
        }
    }
    Ok(())
}

#[test]
fn a_written_removal_is_an_entry_and_its_pushes_are_active_no_more(
    rt: HostRuntime,
) -> Result<(), Fail> {
    let alloc = rt.alloc();
    let mut keeper = kept_removals(&rt)?;
    let Ok(Kept { rows, .. }) = keeper.load() else {
        return Err(Fail::from("no load"));
    };
    let mut active = Vec::new(alloc);
    let mut deleted = Vec::new(alloc);
    let mut removed = Vec::new(alloc);
    for row in rows.as_slice() {
        push_marked(&mut active, &mut deleted, row)?;
        push_removed(&mut removed, row)?;
    }
    assert_eq!(rt; active.as_slice(), [3u64].as_slice());
    assert_eq!(rt; deleted.as_slice(), [3u64].as_slice());
    assert_eq!(rt; removed.as_slice(), [1u64, 2].as_slice());
    Ok(())
}

// After a change of a row, both commands write this line.
fn expect_changed<R: Abort + AllocGlobal>(
    rt: &R,
    change: RowChange,
    line: &str,
) -> Result<(), Fail> {
    let keeper = with_change(rt, kept_removals(rt)?, change)?;
    let keeper = expect_worked_over(rt, "play", keeper, line, 8)?;
    expect_worked_over(rt, "audit", keeper, line, 8)?;
    Ok(())
}

// A deleted message keeps its last text.
#[test]
fn a_row_that_says_another_thing_of_a_deletion_or_a_removal_is_told(
    rt: HostRuntime,
) -> Result<(), Fail> {
    for (text, deleted) in [("three @**Ben**", false), ("", true)] {
        let message = Row::Message {
            id: MessageId(3),
            sender: UserId(1),
            text: Text::from_str(rt.alloc(), text)?,
            deleted,
        };
        expect_changed(&rt, RowChange::Put(message), " => disagree messages 3")?;
    }
    for number in [2, 3] {
        let user = UserId(2);
        let message = MessageId(number);
        let change = if number == 3 {
            RowChange::Remove(RowKey::Active(user, message))
        } else {
            RowChange::Put(Row::Active { user, message })
        };
        let line = format!(in rt.alloc(); " => disagree active 2 {number}")?;
        expect_changed(&rt, change, line.as_str())?;
    }
    let removal = RowChange::Remove(RowKey::Outbox(EntryNo(4)));
    expect_changed(&rt, removal, " => disagree outbox 4")
}
