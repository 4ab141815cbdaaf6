//! A play that was made by hand, and one of which each line is compared with the slow computation.
use super::*;
use crate::batch_tests::BATCHES;
use crate::deletion_tests::{DELETIONS, READERS};
use crate::ending::Met;
use crate::group_tests::GROUPS;
use crate::hook_tests::HOOK;
use crate::hub_tests::HUB;
use crate::kept_tests::RUNS;
use crate::period_tests::PERIODS;
use crate::play::{Next, Play};
use crate::preference_tests::{PREFERENCES, opened};
use crate::push_tests::{PUSH_RUNS, PUSHED_NEXT, PUSHES};
use crate::read_tests::READS;
use crate::removal_tests::{REMOVAL_RUNS, REMOVED_NEXT};
use crate::request_tests::{NOTICES, REQUESTS};
use crate::run_tests::{ABSORBED_NEXT, IDLE, OPENING, lines_and_answers};
use crate::under_way::UnderWay;
use chat_model::{Cause, Counts, List, MessageId, Moment, Stamped, UserId, Way};
use keeper::MemoryKeeper;
use missed_hook::PlainPipe;
use notice_ledger::{Account, account};
use office::Office;
use presence_queues::Hub;
use std::alloc::Global;
use std::process::Abort;
use std::test::Fail;

fn moment(rt: &impl Abort, seconds: u64) -> Moment {
    Moment::new(seconds).expect(rt, "a moment")
}

// Plays a line, behind which the play goes on.
fn go_on<'a, R: Abort>(
    rt: &R,
    play: Play<'a, MemoryKeeper, MemorySink>,
    line: &[u8],
) -> Play<'a, MemoryKeeper, MemorySink> {
    assert!(rt; play.is_between_lines());
    assert!(rt; line.len() <= play.room());
    match play.take_piece(line) {
        Next::On(next) => next,
        Next::Ended(_) => panic!(rt; "the play ended"),
    }
}

#[test]
fn a_clock_behind_the_last_stamp_gives_no_stamp(rt: HostRuntime) -> Result<(), Fail> {
    let alloc = rt.alloc();
    let keeper = MemoryKeeper::new(alloc, List::new(alloc));
    let Ok(office) = Office::start(alloc, keeper, moment(&rt, 100)) else {
        return Err(Fail::from("no start"));
    };
    let hub = Hub::new(
        alloc,
        PlainPipe::new(alloc),
        office.run_number(),
        office.deal_count(),
    );
    let line = UnderWay::new(alloc)?;
    let mut sink = MemorySink::new(alloc, 256, List::new(alloc))?;
    let play = Play {
        alloc,
        office,
        hub,
        out: &mut sink,
        clock: moment(&rt, 50),
        met: Met::nothing(),
        number: 0,
        taken: 0,
        line,
    };
    let Play {
        office,
        out,
        clock,
        ..
    } = go_on(&rt, play, b"user \"Ada\"\n");
    assert_eq!(rt; out.bytes(), b"user 1\n".as_slice());
    assert_eq!(rt; clock, moment(&rt, 50));
    assert_eq!(rt; office.journal().len(), 2);
    match office.journal().last() {
        Some(added) => assert_eq!(rt; added.at, moment(&rt, 100)),
        None => panic!(rt; "no event was added"),
    }
    Ok(())
}

// Counts a notice of this account.
fn count(counts: Counts, account: Account) -> Counts {
    let mut counts = counts;
    match account {
        Account::NotOwed => {}
        Account::Flight => counts.flight = counts.flight.saturating_add(1),
        Account::Held => counts.held = counts.held.saturating_add(1),
        Account::Ready => counts.ready = counts.ready.saturating_add(1),
        Account::Handed => counts.handed = counts.handed.saturating_add(1),
        Account::Cancelled(Cause::Read) => counts.read = counts.read.saturating_add(1),
        Account::Cancelled(Cause::Deleted) => counts.deleted = counts.deleted.saturating_add(1),
        Account::Cancelled(Cause::SwitchedOff) => counts.off = counts.off.saturating_add(1),
        Account::LiveQueue => counts.live = counts.live.saturating_add(1),
    }
    counts
}

// The counts by the accounts of the notices of the first three users and six messages, beside those of the outbox.
fn by_account(alloc: Global, journal: &[Stamped], counts: Counts) -> Result<Counts, OutOfMemory> {
    let mut all = Counts {
        flight: 0,
        held: 0,
        ready: 0,
        handed: 0,
        read: 0,
        deleted: 0,
        off: 0,
        live: 0,
        ..counts
    };
    for user in 1..4 {
        for message in 1..7 {
            for way in [Way::Mail, Way::Push] {
                let here = account(alloc, journal, UserId(user), MessageId(message), way)?;
                all = count(all, here);
            }
        }
    }
    Ok(all)
}

// The slow computation gives the office's counts.
fn expect_slow_counts<R: Abort + AllocGlobal>(rt: &R, office: &Office<MemoryKeeper>) {
    let counts = office.audit();
    let slow = notice_ledger::audit(rt.alloc(), office.journal());
    assert_eq!(rt; slow, Ok(counts));
    let by_account = by_account(rt.alloc(), office.journal(), counts);
    assert_eq!(rt; by_account, Ok(counts));
}

fn expect_slow<R: Abort + AllocGlobal>(rt: &R, play: &Play<'_, MemoryKeeper, MemorySink>) {
    expect_slow_counts(rt, &play.office);
}

// Plays the lines, and compares the counts before them and behind each.
fn follow<'a, R: Abort + AllocGlobal>(
    rt: &R,
    play: Play<'a, MemoryKeeper, MemorySink>,
    lines: &[u8],
) -> Play<'a, MemoryKeeper, MemorySink> {
    let mut play = play;
    expect_slow(rt, &play);
    for line in lines.split_inclusive(|byte| *byte == b'\n') {
        play = go_on(rt, play, line);
        expect_slow(rt, &play);
    }
    play
}

// Plays a worked script over a keeper, compares the counts behind the start and behind each line, and gives the keeper
// back.
fn follow_over<R: Abort + AllocGlobal>(
    rt: &R,
    keeper: MemoryKeeper,
    worked: &str,
) -> Result<MemoryKeeper, Fail> {
    let alloc = rt.alloc();
    let (lines, _) = lines_and_answers(alloc, worked)?;
    let mut sink = MemorySink::new(alloc, 4_096, List::new(alloc))?;
    match Play::start(alloc, keeper, &mut sink) {
        Ok(play) => {
            let Play { office, .. } = follow(rt, play, lines.as_slice());
            Ok(office.close())
        }
        Err(_) => Err(Fail::from("no start")),
    }
}

// Plays a worked script over nothing, and compares the counts behind each line.
fn follow_worked<R: Abort + AllocGlobal>(rt: &R, worked: &str) -> Result<(), Fail> {
    let keeper = MemoryKeeper::new(rt.alloc(), List::new(rt.alloc()));
    follow_over(rt, keeper, worked)?;
    Ok(())
}

fn follow_opened<R: Abort + AllocGlobal>(rt: &R, rows: &str) -> Result<(), Fail> {
    let worked = format!(in rt.alloc(); "{OPENING}{rows}")?;
    follow_worked(rt, worked.as_str())
}

// As `ready N` in the rows stands for a line of counts.
fn follow_counted<R: Abort + AllocGlobal>(rt: &R, rows: &str) -> Result<(), Fail> {
    let worked = opened(rt.alloc(), rows)?;
    follow_worked(rt, worked.as_str())
}

#[test]
fn the_slow_computation_agrees_behind_each_line(rt: HostRuntime) -> Result<(), Fail> {
    follow_opened(&rt, IDLE)?;
    for rows in REQUESTS {
        follow_opened(&rt, rows)?;
    }
    for rows in NOTICES {
        follow_opened(&rt, rows)?;
    }
    for rows in HUB {
        follow_opened(&rt, rows)?;
    }
    for rows in HOOK {
        follow_opened(&rt, rows)?;
    }
    for rows in PREFERENCES {
        follow_counted(&rt, rows)?;
    }
    for rows in PERIODS {
        follow_counted(&rt, rows)?;
    }
    for rows in BATCHES {
        follow_counted(&rt, rows)?;
    }
    for rows in GROUPS {
        follow_counted(&rt, rows)?;
    }
    for rows in PUSHES {
        follow_counted(&rt, rows)?;
    }
    Ok(())
}

#[test]
fn the_slow_computation_agrees_behind_reads_and_deletions(rt: HostRuntime) -> Result<(), Fail> {
    for rows in READS {
        follow_counted(&rt, rows)?;
    }
    for rows in DELETIONS {
        follow_counted(&rt, rows)?;
    }
    for rows in READERS {
        follow_opened(&rt, rows)?;
    }
    Ok(())
}

// The calls of the keeper at which it fails.
const FAULTS: [(&str, &[u64]); 3] = [
    (ABSORBED_NEXT, &[9]),
    (PUSHED_NEXT, &[10]),
    (REMOVED_NEXT, &[11, 13]),
];

#[test]
fn the_slow_computation_agrees_behind_a_fault(rt: HostRuntime) -> Result<(), Fail> {
    let alloc = rt.alloc();
    for (rows, calls) in FAULTS {
        let worked = format!(in alloc; "{OPENING}{rows}")?;
        let failing = List::from(Vec::from_slice(alloc, calls)?);
        follow_over(&rt, MemoryKeeper::new(alloc, failing), worked.as_str())?;
    }
    Ok(())
}

#[test]
fn the_slow_computation_agrees_over_starts(rt: HostRuntime) -> Result<(), Fail> {
    let mut keeper = MemoryKeeper::new(rt.alloc(), List::new(rt.alloc()));
    for (script, _) in RUNS {
        keeper = follow_over(&rt, keeper, script)?;
    }
    let mut keeper = MemoryKeeper::new(rt.alloc(), List::new(rt.alloc()));
    for script in PUSH_RUNS {
        keeper = follow_over(&rt, keeper, script)?;
    }
    let mut keeper = MemoryKeeper::new(rt.alloc(), List::new(rt.alloc()));
    for (script, _) in REMOVAL_RUNS {
        keeper = follow_over(&rt, keeper, script)?;
    }
    Ok(())
}
