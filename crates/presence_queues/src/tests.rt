//! The life of a hub, call by call.
ghost use Rattle.std.specs.Prelude.{◌≡◌, ◌∷◌, [], IfOk};

use crate::{DealAnswer, Hub, HubFault, QueueItem, SweepAnswer};
use chat_model::{
    Deal, DealNo, List, MessageId, Moment, OutOfMemory, Outcome, QueueId, UserId, UserVerdict,
    Verdict,
};
use missed_hook::{PlainPipe, Post};
use std::alloc::{AllocError, Global};
use std::process::Abort;
use std::test::Fail;

#[derive(Clone, Copy)]
enum Call {
    Register(u64),
    Beat(u64),
    /// A deal of the number, of one user.
    Deal(u32, u64),
    Ack(u64, u64, Option<u64>),
    Leave(u64, u64),
    Sweep,
}

#[derive(Clone, Copy)]
struct Step {
    at: u64,
    call: Call,
    answer: &'static str,
}

const fn at(at: u64, call: Call, answer: &'static str) -> Step {
    Step { at, call, answer }
}

/// A deal of one user, whose message has the deal's number and one.
fn deal_to(alloc: Global, number: u32, user: u64) -> Result<Deal, OutOfMemory>
    ensures number { IfOk result (λ d. d.number.0 ≡ number) }
    ensures users { IfOk result (λ d. d.users ≡ record { 0 = user } ∷ []) }
{
    let mut users = List::new(alloc);
    users.push(UserId(user))?;
    Ok(Deal {
        number: DealNo(number as u64),
        message: MessageId(number as u64 + 1),
        users,
    })
}

fn verdict_text(verdict: Verdict) -> &'static str {
    match verdict {
        Verdict::Idle => "idle",
        Verdict::Live => "live",
    }
}

fn verdicts_text(alloc: Global, verdicts: &[UserVerdict]) -> Result<String, AllocError> {
    let mut text = String::new(alloc);
    for given in verdicts {
        let verdict = verdict_text(given.verdict);
        let user = given.user.0;
        text.push_str(format!(in alloc; " {user}={verdict}")?.as_str())?;
    }
    Ok(text)
}

fn items_text(alloc: Global, items: &[QueueItem]) -> Result<String, AllocError> {
    let mut text = String::from_str(alloc, "items")?;
    for item in items {
        let event = item.event;
        let message = item.message.0;
        text.push_str(format!(in alloc; " {event}={message}")?.as_str())?;
    }
    Ok(text)
}

fn fault_text(alloc: Global, fault: HubFault) -> Result<String, AllocError> {
    match fault {
        HubFault::BadQueue => String::from_str(alloc, "refused 21"),
        HubFault::BadEventId { next } => format!(in alloc; "refused 22 next {next}"),
        HubFault::OutOfMemory => String::from_str(alloc, "out of memory"),
    }
}

fn deals_text(alloc: Global, deals: &[DealNo]) -> Result<String, AllocError> {
    let mut text = String::new(alloc);
    for deal in deals {
        let number = deal.0;
        text.push_str(format!(in alloc; " {number}")?.as_str())?;
    }
    Ok(text)
}

fn outcome_text(alloc: Global, outcome: &Outcome) -> Result<String, AllocError> {
    match outcome {
        Outcome::Dealt { deal, verdicts } => {
            let given = verdicts_text(alloc, verdicts.as_slice())?;
            let number = deal.0;
            format!(in alloc; "dealt {number}{given}")
        }
        Outcome::Cleared { user, deals, queue } => {
            let deals = deals_text(alloc, deals.as_slice())?;
            let user = user.0;
            let run = queue.run;
            let number = queue.number;
            format!(in alloc; "cleared {user}{deals} by {run}:{number}")
        }
        Outcome::Missed { user, deals } => {
            let deals = deals_text(alloc, deals.as_slice())?;
            let user = user.0;
            format!(in alloc; "missed {user}{deals}")
        }
    }
}

fn sent_text(alloc: Global, outcomes: &[Outcome]) -> Result<String, AllocError> {
    let mut text = String::new(alloc);
    for outcome in outcomes {
        text.push_str(outcome_text(alloc, outcome)?.as_str())?;
        text.push_str("; ")?;
    }
    Ok(text)
}

/// Makes the call, and writes its answer.
fn answer_text<T: Post>(
    alloc: Global,
    hub: &mut Hub<T>,
    now: Moment,
    call: &Call,
) -> Result<String, AllocError> {
    match call {
        Call::Register(user) => match hub.register(UserId(*user), now) {
            Ok(id) => {
                let run = id.run;
                let number = id.number;
                format!(in alloc; "queue {run}:{number}")
            }
            Err(OutOfMemory) => String::from_str(alloc, "out of memory"),
        },
        Call::Beat(user) => match hub.beat(UserId(*user), now) {
            Ok(()) => String::from_str(alloc, "ok"),
            Err(OutOfMemory) => String::from_str(alloc, "out of memory"),
        },
        Call::Deal(number, user) => {
            let Ok(deal) = deal_to(alloc, *number, *user) else {
                return String::from_str(alloc, "out of memory");
            };
            match hub.deal(&deal, now) {
                Ok(DealAnswer::Dealt(verdicts)) => {
                    let given = verdicts_text(alloc, verdicts.as_slice())?;
                    format!(in alloc; "dealt {number}{given}")
                }
                Ok(DealAnswer::NotNext(next)) => {
                    let next = next.0;
                    format!(in alloc; "not next {next}")
                }
                Err(OutOfMemory) => String::from_str(alloc, "out of memory"),
            }
        }
        Call::Ack(user, number, upto) => {
            let queue = QueueId {
                run: 1,
                number: *number,
            };
            match hub.ack(UserId(*user), queue, *upto, now) {
                Ok(items) => items_text(alloc, items.as_slice()),
                Err(fault) => fault_text(alloc, fault),
            }
        }
        Call::Leave(user, number) => {
            let queue = QueueId {
                run: 1,
                number: *number,
            };
            match hub.leave(UserId(*user), queue, now) {
                Ok(()) => String::from_str(alloc, "ok"),
                Err(fault) => fault_text(alloc, fault),
            }
        }
        Call::Sweep => match hub.sweep_one(now) {
            Ok(SweepAnswer::Ended { user, queues }) => {
                let user = user.0;
                format!(in alloc; "ended {user} queues={queues}")
            }
            Ok(SweepAnswer::NoneOverdue(Some(next))) => { format!(in alloc; "none overdue {next}") }
            Ok(SweepAnswer::NoneOverdue(None)) => String::from_str(alloc, "none overdue -"),
            Err(OutOfMemory) => String::from_str(alloc, "out of memory"),
        },
    }
}

/// Makes the calls of a life of a hub, and compares each answer and what was sent in all.
fn expect_life<R: Abort + AllocGlobal>(rt: &R, steps: &[Step], sent: &str) -> Result<(), Fail> {
    let alloc = rt.alloc();
    let mut hub = Hub::new(alloc, PlainPipe::new(alloc), 1, DealNo(0));
    for step in steps {
        let now = Moment::new(step.at).ok_or("a moment")?;
        let answer = answer_text(alloc, &mut hub, now, &step.call)?;
        assert_eq!(rt; answer.as_str(), step.answer);
    }
    let text = sent_text(alloc, hub.pipe().sent())?;
    assert_eq!(rt; text.as_str(), sent);
    Ok(())
}

#[test]
fn what_is_live_is_cleared_or_missed(rt: HostRuntime) -> Result<(), Fail> {
    // A client acks what it saw, and nothing is left to miss.
    let acked = [
        at(100, Call::Register(2), "queue 1:1"),
        at(100, Call::Beat(2), "ok"),
        at(100, Call::Deal(0, 2), "dealt 0 2=live"),
        at(100, Call::Ack(2, 1, Some(0)), "items"),
        at(900, Call::Sweep, "ended 2 queues=1"),
    ];
    expect_life(
        &rt,
        acked.as_slice(),
        "dealt 0 2=live; cleared 2 0 by 1:1; ",
    )?;
    // A queue ends 601 seconds after its last poll, and what waits is missed.
    let missed = [
        at(100, Call::Register(2), "queue 1:1"),
        at(100, Call::Beat(2), "ok"),
        at(100, Call::Deal(0, 2), "dealt 0 2=live"),
        at(700, Call::Sweep, "none overdue 701"),
        at(701, Call::Sweep, "ended 2 queues=1"),
        at(821, Call::Sweep, "none overdue -"),
    ];
    expect_life(&rt, missed.as_slice(), "dealt 0 2=live; missed 2 0; ")
}

#[test]
fn of_two_queues_one_may_save_the_other(rt: HostRuntime) -> Result<(), Fail> {
    let both_end = [
        at(100, Call::Register(2), "queue 1:1"),
        at(100, Call::Beat(2), "ok"),
        at(100, Call::Register(2), "queue 1:2"),
        at(100, Call::Deal(0, 2), "dealt 0 2=live"),
        at(701, Call::Sweep, "ended 2 queues=2"),
    ];
    expect_life(&rt, both_end.as_slice(), "dealt 0 2=live; missed 2 0; ")?;
    // An ack of nothing polls, and what the other queue held waits on in this one.
    let polled = [
        at(100, Call::Register(2), "queue 1:1"),
        at(100, Call::Beat(2), "ok"),
        at(100, Call::Register(2), "queue 1:2"),
        at(100, Call::Deal(0, 2), "dealt 0 2=live"),
        at(650, Call::Ack(2, 2, None), "items 0=1"),
        at(701, Call::Sweep, "ended 2 queues=1"),
        at(701, Call::Ack(2, 2, Some(0)), "items"),
    ];
    expect_life(
        &rt,
        polled.as_slice(),
        "dealt 0 2=live; cleared 2 0 by 1:2; ",
    )?;
    // A later queue doesn't hold the earlier deal, and clears it when the first one ends.
    let cleared = [
        at(100, Call::Register(2), "queue 1:1"),
        at(100, Call::Beat(2), "ok"),
        at(100, Call::Deal(0, 2), "dealt 0 2=live"),
        at(600, Call::Register(2), "queue 1:2"),
        at(701, Call::Sweep, "ended 2 queues=1"),
    ];
    expect_life(
        &rt,
        cleared.as_slice(),
        "dealt 0 2=live; cleared 2 0 by 1:2; ",
    )
}

#[test]
fn a_beat_counts_for_140_seconds(rt: HostRuntime) -> Result<(), Fail> {
    let beats = [
        at(100, Call::Register(2), "queue 1:1"),
        at(100, Call::Beat(2), "ok"),
        at(240, Call::Deal(0, 2), "dealt 0 2=live"),
        at(241, Call::Deal(1, 2), "dealt 1 2=idle"),
        at(241, Call::Deal(3, 2), "not next 2"),
        at(241, Call::Deal(2, 3), "dealt 2 3=idle"),
        at(701, Call::Sweep, "ended 2 queues=1"),
    ];
    expect_life(
        &rt,
        beats.as_slice(),
        "dealt 0 2=live; dealt 1 2=idle; dealt 2 3=idle; missed 2 0; ",
    )
}

#[test]
fn calls_on_queues_are_refused(rt: HostRuntime) -> Result<(), Fail> {
    let refused = [
        at(100, Call::Ack(2, 1, None), "refused 21"),
        at(100, Call::Register(2), "queue 1:1"),
        at(100, Call::Ack(2, 1, Some(0)), "refused 22 next 0"),
        at(100, Call::Ack(3, 1, None), "refused 21"),
        at(100, Call::Ack(2, 2, None), "refused 21"),
        at(100, Call::Beat(2), "ok"),
        at(100, Call::Deal(0, 2), "dealt 0 2=live"),
        at(100, Call::Deal(1, 2), "dealt 1 2=live"),
        at(100, Call::Ack(2, 1, Some(1)), "items"),
        at(150, Call::Ack(2, 1, Some(0)), "items"),
        at(700, Call::Ack(2, 1, Some(2)), "refused 22 next 2"),
        at(750, Call::Sweep, "none overdue 751"),
        at(750, Call::Leave(3, 1), "refused 21"),
        at(750, Call::Leave(2, 1), "ok"),
        at(750, Call::Leave(2, 1), "refused 21"),
    ];
    expect_life(
        &rt,
        refused.as_slice(),
        "dealt 0 2=live; dealt 1 2=live; cleared 2 0 1 by 1:1; ",
    )?;
    // A queue of an earlier run is none of this one's.
    let alloc = rt.alloc();
    let mut hub = Hub::new(alloc, PlainPipe::new(alloc), 2, DealNo(5));
    let now = Moment::new(100).ok_or("a moment")?;
    assert_eq!(rt; hub.next(), DealNo(5));
    assert_eq!(rt;
        hub.register(UserId(2), now),
        Ok(QueueId { run: 2, number: 1 })
    );
    let earlier = QueueId { run: 1, number: 1 };
    assert_eq!(rt; hub.leave(UserId(2), earlier, now), Err(HubFault::BadQueue));
    Ok(())
}

#[test]
fn a_sweep_takes_the_lowest_user(rt: HostRuntime) -> Result<(), Fail> {
    let users = [
        at(100, Call::Register(5), "queue 1:1"),
        at(100, Call::Register(3), "queue 1:2"),
        at(101, Call::Register(4), "queue 1:3"),
        at(701, Call::Sweep, "ended 3 queues=1"),
        at(701, Call::Sweep, "ended 5 queues=1"),
        at(701, Call::Sweep, "none overdue 702"),
    ];
    expect_life(&rt, users.as_slice(), "")
}
