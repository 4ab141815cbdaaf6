//! The outcome in hand: after a fault it is absorbed first, and a start forgets it.
use crate::test_team::{
    Said, cleared, counts, dealt, in_flight, join_and_mention, moment, no_counts, start,
    start_failing,
};
use crate::{Absorbed, Office, StepFault};
use chat_model::{Counts, Outcome, Verdict};
use keeper::MemoryKeeper;
use std::alloc::Global;
use std::process::Abort;
use std::test::Fail;

// The keeper fails at the next commit. The outcome stays in hand, and all else is as it was.
fn fail_to_absorb(
    rt: &impl Abort,
    alloc: Global,
    office: &mut Office<MemoryKeeper>,
    outcome: Outcome,
) {
    let mut said = Said::once(alloc, outcome);
    let fault = office.absorb(&mut said, moment(rt, 110));
    assert_eq!(rt; fault, Err(StepFault::KeeperFault));
    assert_eq!(rt; office.journal().len(), 7);
    assert_eq!(rt; office.last_stamp(), moment(rt, 100));
    assert_eq!(rt; office.audit(), in_flight(2));
}

fn both_held() -> Counts {
    Counts {
        held: 2,
        ..no_counts()
    }
}

fn both_seen() -> Counts {
    Counts {
        live: 2,
        ..no_counts()
    }
}

// The next outcome is absorbed, and the notices stand so.
fn absorb_next(
    rt: &impl Abort,
    office: &mut Office<MemoryKeeper>,
    said: &mut Said,
    outcome: Outcome,
    counts: Counts,
) {
    let absorbed = office.absorb(said, moment(rt, 111));
    assert_eq!(rt; absorbed, Ok(Absorbed::Outcome(outcome)));
    assert_eq!(rt; office.audit(), counts);
}

// What is in hand is absorbed first, then what the hub says now. The keeper's ninth call fails.
fn absorb_after_fault(
    rt: &impl Abort,
    alloc: Global,
    office: &mut Office<MemoryKeeper>,
) -> Result<(), Fail> {
    join_and_mention(rt, alloc, office)?;
    fail_to_absorb(rt, alloc, office, dealt(alloc, Verdict::Live)?);
    let mut said = Said::once(alloc, cleared(alloc)?);
    let in_hand = dealt(alloc, Verdict::Live)?;
    absorb_next(rt, office, &mut said, in_hand, both_held());
    absorb_next(rt, office, &mut said, cleared(alloc)?, both_seen());
    let absorbed = office.absorb(&mut said, moment(rt, 112));
    assert_eq!(rt; absorbed, Ok(Absorbed::NothingWaiting));
    assert_eq!(rt; office.journal().len(), 9);
    assert_eq!(rt; office.last_stamp(), moment(rt, 111));
    Ok(())
}

#[test]
fn after_a_fault_the_outcome_is_in_hand(rt: HostRuntime) -> Result<(), Fail> {
    let alloc = rt.alloc();
    let mut office = start_failing(&rt, alloc, &[9])?;
    absorb_after_fault(&rt, alloc, &mut office)
}

// An office is fresh until an outcome is in hand or absorbed. The keeper's third call fails.
fn stale_by_outcome(
    rt: &impl Abort,
    alloc: Global,
    office: &mut Office<MemoryKeeper>,
) -> Result<(), Fail> {
    assert!(rt; office.is_fresh());
    let mut said = Said::once(alloc, cleared(alloc)?);
    let fault = office.absorb(&mut said, moment(rt, 100));
    assert_eq!(rt; fault, Err(StepFault::KeeperFault));
    assert!(rt; !office.is_fresh());
    absorb_next(rt, office, &mut said, cleared(alloc)?, no_counts());
    assert!(rt; !office.is_fresh());
    Ok(())
}

#[test]
fn an_office_with_an_outcome_absorbed_or_in_hand_is_not_fresh(rt: HostRuntime) -> Result<(), Fail> {
    let alloc = rt.alloc();
    let mut office = start_failing(&rt, alloc, &[3])?;
    stale_by_outcome(&rt, alloc, &mut office)
}

// Nothing is in hand, and what was in flight is ready.
fn has_started_again(rt: &impl Abort, office: &Office<MemoryKeeper>) {
    assert!(rt; office.is_fresh());
    assert_eq!(rt; office.run_number(), 2);
    assert_eq!(rt; office.audit(), counts(2, 0));
}

#[test]
fn a_start_after_a_fault_makes_ready_what_was_in_hand(rt: HostRuntime) -> Result<(), Fail> {
    let alloc = rt.alloc();
    let mut office = start_failing(&rt, alloc, &[9])?;
    join_and_mention(&rt, alloc, &mut office)?;
    fail_to_absorb(&rt, alloc, &mut office, cleared(alloc)?);
    let again = start(&rt, alloc, office.close())?;
    has_started_again(&rt, &again);
    Ok(())
}
