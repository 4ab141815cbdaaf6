//! A start over a keeper that fails, over events that aren't lawful, and over rows that were changed by hand.
use crate::test_team::{
    Said, counts, dealt, join_and_mention, mention, moment, start, start_failing,
};
use crate::{MailAnswer, Office, StartFault};
use chat_model::{
    Answer, DealNo, EntryNo, Event, List, MessageId, Row, RowChange, RowKey, Settings, Stage,
    Stamped, Text, Trigger, UserId, Verdict, Way, change_all,
};
use keeper::{Keeper, Kept, MemoryKeeper};
use std::alloc::Global;
use std::process::Abort;
use std::test::Fail;

// A start that fails gives its keeper back.
fn fail_to_start(rt: &impl Abort, alloc: Global, keeper: MemoryKeeper) -> MemoryKeeper {
    match Office::start(alloc, keeper, moment(rt, 100)) {
        Err((StartFault::KeeperFault, keeper)) => keeper,
        _ => panic!(rt; "no fault"),
    }
}

// At the first start the load fails, and at the second one its restart isn't kept.
#[test]
fn a_start_that_fails_leaves_what_is_kept(rt: HostRuntime) -> Result<(), Fail> {
    let alloc = rt.alloc();
    let failing = List::from(Vec::from_slice(alloc, &[1, 3])?);
    let keeper = fail_to_start(&rt, alloc, MemoryKeeper::new(alloc, failing));
    let keeper = fail_to_start(&rt, alloc, keeper);
    let office = start(&rt, alloc, keeper)?;
    assert_eq!(rt; office.journal().len(), 1);
    assert_eq!(rt; office.last_stamp(), moment(&rt, 0));
    Ok(())
}

// One mention at 100 to an idle user, mailed at 220: nine events, and five rows.
fn mail_once(
    rt: &impl Abort,
    alloc: Global,
    office: &mut Office<MemoryKeeper>,
) -> Result<(), Fail> {
    join_and_mention(rt, alloc, office)?;
    let mut said = Said::once(alloc, dealt(alloc, Verdict::Idle)?);
    let absorbed = office.absorb(&mut said, moment(rt, 100));
    assert!(rt; absorbed.is_ok());
    let mailed = office.mail_turn(moment(rt, 220));
    assert!(rt; mailed.is_ok());
    Ok(())
}

fn mailed_once(rt: &impl Abort, alloc: Global) -> Result<MemoryKeeper, Fail> {
    let mut office = start_failing(rt, alloc, &[])?;
    mail_once(rt, alloc, &mut office)?;
    Ok(office.close())
}

fn keep_unlawful(rt: &impl Abort, keeper: &mut MemoryKeeper, seconds: u64, event: Event) {
    let at = moment(rt, seconds);
    let kept = keeper.commit(&Stamped { at, event }, &[]);
    assert!(rt; kept.is_ok());
}

// The office answers as if the events that aren't lawful were not there.
fn goes_on(rt: &impl Abort, alloc: Global, office: &mut Office<MemoryKeeper>) -> Result<(), Fail> {
    assert_eq!(rt; office.last_stamp(), moment(rt, 220));
    assert_eq!(rt; office.audit(), counts(1, 1));
    let again = Answer::Sent {
        message: MessageId(2),
        deal: DealNo(1),
    };
    let sent = office.ask(mention(alloc)?, moment(rt, 230));
    assert_eq!(rt; sent, Ok(again));
    let turn = office.mail_turn(moment(rt, 900));
    assert_eq!(rt; turn, Ok(MailAnswer::NotDue(None)));
    Ok(())
}

// The one event comes before the last, and nothing is due at the other.
#[test]
fn a_start_leaves_out_events_that_are_not_lawful(rt: HostRuntime) -> Result<(), Fail> {
    let alloc = rt.alloc();
    let mut keeper = mailed_once(&rt, alloc)?;
    keep_unlawful(&rt, &mut keeper, 219, Event::Restart);
    keep_unlawful(&rt, &mut keeper, 900, Event::MailTurn(UserId(2)));
    let mut office = start(&rt, alloc, keeper)?;
    goes_on(&rt, alloc, &mut office)
}

// A keeper that keeps the same journal, and rows that were changed by hand.
fn by_hand(
    alloc: Global,
    keeper: &mut MemoryKeeper,
    changes: Vec<RowChange>,
) -> Result<MemoryKeeper, Fail> {
    let Ok(kept) = keeper.load() else {
        return Err(Fail::from("no load"));
    };
    let journal = kept.journal;
    let mut rows = kept.rows.into_vec();
    rows.reserve(changes.len())?;
    change_all(&mut rows, changes);
    let rows = List::from(rows);
    Ok(MemoryKeeper::holding(alloc, Kept { journal, rows }))
}

fn fault_at_start(rt: &impl Abort, alloc: Global, keeper: MemoryKeeper) -> StartFault {
    match Office::start(alloc, keeper, moment(rt, 300)) {
        Ok(_) => panic!(rt; "started"),
        Err((fault, _)) => fault,
    }
}

fn key_of(row: &Option<Row>) -> Option<RowKey> {
    match row {
        Some(row) => Some(row.key()),
        None => None,
    }
}

// The keys of the two rows with which the start disagreed.
fn disagreement(rt: &impl Abort, fault: &StartFault) -> (Option<RowKey>, Option<RowKey>) {
    match fault {
        StartFault::Disagree { kept, replayed } => (key_of(kept), key_of(replayed)),
        _ => panic!(rt; "no disagreement"),
    }
}

// Over the rows with these changes a start says that they differ first in rows of these keys.
fn expect_difference(
    rt: &impl Abort,
    alloc: Global,
    changes: Vec<RowChange>,
    kept: Option<RowKey>,
    replayed: Option<RowKey>,
) -> Result<(), Fail> {
    let mut keeper = mailed_once(rt, alloc)?;
    let changed = by_hand(alloc, &mut keeper, changes)?;
    let fault = fault_at_start(rt, alloc, changed);
    assert_eq!(rt; disagreement(rt, &fault), (kept, replayed));
    Ok(())
}

// A notice of another trigger than the replayed one.
fn other_push() -> Row {
    Row::Pending {
        user: UserId(2),
        message: MessageId(1),
        way: Way::Push,
        trigger: Trigger::Direct,
        deal: DealNo(0),
        stage: Stage::Ready,
    }
}

fn third_user(alloc: Global) -> Result<Row, Fail> {
    Ok(Row::User {
        id: UserId(3),
        name: Text::from_str(alloc, "Cy")?,
        bot: false,
        settings: Settings::default(),
    })
}

// Of several differences the first by table and key is told.
#[test]
fn a_start_tells_the_first_row_that_differs(rt: HostRuntime) -> Result<(), Fail> {
    let alloc = rt.alloc();
    let push = RowKey::Pending(UserId(2), MessageId(1), Way::Push);
    let entry = RowChange::Remove(RowKey::Outbox(EntryNo(1)));
    let changes = vec![in alloc; entry, RowChange::Put(other_push())]?;
    expect_difference(&rt, alloc, changes, Some(push), Some(push))?;
    let third = RowKey::User(UserId(3));
    let changes = vec![in alloc; RowChange::Remove(push), RowChange::Put(third_user(alloc)?)]?;
    expect_difference(&rt, alloc, changes, Some(third), None)?;
    let changes = vec![in alloc; RowChange::Remove(push)]?;
    expect_difference(&rt, alloc, changes, None, Some(push))
}
