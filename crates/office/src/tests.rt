//! Each call once, with ample memory, and what no script shows of a request and of a turn.
use crate::test_team::{
    Said, add_user, counts, dealt, first_sent, in_flight, join_and_mention, join_team, mention,
    moment, no_counts, start_failing, subscription,
};
use crate::{Absorbed, AskFault, MailAnswer, Office, PushAnswer, StepFault, kept_journal};
use chat_model::{Answer, Deal, DealNo, List, MessageId, Refusal, Trigger, UserId, Verdict};
use keeper::MemoryKeeper;
use std::alloc::Global;
use std::process::Abort;
use std::test::Fail;

// What the office says of itself behind the mention.
fn look(rt: &impl Abort, office: &Office<MemoryKeeper>) {
    assert_eq!(rt; office.last_stamp(), moment(rt, 100));
    assert_eq!(rt; office.journal().len(), 7);
    assert_eq!(rt; office.audit(), in_flight(2));
    assert_eq!(rt; office.run_number(), 1);
    assert_eq!(rt; office.deal_count(), DealNo(1));
    assert!(rt; office.knows(UserId(2)));
    assert!(rt; !office.knows(UserId(3)));
    assert!(rt; !office.is_fresh());
}

fn find_deals(rt: &impl Abort, alloc: Global, office: &Office<MemoryKeeper>) -> Result<(), Fail> {
    let mut users = List::new(alloc);
    users.push(UserId(2))?;
    let first = Deal {
        number: DealNo(0),
        message: MessageId(1),
        users,
    };
    assert_eq!(rt; office.next_deal(DealNo(0)), Ok(Some(first)));
    assert_eq!(rt; office.next_deal(DealNo(1)), Ok(None));
    Ok(())
}

fn absorb_idle(
    rt: &impl Abort,
    alloc: Global,
    office: &mut Office<MemoryKeeper>,
) -> Result<(), Fail> {
    let mut said = Said::once(alloc, dealt(alloc, Verdict::Idle)?);
    let absorbed = office.absorb(&mut said, moment(rt, 100));
    assert_eq!(rt;
        absorbed,
        Ok(Absorbed::Outcome(dealt(alloc, Verdict::Idle)?))
    );
    assert_eq!(rt; office.audit(), counts(2, 0));
    Ok(())
}

fn mail(rt: &impl Abort, office: &mut Office<MemoryKeeper>) {
    let early = office.mail_turn(moment(rt, 219));
    assert_eq!(rt; early, Ok(MailAnswer::NotDue(Some(220))));
    let mailed = MailAnswer::Mailed {
        user: UserId(2),
        entries: 1,
        dropped: 0,
    };
    assert_eq!(rt; office.mail_turn(moment(rt, 220)), Ok(mailed));
    assert_eq!(rt;
        office.mail_turn(moment(rt, 220)),
        Ok(MailAnswer::NotDue(None))
    );
    assert_eq!(rt; office.audit(), counts(1, 1));
}

fn push(rt: &impl Abort, office: &mut Office<MemoryKeeper>) {
    let pushed = PushAnswer::Pushed {
        user: UserId(2),
        message: MessageId(1),
        trigger: Trigger::Mention,
    };
    assert_eq!(rt; office.push_turn(moment(rt, 220)), Ok(pushed));
    assert_eq!(rt;
        office.push_turn(moment(rt, 220)),
        Ok(PushAnswer::NothingReady)
    );
    assert_eq!(rt; office.audit(), counts(0, 2));
}

// So many events are kept, with the rows that follow from them.
fn expect_kept(rt: &impl Abort, alloc: Global, keeper: &mut MemoryKeeper, events: usize) {
    match kept_journal(alloc, keeper) {
        Ok(journal) => assert_eq!(rt; journal.as_slice().len(), events),
        Err(_) => panic!(rt; "what is kept was not loaded"),
    }
}

fn expect_kept_by(rt: &impl Abort, alloc: Global, office: Office<MemoryKeeper>, events: usize) {
    let mut keeper = office.close();
    expect_kept(rt, alloc, &mut keeper, events);
}

#[test]
fn each_call_answers_with_ample_memory(rt: HostRuntime) -> Result<(), Fail> {
    let alloc = rt.alloc();
    let mut office = start_failing(&rt, alloc, &[])?;
    join_and_mention(&rt, alloc, &mut office)?;
    look(&rt, &office);
    find_deals(&rt, alloc, &office)?;
    absorb_idle(&rt, alloc, &mut office)?;
    mail(&rt, &mut office);
    push(&rt, &mut office);
    expect_kept_by(&rt, alloc, office, 10);
    Ok(())
}

// The keeper fails at a mention, and then at the turns of the next one, which are its eleventh call and the one behind it.
fn fail_to_keep(
    rt: &impl Abort,
    alloc: Global,
    office: &mut Office<MemoryKeeper>,
) -> Result<(), Fail> {
    join_team(rt, alloc, office)?;
    let fault = office.ask(mention(alloc)?, moment(rt, 100));
    assert_eq!(rt; fault, Err(AskFault::KeeperFault));
    assert_eq!(rt; office.journal().len(), 6);
    assert_eq!(rt; office.audit(), no_counts());
    let sent = office.ask(mention(alloc)?, moment(rt, 100));
    assert_eq!(rt; sent, Ok(first_sent()));
    absorb_idle(rt, alloc, office)?;
    let turn = office.mail_turn(moment(rt, 220));
    assert_eq!(rt; turn, Err(StepFault::KeeperFault));
    let turn = office.push_turn(moment(rt, 220));
    assert_eq!(rt; turn, Err(StepFault::KeeperFault));
    assert_eq!(rt; office.journal().len(), 8);
    assert_eq!(rt; office.audit(), counts(2, 0));
    Ok(())
}

#[test]
fn a_failed_commit_leaves_the_journal_the_counts_and_what_is_kept(
    rt: HostRuntime,
) -> Result<(), Fail> {
    let alloc = rt.alloc();
    let mut office = start_failing(&rt, alloc, &[8, 11, 12])?;
    fail_to_keep(&rt, alloc, &mut office)?;
    expect_kept_by(&rt, alloc, office, 8);
    Ok(())
}

fn add_subscriber(
    rt: &impl Abort,
    alloc: Global,
    office: &mut Office<MemoryKeeper>,
    user: u64,
) -> Result<(), Fail> {
    let now = moment(rt, 100);
    let added = office.ask(add_user(alloc, "Cy")?, now);
    assert_eq!(rt; added, Ok(Answer::User(UserId(user))));
    assert_eq!(rt; office.ask(subscription(user, true), now), Ok(Answer::Done));
    Ok(())
}

fn send_to_all(
    rt: &impl Abort,
    alloc: Global,
    office: &mut Office<MemoryKeeper>,
) -> Result<(), Fail> {
    let now = moment(rt, 100);
    let refused = office.ask(mention(alloc)?, now);
    let too_many = Refusal::TooMany { limit: 10_000 };
    assert_eq!(rt; refused, Err(AskFault::Refused(too_many)));
    assert_eq!(rt;
        office.ask(subscription(10_001, false), now),
        Ok(Answer::Done)
    );
    assert_eq!(rt; office.ask(mention(alloc)?, now), Ok(first_sent()));
    Ok(())
}

fn fill_channel(
    rt: &impl Abort,
    alloc: Global,
    office: &mut Office<MemoryKeeper>,
) -> Result<(), Fail> {
    join_team(rt, alloc, office)?;
    for user in 3..=10_001 {
        add_subscriber(rt, alloc, office, user)?;
    }
    send_to_all(rt, alloc, office)
}

#[test]
fn a_message_to_more_than_ten_thousand_subscribers_is_refused(rt: HostRuntime) -> Result<(), Fail> {
    let alloc = rt.alloc();
    let mut office = start_failing(&rt, alloc, &[])?;
    fill_channel(&rt, alloc, &mut office)
}
