use crate::audit;
use crate::kept::lawful_events;
use crate::order::{in_order, is_in_order};
use crate::push_tests::push;
use crate::pushes::waiting_items;
use crate::refused::refusal;
use crate::revocations::{RevokedPush, removals_at};
use crate::slow_tests::{
    add, add_user, cleared, counts, dealt, in_flight, lunch, missed, send, send_by, set,
    subscription,
};
use chat_model::{
    Cause, Counts, Event, List, MessageId, PushItem, Refusal, Request, SettingChange, Stamped,
    Text, UserId, UserName, Verdict,
};
use std::alloc::Global;
use std::process::Abort;
use std::test::Fail;

fn read(alloc: Global, user: u64, message: u64) -> Result<Request, Fail> {
    let mut messages = List::new(alloc);
    messages.push(MessageId(message))?;
    Ok(Request::Read {
        user: UserId(user),
        messages,
    })
}

fn delete(user: u64, message: u64) -> Request {
    Request::Delete {
        user: UserId(user),
        message: MessageId(message),
    }
}

fn remove(alloc: Global, user: u64, message: u64) -> Result<Event, Fail> {
    let mut messages = List::new(alloc);
    messages.push(MessageId(message))?;
    Ok(Event::PushTurn(PushItem::Remove {
        user: UserId(user),
        messages,
    }))
}

// Ben's read of Ada's first message, or its deletion by Ada.
fn barring(alloc: Global, cause: Cause) -> Result<Event, Fail> {
    match cause {
        Cause::Deleted => Ok(Event::Asked(delete(1, 1))),
        _ => Ok(Event::Asked(read(alloc, 2, 1)?)),
    }
}

// The way of Ada's message at second 100: dealt, made ready, mailed, pushed, and the push removed.
fn step(rt: &impl Abort, alloc: Global, journal: &mut Vec<Stamped>, k: u64) -> Result<(), Fail> {
    match k {
        0 => add(rt, journal, 100, dealt(alloc, 0, Verdict::Live)?),
        1 => add(rt, journal, 150, missed(alloc, 1)?),
        2 => add(rt, journal, 270, Event::MailTurn(UserId(2))),
        3 => add(rt, journal, 270, push(2, 1)),
        _ => add(rt, journal, 270, remove(alloc, 2, 1)?),
    }
}

// The second of an event before this step.
fn second_before(k: u64) -> u64 {
    match k {
        0 | 1 => 100,
        2 => 150,
        _ => 270,
    }
}

// Ada's message, which is barred with these causes before these steps.
fn barred(rt: &impl Abort, alloc: Global, bars: &[(u64, Cause)]) -> Result<Vec<Stamped>, Fail> {
    let mut journal = lunch(rt, alloc)?;
    for k in 0..6 {
        for (before, cause) in bars {
            if *before == k {
                add(rt, &mut journal, second_before(k), barring(alloc, *cause)?)?;
            }
        }
        if k < 5 {
            step(rt, alloc, &mut journal, k)?;
        }
    }
    Ok(journal)
}

// So many notices are cancelled with the cause, and so many were handed, each in an entry.
fn cancelled(cause: Cause, cancelled: u64, handed: u64) -> Counts {
    let mut found = counts(0, handed);
    match cause {
        Cause::Deleted => found.deleted = cancelled,
        _ => found.read = cancelled,
    }
    found
}

// The counts of the journal, of whose events so many are lawful.
fn expect(
    rt: &impl Abort,
    alloc: Global,
    journal: &[Stamped],
    found: Counts,
    lawful: usize,
) -> Result<(), Fail> {
    assert_eq!(rt; audit(alloc, journal)?, found);
    assert_eq!(rt; lawful_events(alloc, journal)?.len(), lawful);
    Ok(())
}

fn expect_barred_before_each_step(
    rt: &impl Abort,
    alloc: Global,
    cause: Cause,
) -> Result<(), Fail> {
    // Before the deal, and between the deal and what makes the notices ready: neither turn comes.
    for k in 0..2 {
        let journal = barred(rt, alloc, &[(k, cause)])?;
        expect(rt, alloc, &journal, cancelled(cause, 2, 0), 10)?;
    }
    // Ready: both turns come and drop the notices.
    let journal = barred(rt, alloc, &[(2, cause)])?;
    expect(rt, alloc, &journal, cancelled(cause, 2, 0), 12)?;
    // After the mail turn.
    let journal = barred(rt, alloc, &[(3, cause)])?;
    expect(rt, alloc, &journal, cancelled(cause, 1, 1), 12)?;
    // After the push turn, with the removal, which adds an entry.
    let journal = barred(rt, alloc, &[(4, cause)])?;
    let mut revoked = counts(0, 2);
    revoked.entries = 3;
    revoked.written = 1;
    expect(rt, alloc, &journal, revoked, 13)?;
    // After the push turn, and before the removal.
    let journal = barred(rt, alloc, &[(5, cause)])?;
    let mut waits = counts(0, 2);
    waits.waiting = 1;
    expect(rt, alloc, &journal, waits, 12)
}

#[test]
fn what_was_read_is_cancelled_or_revoked(rt: HostRuntime) -> Result<(), Fail> {
    expect_barred_before_each_step(&rt, rt.alloc(), Cause::Read)
}

#[test]
fn what_was_deleted_is_cancelled_or_revoked(rt: HostRuntime) -> Result<(), Fail> {
    expect_barred_before_each_step(&rt, rt.alloc(), Cause::Deleted)
}

#[test]
fn the_first_bar_gives_the_cause(rt: HostRuntime) -> Result<(), Fail> {
    let alloc = rt.alloc();
    for k in 0..3 {
        let lawful = if k < 2 { 10 } else { 12 };
        // A deletion after a read is lawful, and a read after a deletion is not.
        let journal = barred(&rt, alloc, &[(k, Cause::Read), (k, Cause::Deleted)])?;
        expect(
            &rt,
            alloc,
            &journal,
            cancelled(Cause::Read, 2, 0),
            lawful + 1,
        )?;
        let journal = barred(&rt, alloc, &[(k, Cause::Deleted), (k, Cause::Read)])?;
        expect(
            &rt,
            alloc,
            &journal,
            cancelled(Cause::Deleted, 2, 0),
            lawful,
        )?;
    }
    Ok(())
}

#[test]
fn a_push_is_revoked_once(rt: HostRuntime) -> Result<(), Fail> {
    let alloc = rt.alloc();
    let mut revoked = counts(0, 2);
    revoked.entries = 3;
    revoked.written = 1;
    for second in [Cause::Read, Cause::Deleted] {
        // Before the removal, and after it.
        for k in 4..6 {
            let mut journal = barred(&rt, alloc, &[(4, Cause::Read), (k, second)])?;
            // A second removal isn't lawful.
            add(&rt, &mut journal, 270, remove(alloc, 2, 1)?)?;
            expect(&rt, alloc, &journal, revoked, 14)?;
        }
    }
    Ok(())
}

#[test]
fn a_bar_before_the_push_turn_revokes_nothing_later(rt: HostRuntime) -> Result<(), Fail> {
    let alloc = rt.alloc();
    let journal = barred(&rt, alloc, &[(3, Cause::Read), (5, Cause::Deleted)])?;
    expect(&rt, alloc, &journal, cancelled(Cause::Read, 1, 1), 13)?;
    Ok(())
}

#[test]
fn a_read_of_another_user_bars_nothing(rt: HostRuntime) -> Result<(), Fail> {
    let alloc = rt.alloc();
    let mut journal = Vec::new(alloc);
    add(&rt, &mut journal, 0, Event::Restart)?;
    for event in lunch(&rt, alloc)?.iter().skip(1).take(2) {
        journal.push(event.copy(alloc)?)?;
    }
    add(&rt, &mut journal, 0, add_user(alloc, "Cleo")?)?;
    for event in lunch(&rt, alloc)?.iter().skip(3) {
        journal.push(event.copy(alloc)?)?;
    }
    // Cleo didn't receive the message, so the read isn't lawful.
    add(&rt, &mut journal, 100, Event::Asked(read(alloc, 3, 1)?))?;
    expect(&rt, alloc, &journal, in_flight(2), 8)?;
    // The sender may read it.
    add(&rt, &mut journal, 100, Event::Asked(read(alloc, 1, 1)?))?;
    expect(&rt, alloc, &journal, in_flight(2), 9)?;
    // Cleo received the next one, and isn't mentioned.
    add(&rt, &mut journal, 100, subscription(3))?;
    add(&rt, &mut journal, 100, send(alloc, "again @**Ben**")?)?;
    add(&rt, &mut journal, 100, Event::Asked(read(alloc, 3, 2)?))?;
    expect(&rt, alloc, &journal, in_flight(4), 12)?;
    // A subscription after the send doesn't make Cleo a recipient of the first.
    add(&rt, &mut journal, 100, Event::Asked(read(alloc, 3, 1)?))?;
    expect(&rt, alloc, &journal, in_flight(4), 12)
}

#[test]
fn what_a_queue_cleared_counts_as_read_afterwards(rt: HostRuntime) -> Result<(), Fail> {
    let alloc = rt.alloc();
    let mut journal = lunch(&rt, alloc)?;
    add(&rt, &mut journal, 100, cleared(alloc, 0)?)?;
    add(&rt, &mut journal, 100, barring(alloc, Cause::Read)?)?;
    expect(&rt, alloc, &journal, cancelled(Cause::Read, 2, 0), 9)
}

#[test]
fn what_a_turn_switched_off_is_not_read_afterwards(rt: HostRuntime) -> Result<(), Fail> {
    let alloc = rt.alloc();
    let mut journal = lunch(&rt, alloc)?;
    add(
        &rt,
        &mut journal,
        100,
        set(SettingChange::MailMentions(false)),
    )?;
    add(&rt, &mut journal, 100, dealt(alloc, 0, Verdict::Idle)?)?;
    add(&rt, &mut journal, 220, Event::MailTurn(UserId(2)))?;
    add(&rt, &mut journal, 220, barring(alloc, Cause::Read)?)?;
    let mut found = cancelled(Cause::Read, 1, 0);
    found.off = 1;
    expect(&rt, alloc, &journal, found, 11)
}

// Ben takes part in the topic by one message, which Ada answers by a wildcard.
#[test]
fn who_deleted_a_message_takes_no_part_by_it(rt: HostRuntime) -> Result<(), Fail> {
    let alloc = rt.alloc();
    let mut journal = lunch(&rt, alloc)?;
    let plain = send_by(alloc, 2, "LUNCH", "yes")?;
    add(&rt, &mut journal, 100, plain)?;
    add(&rt, &mut journal, 100, send(alloc, "@**topic** hi")?)?;
    assert_eq!(rt; audit(alloc, &journal)?, in_flight(4));
    // Ada's own message can't be deleted by Ben, and Ben's own is.
    add(&rt, &mut journal, 100, Event::Asked(delete(2, 1)))?;
    add(&rt, &mut journal, 100, Event::Asked(delete(2, 2)))?;
    add(&rt, &mut journal, 100, send(alloc, "@**topic** hi")?)?;
    assert_eq!(rt; audit(alloc, &journal)?, in_flight(4));
    Ok(())
}

#[test]
fn a_read_and_a_deletion_are_refused(rt: HostRuntime) -> Result<(), Fail> {
    let alloc = rt.alloc();
    let mut journal = lunch(&rt, alloc)?;
    assert_eq!(rt; refusal(&journal, &delete(1, 1)), None);
    assert_eq!(rt; refusal(&journal, &delete(3, 1)), Some(Refusal::NoUser));
    assert_eq!(rt; refusal(&journal, &delete(2, 1)), Some(Refusal::NotSender));
    for message in [0, 2] {
        assert_eq!(rt;
            refusal(&journal, &delete(2, message)),
            Some(Refusal::NoMessage)
        );
        let request = read(alloc, 2, message)?;
        assert_eq!(rt; refusal(&journal, &request), Some(Refusal::NoMessage));
    }
    assert_eq!(rt; refusal(&journal, &read(alloc, 2, 1)?), None);
    assert_eq!(rt;
        refusal(&journal, &read(alloc, 3, 1)?),
        Some(Refusal::NoUser)
    );
    add(&rt, &mut journal, 100, Event::Asked(delete(1, 1)))?;
    assert_eq!(rt; refusal(&journal, &delete(1, 1)), Some(Refusal::NoMessage));
    assert_eq!(rt;
        refusal(&journal, &read(alloc, 2, 1)?),
        Some(Refusal::NoMessage)
    );
    Ok(())
}

// A read of the message so many times.
fn read_often(alloc: Global, message: u64, times: u64) -> Result<Request, Fail> {
    let mut messages = List::new(alloc);
    for _ in 0..times {
        messages.push(MessageId(message))?;
    }
    Ok(Request::Read {
        user: UserId(2),
        messages,
    })
}

#[test]
fn a_read_names_ten_thousand_messages_at_most(rt: HostRuntime) -> Result<(), Fail> {
    let alloc = rt.alloc();
    let journal = lunch(&rt, alloc)?;
    assert_eq!(rt; refusal(&journal, &read_often(alloc, 1, 10_000)?), None);
    let too_many = Some(Refusal::TooMany { limit: 10_000 });
    assert_eq!(rt; refusal(&journal, &read_often(alloc, 1, 10_001)?), too_many);
    // Of two broken rules the one of the lesser number.
    let no_message = Some(Refusal::NoMessage);
    assert_eq!(rt;
        refusal(&journal, &read_often(alloc, 2, 10_001)?),
        no_message
    );
    Ok(())
}

#[test]
fn the_messages_of_a_read_ascend_once_each(rt: HostRuntime) -> Result<(), Fail> {
    let alloc = rt.alloc();
    let mut messages = List::new(alloc);
    for message in [3, 1, 3, 2] {
        messages.push(MessageId(message))?;
    }
    let user = UserId(2);
    let request = Request::Read { user, messages };
    assert!(rt; !is_in_order(&request));
    let request = in_order(request);
    assert!(rt; is_in_order(&request));
    match &request {
        Request::Read { messages, .. } => {
            let ascending = [MessageId(1), MessageId(2), MessageId(3)];
            assert_eq!(rt; messages.as_slice(), ascending.as_slice());
        }
        _ => panic!(rt; "another request"),
    }
    Ok(())
}

#[test]
fn a_read_that_does_not_ascend_does_not_count(rt: HostRuntime) -> Result<(), Fail> {
    let alloc = rt.alloc();
    let mut journal = lunch(&rt, alloc)?;
    add(
        &rt,
        &mut journal,
        100,
        Event::Asked(read_often(alloc, 1, 2)?),
    )?;
    expect(&rt, alloc, &journal, in_flight(2), 7)
}

// The items remove pushes to Ben: message by message from the first, in parts of these sizes.
fn expect_parts(rt: &impl Abort, items: &[PushItem], sizes: &[usize]) -> Result<(), Fail> {
    assert_eq!(rt; items.len(), sizes.len());
    let mut next = 1;
    for i in 0..items.len() {
        match &items[i] {
            PushItem::Remove { user, messages } => {
                assert_eq!(rt; *user, UserId(2));
                assert_eq!(rt; messages.len(), sizes[i]);
                for message in messages.as_slice() {
                    assert_eq!(rt; message.0, next);
                    next = message.0.saturating_add(1);
                }
            }
            PushItem::Notify { .. } => panic!(rt; "another item"),
        }
    }
    Ok(())
}

// The removals of so many pushes to Ben that the event at place 7 revokes, the last message first, with pushes of another
// user and of another event beside them.
fn expect_removals(
    rt: &impl Abort,
    alloc: Global,
    count: u64,
    sizes: &[usize],
) -> Result<(), Fail> {
    let mut revoked = Vec::new(alloc);
    for k in 0..count {
        for (user, place) in [(1, 7), (2, 6), (2, 7)] {
            revoked.push(RevokedPush {
                user: UserId(user),
                message: MessageId(count - k),
                place,
            })?;
        }
    }
    let mut users = Vec::new(alloc);
    users.push(UserName {
        id: UserId(2),
        name: Text::from_str(alloc, "Ben")?,
    })?;
    let items = removals_at(alloc, &users, &revoked, 7)?;
    expect_parts(rt, &items, sizes)
}

#[test]
fn removals_are_in_parts_of_200(rt: HostRuntime) -> Result<(), Fail> {
    let alloc = rt.alloc();
    expect_removals(&rt, alloc, 0, &[])?;
    expect_removals(&rt, alloc, 1, &[1])?;
    expect_removals(&rt, alloc, 200, &[200])?;
    expect_removals(&rt, alloc, 201, &[200, 1])?;
    expect_removals(&rt, alloc, 400, &[200, 200])?;
    expect_removals(&rt, alloc, 401, &[200, 200, 1])?;
    Ok(())
}

// Ben's read of the first messages, so many of them, of which each was pushed.
fn read_of_pushed(rt: &impl Abort, alloc: Global, count: u64) -> Result<Vec<Stamped>, Fail> {
    let mut journal = lunch(rt, alloc)?;
    for _ in 1..count {
        add(rt, &mut journal, 100, send(alloc, "@**Ben**")?)?;
    }
    add(rt, &mut journal, 150, Event::Restart)?;
    let mut messages = List::new(alloc);
    for k in 0..count {
        add(rt, &mut journal, 150, push(2, k + 1))?;
        messages.push(MessageId(k + 1))?;
    }
    let user = UserId(2);
    add(
        rt,
        &mut journal,
        150,
        Event::Asked(Request::Read { user, messages }),
    )?;
    Ok(journal)
}

#[test]
fn a_read_revokes_hundreds_of_pushes(rt: HostRuntime) -> Result<(), Fail> {
    let alloc = rt.alloc();
    let journal = read_of_pushed(&rt, alloc, 401)?;
    expect_parts(&rt, &waiting_items(alloc, &journal)?, &[200, 200, 1])?;
    Ok(())
}

// Ben and Cleo are pushed two messages each, and Ada deletes the second; a removal is by user.
#[test]
fn a_deletion_revokes_by_user(rt: HostRuntime) -> Result<(), Fail> {
    let alloc = rt.alloc();
    let mut journal = lunch(&rt, alloc)?;
    add(&rt, &mut journal, 100, add_user(alloc, "Cleo")?)?;
    add(&rt, &mut journal, 100, subscription(3))?;
    add(
        &rt,
        &mut journal,
        100,
        send(alloc, "hi @**Ben** @**Cleo**")?,
    )?;
    add(&rt, &mut journal, 150, Event::Restart)?;
    for (user, message) in [(2, 1), (2, 2), (3, 2)] {
        add(&rt, &mut journal, 150, push(user, message))?;
    }
    add(&rt, &mut journal, 150, Event::Asked(delete(1, 2)))?;
    let mut found = counts(1, 3);
    found.deleted = 2;
    found.waiting = 2;
    assert_eq!(rt; audit(alloc, &journal)?, found);
    // Cleo's removal isn't the first.
    add(&rt, &mut journal, 150, remove(alloc, 3, 2)?)?;
    assert_eq!(rt; audit(alloc, &journal)?, found);
    add(&rt, &mut journal, 150, remove(alloc, 2, 2)?)?;
    found.entries = 4;
    found.waiting = 1;
    found.written = 1;
    assert_eq!(rt; audit(alloc, &journal)?, found);
    add(&rt, &mut journal, 150, remove(alloc, 3, 2)?)?;
    found.entries = 5;
    found.waiting = 0;
    found.written = 2;
    assert_eq!(rt; audit(alloc, &journal)?, found);
    Ok(())
}

#[test]
fn a_row_that_was_read_still_settles_the_due_moment(rt: HostRuntime) -> Result<(), Fail> {
    let alloc = rt.alloc();
    let mut journal = lunch(&rt, alloc)?;
    add(&rt, &mut journal, 100, send(alloc, "again @**Ben**")?)?;
    add(&rt, &mut journal, 100, dealt(alloc, 0, Verdict::Idle)?)?;
    add(&rt, &mut journal, 150, missed(alloc, 2)?)?;
    add(&rt, &mut journal, 200, barring(alloc, Cause::Read)?)?;
    let mut found = cancelled(Cause::Read, 2, 0);
    found.ready = 2;
    // Two minutes after the first message was ready, and no sooner.
    add(&rt, &mut journal, 219, Event::MailTurn(UserId(2)))?;
    expect(&rt, alloc, &journal, found, 11)?;
    add(&rt, &mut journal, 220, Event::MailTurn(UserId(2)))?;
    // The mail has the second message alone.
    found.ready = 1;
    found.handed = 1;
    found.entries = 1;
    expect(&rt, alloc, &journal, found, 12)
}
