use crate::audit;
use crate::slow_tests::{add, add_user, counts, dealt, lunch, missed, send, set, subscription};
use chat_model::{Event, List, MessageId, PushItem, SettingChange, Stamped, UserId, Verdict};
use std::alloc::Global;
use std::process::Abort;
use std::test::Fail;

pub fn push(user: u64, message: u64) -> Event {
    Event::PushTurn(PushItem::Notify {
        user: UserId(user),
        message: MessageId(message),
    })
}

// The push turn comes at second 200, and so many notices were handed over then.
fn expect_push(
    rt: &impl Abort,
    alloc: Global,
    journal: &mut Vec<Stamped>,
    user: u64,
    message: u64,
    handed: u64,
) -> Result<(), Fail> {
    add(rt, journal, 200, push(user, message))?;
    assert_eq!(rt; audit(alloc, journal)?.handed, handed, "{user} {message}");
    Ok(())
}

// Ada's two messages to Ben and Cleo, at second 100.
fn two_to_both(rt: &impl Abort, alloc: Global) -> Result<Vec<Stamped>, Fail> {
    let mut journal = lunch(rt, alloc)?;
    add(rt, &mut journal, 100, add_user(alloc, "Cleo")?)?;
    add(rt, &mut journal, 100, subscription(3))?;
    for _ in 0..2 {
        let event = send(alloc, "hi @**Ben** @**Cleo**")?;
        add(rt, &mut journal, 100, event)?;
    }
    Ok(journal)
}

#[test]
fn pushes_of_one_event_are_by_user_then_message(rt: HostRuntime) -> Result<(), Fail> {
    let alloc = rt.alloc();
    let mut journal = two_to_both(&rt, alloc)?;
    add(&rt, &mut journal, 150, Event::Restart)?;
    // Ben is owed a notice of each of the three messages, Cleo of the last two. A turn out of this order isn't lawful.
    expect_push(&rt, alloc, &mut journal, 3, 2, 0)?;
    expect_push(&rt, alloc, &mut journal, 2, 2, 0)?;
    expect_push(&rt, alloc, &mut journal, 2, 1, 1)?;
    expect_push(&rt, alloc, &mut journal, 3, 2, 1)?;
    expect_push(&rt, alloc, &mut journal, 2, 2, 2)?;
    expect_push(&rt, alloc, &mut journal, 2, 3, 3)?;
    expect_push(&rt, alloc, &mut journal, 3, 3, 3)?;
    expect_push(&rt, alloc, &mut journal, 3, 2, 4)?;
    expect_push(&rt, alloc, &mut journal, 3, 3, 5)?;
    // Nothing waits any more.
    expect_push(&rt, alloc, &mut journal, 3, 3, 5)?;
    Ok(())
}

#[test]
fn pushes_wait_event_by_event(rt: HostRuntime) -> Result<(), Fail> {
    let alloc = rt.alloc();
    let mut journal = lunch(&rt, alloc)?;
    for _ in 0..2 {
        let event = send(alloc, "again @**Ben**")?;
        add(&rt, &mut journal, 100, event)?;
    }
    expect_push(&rt, alloc, &mut journal, 2, 1, 0)?;
    // The last message is ready first, and the miss readies the two before it.
    add(&rt, &mut journal, 100, dealt(alloc, 2, Verdict::Idle)?)?;
    add(&rt, &mut journal, 100, missed(alloc, 3)?)?;
    expect_push(&rt, alloc, &mut journal, 2, 3, 1)?;
    expect_push(&rt, alloc, &mut journal, 2, 1, 2)?;
    expect_push(&rt, alloc, &mut journal, 2, 2, 3)?;
    // No item that removes pushes waits.
    let item = PushItem::Remove {
        user: UserId(2),
        messages: List::new(alloc),
    };
    add(&rt, &mut journal, 200, Event::PushTurn(item))?;
    // The mails of the three messages are ready still.
    assert_eq!(rt; audit(alloc, &journal)?, counts(3, 3));
    Ok(())
}

// Ben's push switches: that of mentions and that of pushes while online.
fn switch(
    rt: &impl Abort,
    journal: &mut Vec<Stamped>,
    mentions: bool,
    online: bool,
) -> Result<(), Fail> {
    add(rt, journal, 100, set(SettingChange::PushMentions(mentions)))?;
    add(rt, journal, 100, set(SettingChange::PushOnline(online)))
}

// Whether Ben's push of a channel message is handed over, where both switches are on or off at the send, and each is on or
// off at the turn.
fn is_pushed(
    rt: &impl Abort,
    alloc: Global,
    at_send: bool,
    mentions: bool,
    online: bool,
) -> Result<bool, Fail> {
    let mut journal = lunch(rt, alloc)?;
    add(rt, &mut journal, 100, set(SettingChange::ChannelPush(true)))?;
    switch(rt, &mut journal, at_send, at_send)?;
    add(rt, &mut journal, 100, send(alloc, "plain")?)?;
    add(rt, &mut journal, 100, dealt(alloc, 1, Verdict::Idle)?)?;
    switch(rt, &mut journal, mentions, online)?;
    add(rt, &mut journal, 200, push(2, 2))?;
    let found = audit(alloc, &journal)?;
    assert_eq!(rt; found.off == 1, found.handed == 0);
    assert_eq!(rt; found.entries, found.handed);
    Ok(found.handed == 1)
}

#[test]
fn the_push_switches_count_as_they_are_at_the_turn(rt: HostRuntime) -> Result<(), Fail> {
    let alloc = rt.alloc();
    assert!(rt; !is_pushed(&rt, alloc, true, false, false)?);
    for (mentions, online) in [(true, true), (true, false), (false, true)] {
        assert!(rt; is_pushed(&rt, alloc, false, mentions, online)?);
    }
    Ok(())
}
