use crate::{Judged, PushQueue, judge};
use chat_model::{Cause, List, MessageId, PushItem, Settings, UserId};
use std::test::Fail;

fn notify(message: u64) -> PushItem {
    PushItem::Notify {
        user: UserId(2),
        message: MessageId(message),
    }
}

#[test]
fn items_leave_in_the_order_in_which_they_came(rt: HostRuntime) -> Result<(), Fail> {
    let mut queue = PushQueue::new(rt.alloc());
    assert!(rt; queue.oldest().is_none());
    queue.reserve(3, 0)?;
    queue.add(notify(7));
    queue.add(notify(5));
    queue.add(PushItem::Remove {
        user: UserId(2),
        messages: List::new(rt.alloc()),
    });
    for expected in [7, 5] {
        match queue.oldest() {
            Some(PushItem::Notify { message, .. }) => assert_eq!(rt; message.0, expected),
            _ => panic!(rt; "another item"),
        }
        queue.drop_oldest();
    }
    assert!(rt; matches!(queue.oldest(), Some(PushItem::Remove { .. })));
    queue.drop_oldest();
    assert!(rt; queue.oldest().is_none());
    Ok(())
}

#[test]
fn flags_are_of_a_user_and_a_message(rt: HostRuntime) -> Result<(), Fail> {
    let mut queue = PushQueue::new(rt.alloc());
    queue.reserve(0, 2)?;
    queue.set_active(UserId(2), MessageId(1));
    queue.set_active(UserId(1), MessageId(3));
    assert!(rt; queue.is_active(UserId(1), MessageId(3)));
    assert!(rt; queue.is_active(UserId(2), MessageId(1)));
    assert!(rt; !queue.is_active(UserId(1), MessageId(1)));
    assert!(rt; !queue.is_active(UserId(2), MessageId(3)));
    queue.clear_active(UserId(2), MessageId(1));
    assert!(rt; !queue.is_active(UserId(2), MessageId(1)));
    assert!(rt; queue.is_active(UserId(1), MessageId(3)));
    Ok(())
}

/// What bars a push, whether the user wants pushes of mentions, whether pushes while online, and what becomes of it.
const TABLE: [(Option<Cause>, bool, bool, Judged); 7] = [
    (None, true, true, Judged::Hand),
    (None, true, false, Judged::Hand),
    (None, false, true, Judged::Hand),
    (None, false, false, Judged::Drop(Cause::SwitchedOff)),
    (Some(Cause::Read), true, true, Judged::Drop(Cause::Read)),
    (Some(Cause::Read), false, false, Judged::Drop(Cause::Read)),
    (
        Some(Cause::Deleted),
        true,
        false,
        Judged::Drop(Cause::Deleted),
    ),
];

#[test]
fn a_push_is_dropped_for_its_bar_and_else_by_the_switch(rt: HostRuntime) {
    for (bar, mentions, online, judged) in TABLE {
        let mut settings = Settings::default();
        settings.push_mentions = mentions;
        settings.push_online = online;
        assert_eq!(rt; judge(bar, &settings), judged);
    }
}
