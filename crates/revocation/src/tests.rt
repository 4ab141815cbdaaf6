use crate::removals;
use chat_model::{MessageId, PushItem, UserId};
use std::test::Fail;

/// How many messages each removal has where so many are revoked.
const TABLE: [(u64, &[usize]); 6] = [
    (0, &[]),
    (1, &[1]),
    (200, &[200]),
    (201, &[200, 1]),
    (400, &[200, 200]),
    (401, &[200, 200, 1]),
];

#[test]
fn removals_have_200_messages_and_the_last_the_rest(rt: HostRuntime) -> Result<(), Fail> {
    for (count, sizes) in TABLE {
        let mut messages = Vec::new(rt.alloc());
        for number in 1..=count {
            messages.push(MessageId(number))?;
        }
        let items = removals(rt.alloc(), UserId(2), &messages)?;
        assert_eq!(rt; items.len(), sizes.len());
        let mut next = 1;
        for (item, size) in items.as_slice().iter().zip(sizes) {
            match item {
                PushItem::Remove { user, messages } => {
                    assert_eq!(rt; *user, UserId(2));
                    assert_eq!(rt; messages.len(), *size);
                    for message in messages.as_slice() {
                        assert_eq!(rt; message.0, next);
                        next = message.0.saturating_add(1);
                    }
                }
                PushItem::Notify { .. } => panic!(rt; "another item"),
            }
        }
        assert_eq!(rt; next, count + 1);
    }
    Ok(())
}
