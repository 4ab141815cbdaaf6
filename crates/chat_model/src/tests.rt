use crate::{
    ChannelId, Conversation, Deal, DealNo, Entry, EntryNo, Event, GroupId, GroupName, Item, List,
    MessageId, Moment, OutOfMemory, Outcome, Policy, PushItem, QueueId, Request, Row, RowChange,
    RowKey, Same, SettingChange, Settings, Specific, SpecificChange, Stage, Stamped, Text, Trigger,
    UserId, UserName, UserVerdict, Verdict, Way, duplicate_all,
};
use std::alloc::Global;
use std::cmp::Ordering;
use std::test::Fail;

fn ada(alloc: Global) -> Result<Text, OutOfMemory> {
    Text::from_str(alloc, "Ada")
}

fn user_row(alloc: Global) -> Result<Row, OutOfMemory> {
    Ok(Row::User {
        id: UserId(1),
        name: ada(alloc)?,
        bot: false,
        settings: Settings {
            mail_mentions: true,
            push_mentions: true,
            push_online: false,
            channel_mail: false,
            channel_push: false,
            wildcards: true,
            followed_mail: true,
            followed_push: true,
            followed_wildcards: true,
            period: 120,
        },
    })
}

fn item(alloc: Global) -> Result<Item, OutOfMemory> {
    Ok(Item {
        message: MessageId(1),
        sender: UserId(1),
        sender_name: ada(alloc)?,
        trigger: Trigger::Mention,
        via: Some(GroupName {
            id: GroupId(1),
            name: Text::from_str(alloc, "ops")?,
        }),
        text: Text::from_str(alloc, "hi @**Ben**")?,
    })
}

fn lunch(alloc: Global) -> Result<Conversation, OutOfMemory> {
    Ok(Conversation::Channel {
        channel: ChannelId(1),
        name: Text::from_str(alloc, "team")?,
        topic: Text::from_str(alloc, "lunch")?,
    })
}

fn mail_entry(alloc: Global) -> Result<Entry, OutOfMemory> {
    let mut items = List::new(alloc);
    items.push(item(alloc)?)?;
    let Some(at) = Moment::new(220) else {
        return Err(OutOfMemory);
    };
    Ok(Entry::Mail {
        user: UserId(2),
        name: Text::from_str(alloc, "Ben")?,
        at,
        conversation: lunch(alloc)?,
        items,
    })
}

fn push_entry(alloc: Global) -> Result<Entry, OutOfMemory> {
    let Some(at) = Moment::new(100) else {
        return Err(OutOfMemory);
    };
    Ok(Entry::Push {
        user: UserId(2),
        name: Text::from_str(alloc, "Ben")?,
        at,
        conversation: lunch(alloc)?,
        item: item(alloc)?,
    })
}

#[test]
fn moments_end_at_their_bound(rt: HostRuntime) -> Result<(), Fail> {
    let last = Moment::new(137_438_953_471).ok_or("the last moment")?;
    assert_eq!(rt; last.seconds(), 137_438_953_471);
    assert!(rt; Moment::new(137_438_953_472).is_none());
    Ok(())
}

#[test]
fn lists_hold_their_items_in_order(rt: HostRuntime) -> Result<(), Fail> {
    let mut list = List::new(rt.alloc());
    assert!(rt; list.is_empty());
    list.push(7u64)?;
    list.push(5u64)?;
    assert_eq!(rt; list.len(), 2);
    assert_eq!(rt; list.as_slice(), [7, 5].as_slice());
    let copy = list.copy()?;
    assert_eq!(rt; copy.as_slice(), [7, 5].as_slice());
    let again = List::from(copy.into_vec());
    assert_eq!(rt; again.len(), 2);
    Ok(())
}

#[test]
fn texts_hold_their_characters(rt: HostRuntime) -> Result<(), Fail> {
    let text = Text::from_str(rt.alloc(), "\u{e9}t\u{e9}")?;
    assert_eq!(rt; text.copy()?.as_str(), "\u{e9}t\u{e9}");
    let made = Text::from(String::from_str(rt.alloc(), "Ada")?);
    assert_eq!(rt; made.as_str(), "Ada");
    Ok(())
}

#[test]
fn names_are_copied(rt: HostRuntime) -> Result<(), Fail> {
    let alloc = rt.alloc();
    let user = UserName {
        id: UserId(1),
        name: ada(alloc)?,
    };
    let copy = user.copy(alloc)?;
    assert_eq!(rt; copy.id, UserId(1));
    assert_eq!(rt; copy.name.as_str(), "Ada");
    let group = GroupName {
        id: GroupId(3),
        name: Text::from_str(alloc, "ops")?,
    };
    let copy = group.copy(alloc)?;
    assert_eq!(rt; copy.id, GroupId(3));
    assert_eq!(rt; copy.name.as_str(), "ops");
    Ok(())
}

#[test]
fn groups_and_memberships_are_copied(rt: HostRuntime) -> Result<(), Fail> {
    let alloc = rt.alloc();
    let mut users = List::new(alloc);
    users.push(UserId(2))?;
    users.push(UserId(1))?;
    let group = Request::AddGroup {
        name: Text::from_str(alloc, "ops")?,
        members: users,
    };
    match group.copy(alloc)? {
        Request::AddGroup { name, members } => {
            assert_eq!(rt; name.as_str(), "ops");
            assert_eq!(rt; members.as_slice(), [UserId(2), UserId(1)].as_slice());
        }
        _ => panic!(rt; "another request"),
    }
    let member = Request::Member {
        group: GroupId(3),
        user: UserId(2),
        on: true,
    };
    match member.copy(alloc)? {
        Request::Member { group, user, on } => {
            assert_eq!(rt; group, GroupId(3));
            assert_eq!(rt; user, UserId(2));
            assert!(rt; on);
        }
        _ => panic!(rt; "another request"),
    }
    Ok(())
}

#[test]
fn subscriptions_and_messages_are_copied(rt: HostRuntime) -> Result<(), Fail> {
    let alloc = rt.alloc();
    let subscription = Request::Subscribe {
        user: UserId(2),
        channel: ChannelId(3),
        on: true,
    };
    match subscription.copy(alloc)? {
        Request::Subscribe { user, channel, on } => {
            assert_eq!(rt; user, UserId(2));
            assert_eq!(rt; channel, ChannelId(3));
            assert!(rt; on);
        }
        _ => panic!(rt; "another request"),
    }
    let message = Request::Send {
        sender: UserId(2),
        channel: ChannelId(3),
        topic: Text::from_str(alloc, "lunch")?,
        text: Text::from_str(alloc, "hi @**Ben**")?,
    };
    match message.copy(alloc)? {
        Request::Send {
            sender,
            channel,
            topic,
            text,
        } => {
            assert_eq!(rt; sender, UserId(2));
            assert_eq!(rt; channel, ChannelId(3));
            assert_eq!(rt; topic.as_str(), "lunch");
            assert_eq!(rt; text.as_str(), "hi @**Ben**");
        }
        _ => panic!(rt; "another request"),
    }
    Ok(())
}

#[test]
fn changes_of_settings_are_copied(rt: HostRuntime) -> Result<(), Fail> {
    let set = Request::Set {
        user: UserId(2),
        change: SettingChange::PushOnline(true),
    };
    match set.copy(rt.alloc())? {
        Request::Set { user, change } => {
            assert_eq!(rt; user, UserId(2));
            assert_eq!(rt; change, SettingChange::PushOnline(true));
        }
        _ => panic!(rt; "another request"),
    }
    Ok(())
}

#[test]
fn changes_for_a_channel_are_copied(rt: HostRuntime) -> Result<(), Fail> {
    let set_channel = Request::SetChannel {
        user: UserId(2),
        channel: ChannelId(3),
        change: SpecificChange::Mail(Some(false)),
    };
    match set_channel.copy(rt.alloc())? {
        Request::SetChannel {
            user,
            channel,
            change,
        } => {
            assert_eq!(rt; user, UserId(2));
            assert_eq!(rt; channel, ChannelId(3));
            assert_eq!(rt; change, SpecificChange::Mail(Some(false)));
        }
        _ => panic!(rt; "another request"),
    }
    Ok(())
}

#[test]
fn policies_are_copied(rt: HostRuntime) -> Result<(), Fail> {
    let alloc = rt.alloc();
    let set_policy = Request::SetPolicy {
        user: UserId(2),
        channel: ChannelId(3),
        topic: Text::from_str(alloc, "lunch")?,
        policy: Policy::Followed,
    };
    match set_policy.copy(alloc)? {
        Request::SetPolicy {
            user,
            channel,
            topic,
            policy,
        } => {
            assert_eq!(rt; user, UserId(2));
            assert_eq!(rt; channel, ChannelId(3));
            assert_eq!(rt; topic.as_str(), "lunch");
            assert_eq!(rt; policy, Policy::Followed);
        }
        _ => panic!(rt; "another request"),
    }
    Ok(())
}

#[test]
fn mutes_and_direct_messages_are_copied(rt: HostRuntime) -> Result<(), Fail> {
    let alloc = rt.alloc();
    let mute = Request::Mute {
        user: UserId(2),
        other: UserId(1),
        on: true,
    };
    match mute.copy(alloc)? {
        Request::Mute { user, other, on } => {
            assert_eq!(rt; user, UserId(2));
            assert_eq!(rt; other, UserId(1));
            assert!(rt; on);
        }
        _ => panic!(rt; "another request"),
    }
    let mut users = List::new(alloc);
    users.push(UserId(3))?;
    users.push(UserId(2))?;
    let message = Request::Direct {
        sender: UserId(1),
        to: users,
        text: Text::from_str(alloc, "hi")?,
    };
    match message.copy(alloc)? {
        Request::Direct { sender, to, text } => {
            assert_eq!(rt; sender, UserId(1));
            assert_eq!(rt; to.as_slice(), [UserId(3), UserId(2)].as_slice());
            assert_eq!(rt; text.as_str(), "hi");
        }
        _ => panic!(rt; "another request"),
    }
    Ok(())
}

#[test]
fn a_change_sets_its_switch_or_the_period(rt: HostRuntime) {
    let settings = Settings::default().changed(SettingChange::PushOnline(true));
    assert!(rt; settings.push_online);
    assert!(rt; !settings.channel_push);
    assert_eq!(rt; settings.period, 120);
    let settings = settings.changed(SettingChange::Period(300));
    assert_eq!(rt; settings.period, 300);
    assert!(rt; settings.push_online);
    assert!(rt; !settings.is_same(&settings.changed(SettingChange::Period(30))));
    assert!(rt; SettingChange::Period(30).is_same(&SettingChange::Period(30)));
    assert!(rt; !SettingChange::Period(30).is_same(&SettingChange::Period(31)));
    let specific = Specific::default().changed(SpecificChange::Muted(true));
    assert!(rt; specific.muted);
    assert!(rt; specific.mail.is_none());
}

#[test]
fn events_are_copied(rt: HostRuntime) -> Result<(), Fail> {
    let alloc = rt.alloc();
    let at = Moment::new(100).ok_or("a moment")?;
    let event = Event::Asked(Request::AddUser {
        name: ada(alloc)?,
        bot: true,
    });
    let copy = Stamped { at, event }.copy(alloc)?;
    assert_eq!(rt; copy.at.seconds(), 100);
    match copy.event {
        Event::Asked(Request::AddUser { name, bot }) => {
            assert_eq!(rt; name.as_str(), "Ada");
            assert!(rt; bot);
        }
        _ => panic!(rt; "another event"),
    }
    Ok(())
}

#[test]
fn absorbed_outcomes_are_copied(rt: HostRuntime) -> Result<(), Fail> {
    let alloc = rt.alloc();
    let mut deals = List::new(alloc);
    deals.push(DealNo(3))?;
    let missed = Outcome::Missed {
        user: UserId(2),
        deals,
    };
    match Event::Absorbed(missed).copy(alloc)? {
        Event::Absorbed(Outcome::Missed { user, deals }) => {
            assert_eq!(rt; user, UserId(2));
            assert_eq!(rt; deals.as_slice(), [DealNo(3)].as_slice());
        }
        _ => panic!(rt; "another event"),
    }
    Ok(())
}

#[test]
fn entries_are_copied_with_their_items(rt: HostRuntime) -> Result<(), Fail> {
    let alloc = rt.alloc();
    match mail_entry(alloc)?.copy(alloc)? {
        Entry::Mail {
            user,
            name,
            at,
            conversation,
            items,
        } => {
            assert_eq!(rt; user, UserId(2));
            assert_eq!(rt; name.as_str(), "Ben");
            assert_eq!(rt; at.seconds(), 220);
            match conversation {
                Conversation::Channel {
                    channel,
                    name,
                    topic,
                } => {
                    assert_eq!(rt; channel, ChannelId(1));
                    assert_eq!(rt; name.as_str(), "team");
                    assert_eq!(rt; topic.as_str(), "lunch");
                }
                Conversation::Direct { .. } => panic!(rt; "another conversation"),
            }
            let items = items.into_vec();
            assert_eq!(rt; items.len(), 1);
            assert_eq!(rt; items[0].message, MessageId(1));
            assert_eq!(rt; items[0].text.as_str(), "hi @**Ben**");
        }
        Entry::Push { .. } | Entry::Remove { .. } => panic!(rt; "another entry"),
    }
    Ok(())
}

#[test]
fn pushed_entries_are_copied_with_their_item(rt: HostRuntime) -> Result<(), Fail> {
    let alloc = rt.alloc();
    let entry = push_entry(alloc)?;
    let second = entry.copy(alloc)?;
    assert!(rt; entry.is_same(&second));
    assert!(rt; !entry.is_same(&mail_entry(alloc)?));
    match &second {
        Entry::Push { user, at, item, .. } => {
            assert_eq!(rt; *user, UserId(2));
            assert_eq!(rt; at.seconds(), 100);
            assert_eq!(rt; item.text.as_str(), "hi @**Ben**");
        }
        Entry::Mail { .. } | Entry::Remove { .. } => panic!(rt; "another entry"),
    }
    Ok(())
}

#[test]
fn removals_are_copied_with_their_messages(rt: HostRuntime) -> Result<(), Fail> {
    let alloc = rt.alloc();
    let Some(at) = Moment::new(150) else {
        return Err(Fail::from("a moment"));
    };
    let entry = Entry::Remove {
        user: UserId(2),
        name: Text::from_str(alloc, "Ben")?,
        at,
        messages: List::from(vec![in alloc; MessageId(1), MessageId(4)]?),
    };
    let second = entry.copy(alloc)?;
    assert!(rt; entry.is_same(&second));
    match &second {
        Entry::Remove { user, messages, .. } => {
            assert_eq!(rt; *user, UserId(2));
            assert_eq!(rt;
                messages.as_slice(),
                [MessageId(1), MessageId(4)].as_slice()
            );
        }
        _ => panic!(rt; "another entry"),
    }
    Ok(())
}

#[test]
fn reads_and_deletions_are_copied(rt: HostRuntime) -> Result<(), Fail> {
    let alloc = rt.alloc();
    let read = Request::Read {
        user: UserId(2),
        messages: List::from(vec![in alloc; MessageId(3), MessageId(1)]?),
    };
    assert!(rt; read.is_same(&read.copy(alloc)?));
    let delete = Request::Delete {
        user: UserId(1),
        message: MessageId(3),
    };
    assert!(rt; delete.is_same(&delete.copy(alloc)?));
    assert!(rt; !delete.is_same(&read));
    Ok(())
}

/// How many characters of four bytes a text has, and how many its first 200 have.
const BEGINNINGS: [(usize, usize); 4] = [(0, 0), (199, 199), (200, 200), (201, 200)];

#[test]
fn a_beginning_counts_characters_and_not_bytes(rt: HostRuntime) -> Result<(), Fail> {
    let alloc = rt.alloc();
    for (characters, expected) in BEGINNINGS {
        let mut long = String::new(alloc);
        for _ in 0..characters {
            long.push('\u{1F514}')?;
        }
        let begun = Text::from(long).beginning(200)?;
        assert_eq!(rt; begun.as_str().len(), 4 * expected);
        assert!(rt; begun.as_str().chars().all(|c| c == '\u{1F514}'));
    }
    Ok(())
}

#[test]
fn rows_are_copied_with_their_keys(rt: HostRuntime) -> Result<(), Fail> {
    let alloc = rt.alloc();
    let rows = [
        user_row(alloc)?,
        Row::Pending {
            user: UserId(2),
            message: MessageId(1),
            way: Way::Mail,
            trigger: Trigger::Mention,
            deal: DealNo(0),
            stage: Stage::Ready,
        },
    ];
    let copies = duplicate_all(alloc, rows.as_slice())?;
    assert_eq!(rt; copies.len(), 2);
    assert_eq!(rt; copies[0].key(), RowKey::User(UserId(1)));
    assert_eq!(rt;
        copies[1].key(),
        RowKey::Pending(UserId(2), MessageId(1), Way::Mail)
    );
    let outbox = Row::Outbox {
        number: EntryNo(1),
        entry: mail_entry(alloc)?,
        spooled: false,
    };
    match RowChange::Put(outbox).copy(alloc)? {
        RowChange::Put(row) => assert_eq!(rt; row.key(), RowKey::Outbox(EntryNo(1))),
        RowChange::Remove(_) => panic!(rt; "another change"),
    }
    Ok(())
}

#[test]
fn keys_stand_by_table_then_by_number(rt: HostRuntime) {
    let user = RowKey::User(UserId(9));
    let message = RowKey::Message(MessageId(1));
    let mail = RowKey::Pending(UserId(1), MessageId(2), Way::Mail);
    let push = RowKey::Pending(UserId(1), MessageId(2), Way::Push);
    let later = RowKey::Pending(UserId(2), MessageId(1), Way::Mail);
    let outbox = RowKey::Outbox(EntryNo(1));
    assert_eq!(rt; user.compare(message), Ordering::Less);
    assert_eq!(rt; message.compare(mail), Ordering::Less);
    assert_eq!(rt; mail.compare(push), Ordering::Less);
    assert_eq!(rt; push.compare(later), Ordering::Less);
    assert_eq!(rt; outbox.compare(later), Ordering::Greater);
    assert_eq!(rt; outbox.compare(outbox), Ordering::Equal);
}

#[test]
fn deals_and_outcomes_are_copied(rt: HostRuntime) -> Result<(), Fail> {
    let alloc = rt.alloc();
    let mut users = List::new(alloc);
    users.push(UserId(2))?;
    let deal = Deal {
        number: DealNo(3),
        message: MessageId(4),
        users,
    };
    let copy = deal.copy(alloc)?;
    assert_eq!(rt; copy.number, DealNo(3));
    assert_eq!(rt; copy.message, MessageId(4));
    assert_eq!(rt; copy.users.as_slice(), [UserId(2)].as_slice());
    let mut verdicts = List::new(alloc);
    verdicts.push(UserVerdict {
        user: UserId(2),
        verdict: Verdict::Live,
    })?;
    let dealt = Outcome::Dealt {
        deal: DealNo(3),
        verdicts,
    };
    let mut deals = List::new(alloc);
    deals.push(DealNo(3))?;
    let queue = QueueId { run: 1, number: 5 };
    let cleared = Outcome::Cleared {
        user: UserId(2),
        deals,
        queue,
    };
    let mut missed_deals = List::new(alloc);
    missed_deals.push(DealNo(6))?;
    let missed = Outcome::Missed {
        user: UserId(7),
        deals: missed_deals,
    };
    let outcomes = duplicate_all(alloc, [dealt, cleared, missed].as_slice())?;
    match outcomes.as_slice() {
        [
            Outcome::Dealt { deal, verdicts },
            Outcome::Cleared { deals, queue, .. },
            Outcome::Missed {
                user,
                deals: missed,
            },
        ] => {
            assert_eq!(rt; *deal, DealNo(3));
            assert_eq!(rt; verdicts.as_slice()[0].verdict, Verdict::Live);
            assert_eq!(rt; deals.as_slice(), [DealNo(3)].as_slice());
            assert_eq!(rt; *queue, QueueId { run: 1, number: 5 });
            assert_eq!(rt; *user, UserId(7));
            assert_eq!(rt; missed.as_slice(), [DealNo(6)].as_slice());
        }
        _ => panic!(rt; "other outcomes"),
    }
    Ok(())
}

#[test]
fn direct_conversations_and_push_items_are_copied(rt: HostRuntime) -> Result<(), Fail> {
    let alloc = rt.alloc();
    let mut users = List::new(alloc);
    users.push(UserId(2))?;
    users.push(UserId(5))?;
    let direct = Conversation::Direct {
        users,
        sender: UserId(5),
    };
    match direct.copy(alloc)? {
        Conversation::Direct { users, sender } => {
            assert_eq!(rt; users.as_slice(), [UserId(2), UserId(5)].as_slice());
            assert_eq!(rt; sender, UserId(5));
        }
        Conversation::Channel { .. } => panic!(rt; "another conversation"),
    }
    let notify = PushItem::Notify {
        user: UserId(2),
        message: MessageId(4),
    };
    match notify.copy(alloc)? {
        PushItem::Notify { user, message } => {
            assert_eq!(rt; user, UserId(2));
            assert_eq!(rt; message, MessageId(4));
        }
        PushItem::Remove { .. } => panic!(rt; "another item"),
    }
    let mut messages = List::new(alloc);
    messages.push(MessageId(4))?;
    let remove = PushItem::Remove {
        user: UserId(2),
        messages,
    };
    match remove.copy(alloc)? {
        PushItem::Remove { user, messages } => {
            assert_eq!(rt; user, UserId(2));
            assert_eq!(rt; messages.as_slice(), [MessageId(4)].as_slice());
        }
        PushItem::Notify { .. } => panic!(rt; "another item"),
    }
    Ok(())
}

#[test]
fn lists_are_the_same_by_their_items(rt: HostRuntime) -> Result<(), Fail> {
    let one = List::from(vec![in rt.alloc(); UserId(3), UserId(5)]?);
    let two = List::from(vec![in rt.alloc(); UserId(3), UserId(5)]?);
    let longer = List::from(vec![in rt.alloc(); UserId(3), UserId(5), UserId(8)]?);
    let other = List::from(vec![in rt.alloc(); UserId(3), UserId(8)]?);
    assert!(rt; one.is_same(&two));
    assert!(rt; !one.is_same(&longer));
    assert!(rt; !longer.is_same(&one));
    assert!(rt; !one.is_same(&other));
    Ok(())
}

#[test]
fn small_values_are_the_same_or_not(rt: HostRuntime) -> Result<(), Fail> {
    assert!(rt; DealNo(7).is_same(&DealNo(7)));
    assert!(rt; !DealNo(7).is_same(&DealNo(8)));
    assert!(rt; Stage::Held.is_same(&Stage::Held));
    assert!(rt; !Stage::Held.is_same(&Stage::Ready));
    assert!(rt;
        RowKey::Pending(UserId(1), MessageId(2), Way::Mail).is_same(&RowKey::Pending(
            UserId(1),
            MessageId(2),
            Way::Mail
        ))
    );
    assert!(rt;
        !RowKey::Pending(UserId(1), MessageId(2), Way::Mail).is_same(&RowKey::Pending(
            UserId(1),
            MessageId(2),
            Way::Push
        ))
    );
    let settings = Settings::default();
    assert!(rt; settings.is_same(&Settings::default()));
    assert!(rt; !settings.is_same(&settings.changed(SettingChange::Wildcards(false))));
    Ok(())
}
