use crate::{Account, account, audit};
use chat_model::{
    ChannelId, Counts, DealNo, Event, List, MessageId, Moment, Outcome, Policy, QueueId, Request,
    SettingChange, SpecificChange, Stamped, Text, UserId, UserVerdict, Verdict, Way,
};
use std::alloc::Global;
use std::process::Abort;
use std::test::Fail;

pub fn add(
    rt: &impl Abort,
    journal: &mut Vec<Stamped>,
    seconds: u64,
    event: Event,
) -> Result<(), Fail> {
    let at = Moment::new(seconds).expect(rt, "a moment");
    journal.push(Stamped { at, event })?;
    Ok(())
}

pub fn add_user(alloc: Global, name: &str) -> Result<Event, Fail> {
    let name = Text::from_str(alloc, name)?;
    Ok(Event::Asked(Request::AddUser { name, bot: false }))
}

fn add_channel(alloc: Global, name: &str) -> Result<Event, Fail> {
    let name = Text::from_str(alloc, name)?;
    Ok(Event::Asked(Request::AddChannel { name }))
}

pub fn subscription(user: u64) -> Event {
    Event::Asked(Request::Subscribe {
        user: UserId(user),
        channel: ChannelId(1),
        on: true,
    })
}

pub fn send(alloc: Global, text: &str) -> Result<Event, Fail> {
    send_to(alloc, 1, text)
}

fn send_to(alloc: Global, channel: u64, text: &str) -> Result<Event, Fail> {
    Ok(Event::Asked(Request::Send {
        sender: UserId(1),
        channel: ChannelId(channel),
        topic: Text::from_str(alloc, "lunch")?,
        text: Text::from_str(alloc, text)?,
    }))
}

// A group of Ben and Ada, whose list doesn't ascend.
fn add_group_out_of_order(alloc: Global) -> Result<Event, Fail> {
    let mut members = List::new(alloc);
    members.push(UserId(2))?;
    members.push(UserId(1))?;
    let name = Text::from_str(alloc, "ops")?;
    Ok(Event::Asked(Request::AddGroup { name, members }))
}

// Ada and Ben, both subscribed to a channel, and Ada's message at second 100 that mentions Ben.
pub fn lunch(rt: &impl Abort, alloc: Global) -> Result<Vec<Stamped>, Fail> {
    let mut journal = Vec::new(alloc);
    add(rt, &mut journal, 0, Event::Restart)?;
    add(rt, &mut journal, 0, add_user(alloc, "Ada")?)?;
    add(rt, &mut journal, 0, add_user(alloc, "Ben")?)?;
    add(rt, &mut journal, 0, add_channel(alloc, "team")?)?;
    add(rt, &mut journal, 0, subscription(1))?;
    add(rt, &mut journal, 0, subscription(2))?;
    add(rt, &mut journal, 100, send(alloc, "hi @**Ben**")?)?;
    Ok(journal)
}

// The hub dealt the deal, with the verdict for Ben.
pub fn dealt(alloc: Global, deal: u64, verdict: Verdict) -> Result<Event, Fail> {
    let mut verdicts = List::new(alloc);
    verdicts.push(UserVerdict {
        user: UserId(2),
        verdict,
    })?;
    let deal = DealNo(deal);
    Ok(Event::Absorbed(Outcome::Dealt { deal, verdicts }))
}

// A queue of Ben's cleared the deal.
pub fn cleared(alloc: Global, deal: u64) -> Result<Event, Fail> {
    let mut deals = List::new(alloc);
    deals.push(DealNo(deal))?;
    Ok(Event::Absorbed(Outcome::Cleared {
        user: UserId(2),
        deals,
        queue: QueueId { run: 1, number: 1 },
    }))
}

// Ben missed the first deals, so many of them.
pub fn missed(alloc: Global, count: u64) -> Result<Event, Fail> {
    let mut deals = List::new(alloc);
    for deal in 0..count {
        deals.push(DealNo(deal))?;
    }
    let user = UserId(2);
    Ok(Event::Absorbed(Outcome::Missed { user, deals }))
}

// So many notices are in flight.
pub fn in_flight(flight: u64) -> Counts {
    let mut found = counts(0, 0);
    found.flight = flight;
    found
}

// So many notices are held, and a live queue cleared so many.
fn held(held: u64, live: u64) -> Counts {
    let mut found = counts(0, 0);
    found.held = held;
    found.live = live;
    found
}

// So many notices are ready, and so many were handed, each of a conversation of its own.
pub fn counts(ready: u64, handed: u64) -> Counts {
    Counts {
        flight: 0,
        held: 0,
        ready,
        handed,
        read: 0,
        deleted: 0,
        off: 0,
        live: 0,
        entries: handed,
        waiting: 0,
        written: 0,
    }
}

// The notices of Ben and of Ada's message at second 100 are in these accounts, and no other message owes Ben one.
fn expect_accounts(
    rt: &impl Abort,
    alloc: Global,
    journal: &[Stamped],
    mail: Account,
    push: Account,
) -> Result<(), Fail> {
    let ben = UserId(2);
    let first = MessageId(1);
    assert_eq!(rt; account(alloc, journal, ben, first, Way::Mail)?, mail);
    assert_eq!(rt; account(alloc, journal, ben, first, Way::Push)?, push);
    let second = account(alloc, journal, ben, MessageId(2), Way::Mail)?;
    assert_eq!(rt; second, Account::NotOwed);
    Ok(())
}

// What isn't lawful behind the journal at second 219, of which each would change the counts if it counted.
fn add_unlawful(rt: &impl Abort, alloc: Global, journal: &mut Vec<Stamped>) -> Result<(), Fail> {
    // A stamp that goes back.
    add(rt, journal, 99, send(alloc, "hi @**Ben**")?)?;
    // A turn that isn't due.
    add(rt, journal, 219, Event::MailTurn(UserId(2)))?;
    // A request that is refused, since its channel isn't there.
    add(rt, journal, 219, send_to(alloc, 9, "hi @**Ben**")?)?;
    // A list that doesn't ascend, so that there is no group.
    add(rt, journal, 219, add_group_out_of_order(alloc)?)
}

#[test]
fn events_that_are_not_lawful_do_not_count(rt: HostRuntime) -> Result<(), Fail> {
    let alloc = rt.alloc();
    let mut journal = lunch(&rt, alloc)?;
    assert_eq!(rt; audit(alloc, &journal)?, in_flight(2));
    // A stamp that goes back.
    add(&rt, &mut journal, 99, dealt(alloc, 0, Verdict::Idle)?)?;
    assert_eq!(rt; audit(alloc, &journal)?, in_flight(2));
    add(&rt, &mut journal, 100, dealt(alloc, 0, Verdict::Idle)?)?;
    add_unlawful(&rt, alloc, &mut journal)?;
    assert_eq!(rt; audit(alloc, &journal)?, counts(2, 0));
    expect_accounts(&rt, alloc, &journal, Account::Ready, Account::Ready)?;
    // A lawful message to a group that isn't there owes nobody a notice.
    add(&rt, &mut journal, 219, send(alloc, "hi @*ops*")?)?;
    assert_eq!(rt; audit(alloc, &journal)?, counts(2, 0));
    add(&rt, &mut journal, 220, Event::MailTurn(UserId(2)))?;
    assert_eq!(rt; audit(alloc, &journal)?, counts(1, 1));
    expect_accounts(&rt, alloc, &journal, Account::Handed, Account::Ready)
}

#[test]
fn an_account_is_found(rt: HostRuntime) -> Result<(), Fail> {
    let alloc = rt.alloc();
    let mut journal = lunch(&rt, alloc)?;
    let ben = UserId(2);
    let message = MessageId(1);
    assert_eq!(rt;
        account(alloc, &journal, ben, message, Way::Mail)?,
        Account::Flight
    );
    assert_eq!(rt;
        account(alloc, &journal, UserId(1), message, Way::Mail)?,
        Account::NotOwed
    );
    add(&rt, &mut journal, 100, dealt(alloc, 0, Verdict::Idle)?)?;
    add(&rt, &mut journal, 220, Event::MailTurn(ben))?;
    assert_eq!(rt;
        account(alloc, &journal, ben, message, Way::Mail)?,
        Account::Handed
    );
    assert_eq!(rt;
        account(alloc, &journal, ben, message, Way::Push)?,
        Account::Ready
    );
    Ok(())
}

pub fn set(change: SettingChange) -> Event {
    Event::Asked(Request::Set {
        user: UserId(2),
        change,
    })
}

fn set_channel(change: SpecificChange) -> Event {
    Event::Asked(Request::SetChannel {
        user: UserId(2),
        channel: ChannelId(1),
        change,
    })
}

fn set_policy(alloc: Global, topic: &str, policy: Policy) -> Result<Event, Fail> {
    let topic = Text::from_str(alloc, topic)?;
    Ok(Event::Asked(Request::SetPolicy {
        user: UserId(2),
        channel: ChannelId(1),
        topic,
        policy,
    }))
}

// Ada's direct message to Ben.
fn direct(alloc: Global, text: &str) -> Result<Event, Fail> {
    let mut to = List::new(alloc);
    to.push(UserId(2))?;
    let text = Text::from_str(alloc, text)?;
    Ok(Event::Asked(Request::Direct {
        sender: UserId(1),
        to,
        text,
    }))
}

// The event comes at second 100.
fn hear(rt: &impl Abort, journal: &mut Vec<Stamped>, event: Event) -> Result<(), Fail> {
    add(rt, journal, 100, event)
}

// The message comes at second 100, and so many notices are in flight then.
fn hear_message(
    rt: &impl Abort,
    alloc: Global,
    journal: &mut Vec<Stamped>,
    message: Event,
    flight: u64,
) -> Result<(), Fail> {
    hear(rt, journal, message)?;
    assert_eq!(rt; audit(alloc, journal)?, in_flight(flight));
    Ok(())
}

fn mute_the_channel(
    rt: &impl Abort,
    alloc: Global,
    journal: &mut Vec<Stamped>,
) -> Result<(), Fail> {
    hear(rt, journal, set(SettingChange::ChannelMail(true)))?;
    hear(rt, journal, set_channel(SpecificChange::Muted(true)))?;
    hear_message(rt, alloc, journal, send(alloc, "plain")?, 2)
}

fn unmute_the_topic(
    rt: &impl Abort,
    alloc: Global,
    journal: &mut Vec<Stamped>,
) -> Result<(), Fail> {
    hear(rt, journal, set_policy(alloc, "LUNCH", Policy::Unmuted)?)?;
    hear_message(rt, alloc, journal, send(alloc, "plain")?, 3)
}

fn want_no_mails_of_the_channel(
    rt: &impl Abort,
    alloc: Global,
    journal: &mut Vec<Stamped>,
) -> Result<(), Fail> {
    hear(rt, journal, set_channel(SpecificChange::Mail(Some(false))))?;
    hear_message(rt, alloc, journal, send(alloc, "plain")?, 3)
}

fn mute_the_sender(rt: &impl Abort, alloc: Global, journal: &mut Vec<Stamped>) -> Result<(), Fail> {
    hear_message(rt, alloc, journal, direct(alloc, "lunch?")?, 5)?;
    let mute = Event::Asked(Request::Mute {
        user: UserId(2),
        other: UserId(1),
        on: true,
    });
    hear(rt, journal, mute)?;
    hear_message(rt, alloc, journal, direct(alloc, "?")?, 5)
}

#[test]
fn what_a_user_set_is_judged_at_each_message(rt: HostRuntime) -> Result<(), Fail> {
    let alloc = rt.alloc();
    let mut journal = lunch(&rt, alloc)?;
    mute_the_channel(&rt, alloc, &mut journal)?;
    unmute_the_topic(&rt, alloc, &mut journal)?;
    want_no_mails_of_the_channel(&rt, alloc, &mut journal)?;
    mute_the_sender(&rt, alloc, &mut journal)?;
    Ok(())
}

#[test]
fn a_turn_that_finds_the_switch_off_hands_nothing_over(rt: HostRuntime) -> Result<(), Fail> {
    let alloc = rt.alloc();
    let mut journal = lunch(&rt, alloc)?;
    hear(&rt, &mut journal, dealt(alloc, 0, Verdict::Idle)?)?;
    hear(&rt, &mut journal, set(SettingChange::MailMentions(false)))?;
    add(&rt, &mut journal, 220, Event::MailTurn(UserId(2)))?;
    let mut off = counts(1, 0);
    off.off = 1;
    assert_eq!(rt; audit(alloc, &journal)?, off);
    Ok(())
}

#[test]
fn a_deal_that_was_cleared_first_is_never_ready(rt: HostRuntime) -> Result<(), Fail> {
    let alloc = rt.alloc();
    let mut journal = lunch(&rt, alloc)?;
    add(&rt, &mut journal, 100, cleared(alloc, 0)?)?;
    assert_eq!(rt; audit(alloc, &journal)?, held(0, 2));
    add(&rt, &mut journal, 100, dealt(alloc, 0, Verdict::Idle)?)?;
    add(&rt, &mut journal, 100, missed(alloc, 1)?)?;
    add(&rt, &mut journal, 100, Event::Restart)?;
    assert_eq!(rt; audit(alloc, &journal)?, held(0, 2));
    Ok(())
}

#[test]
fn a_miss_readies_what_no_queue_cleared(rt: HostRuntime) -> Result<(), Fail> {
    let alloc = rt.alloc();
    let mut journal = lunch(&rt, alloc)?;
    add(&rt, &mut journal, 100, send(alloc, "again @**Ben**")?)?;
    add(&rt, &mut journal, 100, dealt(alloc, 0, Verdict::Live)?)?;
    add(&rt, &mut journal, 100, dealt(alloc, 1, Verdict::Live)?)?;
    assert_eq!(rt; audit(alloc, &journal)?, held(4, 0));
    add(&rt, &mut journal, 100, cleared(alloc, 0)?)?;
    assert_eq!(rt; audit(alloc, &journal)?, held(2, 2));
    add(&rt, &mut journal, 150, missed(alloc, 2)?)?;
    let mut half = held(0, 2);
    half.ready = 2;
    assert_eq!(rt; audit(alloc, &journal)?, half);
    // The mails are due two minutes after the miss.
    add(&rt, &mut journal, 269, Event::MailTurn(UserId(2)))?;
    assert_eq!(rt; audit(alloc, &journal)?, half);
    add(&rt, &mut journal, 270, Event::MailTurn(UserId(2)))?;
    half.ready = 1;
    half.handed = 1;
    half.entries = 1;
    assert_eq!(rt; audit(alloc, &journal)?, half);
    Ok(())
}

#[test]
fn pushes_while_online_are_wanted_at_the_send(rt: HostRuntime) -> Result<(), Fail> {
    let alloc = rt.alloc();
    let mut journal = lunch(&rt, alloc)?;
    add(&rt, &mut journal, 100, set(SettingChange::PushOnline(true)))?;
    add(&rt, &mut journal, 100, dealt(alloc, 0, Verdict::Live)?)?;
    assert_eq!(rt; audit(alloc, &journal)?, held(2, 0));
    // Owed by push alone, since no mails are wanted.
    hear(&rt, &mut journal, set(SettingChange::MailMentions(false)))?;
    hear(&rt, &mut journal, send(alloc, "again @**Ben**")?)?;
    hear(&rt, &mut journal, set(SettingChange::PushOnline(false)))?;
    hear(&rt, &mut journal, dealt(alloc, 1, Verdict::Live)?)?;
    let mut one_ready = held(2, 0);
    one_ready.ready = 1;
    assert_eq!(rt; audit(alloc, &journal)?, one_ready);
    Ok(())
}

#[test]
fn a_start_readies_what_is_undecided_once(rt: HostRuntime) -> Result<(), Fail> {
    let alloc = rt.alloc();
    let mut journal = lunch(&rt, alloc)?;
    add(&rt, &mut journal, 100, dealt(alloc, 0, Verdict::Live)?)?;
    add(&rt, &mut journal, 100, send(alloc, "again @**Ben**")?)?;
    let mut two_of_each = held(2, 0);
    two_of_each.flight = 2;
    assert_eq!(rt; audit(alloc, &journal)?, two_of_each);
    add(&rt, &mut journal, 150, Event::Restart)?;
    assert_eq!(rt; audit(alloc, &journal)?, counts(4, 0));
    add(&rt, &mut journal, 160, Event::Restart)?;
    assert_eq!(rt; audit(alloc, &journal)?, counts(4, 0));
    // The first of the starts settles when the mails are due.
    add(&rt, &mut journal, 270, Event::MailTurn(UserId(2)))?;
    let mut both = counts(2, 2);
    // Both are of one topic.
    both.entries = 1;
    assert_eq!(rt; audit(alloc, &journal)?, both);
    Ok(())
}

// Whether Ben's mail, which is ready at second 100, is handed over at the second, where the period is set at 150.
fn is_mailed(rt: &impl Abort, alloc: Global, period: u64, seconds: u64) -> Result<bool, Fail> {
    let mut journal = lunch(rt, alloc)?;
    add(rt, &mut journal, 100, dealt(alloc, 0, Verdict::Idle)?)?;
    add(rt, &mut journal, 150, set(SettingChange::Period(period)))?;
    add(rt, &mut journal, seconds, Event::MailTurn(UserId(2)))?;
    Ok(audit(alloc, &journal)?.handed == 1)
}

#[test]
fn a_new_period_moves_the_due_moment(rt: HostRuntime) -> Result<(), Fail> {
    let alloc = rt.alloc();
    // A longer one, across the moment of the old one.
    assert!(rt; !is_mailed(&rt, alloc, 300, 399)?);
    assert!(rt; is_mailed(&rt, alloc, 300, 400)?);
    // A shorter one, to a moment that is past.
    assert!(rt; is_mailed(&rt, alloc, 30, 150)?);
    // The bounds.
    assert!(rt; is_mailed(&rt, alloc, 1, 150)?);
    assert!(rt; !is_mailed(&rt, alloc, 604_800, 604_899)?);
    assert!(rt; is_mailed(&rt, alloc, 604_800, 604_900)?);
    Ok(())
}

#[test]
fn a_period_outside_its_bounds_is_not_set(rt: HostRuntime) -> Result<(), Fail> {
    let alloc = rt.alloc();
    for period in [0, 604_801, u64::MAX] {
        assert!(rt; !is_mailed(&rt, alloc, period, 219)?, "{period}");
        assert!(rt; is_mailed(&rt, alloc, period, 220)?, "{period}");
    }
    Ok(())
}

// A user's message to the topic.
pub fn send_by(alloc: Global, sender: u64, topic: &str, text: &str) -> Result<Event, Fail> {
    Ok(Event::Asked(Request::Send {
        sender: UserId(sender),
        channel: ChannelId(1),
        topic: Text::from_str(alloc, topic)?,
        text: Text::from_str(alloc, text)?,
    }))
}

// A user's direct message to two others.
fn direct_by(alloc: Global, sender: u64, first: u64, second: u64) -> Result<Event, Fail> {
    let mut to = List::new(alloc);
    to.push(UserId(first))?;
    to.push(UserId(second))?;
    let text = Text::from_str(alloc, "lunch?")?;
    Ok(Event::Asked(Request::Direct {
        sender: UserId(sender),
        to,
        text,
    }))
}

// Three conversations with Ben in mixed order: a topic, written with two cases, and direct messages of the same users by
// two senders. The hub deals each with Idle for Ben.
fn talk(rt: &impl Abort, alloc: Global, journal: &mut Vec<Stamped>) -> Result<(), Fail> {
    hear(rt, journal, add_user(alloc, "Cleo")?)?;
    hear(rt, journal, subscription(3))?;
    hear(rt, journal, direct_by(alloc, 1, 2, 3)?)?;
    hear(rt, journal, send_by(alloc, 3, "LUNCH", "yes @**Ben**")?)?;
    hear(rt, journal, direct_by(alloc, 3, 1, 2)?)?;
    hear(rt, journal, direct_by(alloc, 1, 2, 3)?)?;
    hear(rt, journal, send_by(alloc, 1, "Lunch", "@**Ben** now")?)?;
    for deal in 0..6 {
        hear(rt, journal, dealt(alloc, deal, Verdict::Idle)?)?;
    }
    Ok(())
}

#[test]
fn a_mail_turn_makes_an_entry_of_each_conversation(rt: HostRuntime) -> Result<(), Fail> {
    let alloc = rt.alloc();
    let mut journal = lunch(&rt, alloc)?;
    talk(&rt, alloc, &mut journal)?;
    // Ben's six messages by mail and by push; the direct messages to Ada and Cleo by both, of which the hub said nothing.
    let mut found = held(6, 0);
    found.ready = 12;
    assert_eq!(rt; audit(alloc, &journal)?, found);
    add(&rt, &mut journal, 220, Event::MailTurn(UserId(2)))?;
    found.ready = 6;
    found.handed = 6;
    found.entries = 3;
    assert_eq!(rt; audit(alloc, &journal)?, found);
    Ok(())
}

#[test]
fn a_switch_that_went_off_and_on_again_hands_over(rt: HostRuntime) -> Result<(), Fail> {
    let alloc = rt.alloc();
    let mut journal = lunch(&rt, alloc)?;
    hear(&rt, &mut journal, dealt(alloc, 0, Verdict::Idle)?)?;
    hear(&rt, &mut journal, set(SettingChange::MailMentions(false)))?;
    hear(&rt, &mut journal, set(SettingChange::MailMentions(true)))?;
    add(&rt, &mut journal, 220, Event::MailTurn(UserId(2)))?;
    assert_eq!(rt; audit(alloc, &journal)?, counts(1, 1));
    Ok(())
}
