//! What the tests share: a team of two, of whom the one mentioned the other, and what the hub says to its office.
ghost use Rattle.std.specs.Prelude.{⊤};

use crate::Office;
use chat_model::{
    Answer, ChannelId, Counts, DealNo, List, MessageId, Moment, Outcome, QueueId, Request, Text,
    UserId, UserVerdict, Verdict,
};
use keeper::MemoryKeeper;
use missed_hook::Take;
use std::alloc::Global;
use std::process::Abort;
use std::test::Fail;

pub fn moment(rt: &impl Abort, seconds: u64) -> Moment {
    Moment::new(seconds).expect(rt, "a moment")
}

pub fn add_user(alloc: Global, name: &str) -> Result<Request, Fail> {
    let name = Text::from_str(alloc, name)?;
    Ok(Request::AddUser { name, bot: false })
}

pub fn subscription(user: u64, on: bool) -> Request {
    Request::Subscribe {
        user: UserId(user),
        channel: ChannelId(1),
        on,
    }
}

/// Ada mentions Ben.
pub fn mention(alloc: Global) -> Result<Request, Fail> {
    Ok(Request::Send {
        sender: UserId(1),
        channel: ChannelId(1),
        topic: Text::from_str(alloc, "lunch")?,
        text: Text::from_str(alloc, "hi @**Ben**")?,
    })
}

/// What the first mention is answered.
pub fn first_sent() -> Answer {
    Answer::Sent {
        message: MessageId(1),
        deal: DealNo(0),
    }
}

/// Starts an office over a keeper, at moment 0.
pub fn start(
    rt: &impl Abort,
    alloc: Global,
    keeper: MemoryKeeper,
) -> Result<Office<MemoryKeeper>, Fail> {
    match Office::start(alloc, keeper, moment(rt, 0)) {
        Ok(office) => Ok(office),
        Err(_) => Err(Fail::from("no start")),
    }
}

/// Starts an office on a keeper that keeps nothing yet, and of which these calls fail.
pub fn start_failing(
    rt: &impl Abort,
    alloc: Global,
    failing: &[u64],
) -> Result<Office<MemoryKeeper>, Fail> {
    let failing = List::from(Vec::from_slice(alloc, failing)?);
    start(rt, alloc, MemoryKeeper::new(alloc, failing))
}

/// Ada and Ben join, and both subscribe to a channel. The keeper's third to seventh calls.
pub fn join_team(
    rt: &impl Abort,
    alloc: Global,
    office: &mut Office<MemoryKeeper>,
) -> Result<(), Fail> {
    let now = moment(rt, 0);
    let ada = office.ask(add_user(alloc, "Ada")?, now);
    assert_eq!(rt; ada, Ok(Answer::User(UserId(1))));
    let ben = office.ask(add_user(alloc, "Ben")?, now);
    assert_eq!(rt; ben, Ok(Answer::User(UserId(2))));
    let name = Text::from_str(alloc, "team")?;
    let channel = office.ask(Request::AddChannel { name }, now);
    assert_eq!(rt; channel, Ok(Answer::Channel(ChannelId(1))));
    for user in [1, 2] {
        assert_eq!(rt; office.ask(subscription(user, true), now), Ok(Answer::Done));
    }
    Ok(())
}

/// The team joins, and at 100 Ada mentions Ben. The keeper's third to eighth calls.
pub fn join_and_mention(
    rt: &impl Abort,
    alloc: Global,
    office: &mut Office<MemoryKeeper>,
) -> Result<(), Fail> {
    join_team(rt, alloc, office)?;
    let sent = office.ask(mention(alloc)?, moment(rt, 100));
    assert_eq!(rt; sent, Ok(first_sent()));
    Ok(())
}

/// No notice and no entry.
pub fn no_counts() -> Counts {
    Counts {
        flight: 0,
        held: 0,
        ready: 0,
        handed: 0,
        read: 0,
        deleted: 0,
        off: 0,
        live: 0,
        entries: 0,
        waiting: 0,
        written: 0,
    }
}

/// So many notices are ready, and so many were handed, each in an entry of its own.
pub fn counts(ready: u64, handed: u64) -> Counts {
    Counts {
        ready,
        handed,
        entries: handed,
        ..no_counts()
    }
}

/// So many notices are in flight.
pub fn in_flight(flight: u64) -> Counts {
    Counts {
        flight,
        ..no_counts()
    }
}

/// The first deal was dealt to Ben alone.
pub fn dealt(alloc: Global, verdict: Verdict) -> Result<Outcome, Fail> {
    let user = UserId(2);
    let mut verdicts = List::new(alloc);
    verdicts.push(UserVerdict { user, verdict })?;
    let deal = DealNo(0);
    Ok(Outcome::Dealt { deal, verdicts })
}

/// A queue of Ben cleared the first deal.
pub fn cleared(alloc: Global) -> Result<Outcome, Fail> {
    let mut deals = List::new(alloc);
    deals.push(DealNo(0))?;
    Ok(Outcome::Cleared {
        user: UserId(2),
        deals,
        queue: QueueId { run: 1, number: 1 },
    })
}

/// What the hub says next, if it says anything, and what was taken before.
#[derive(Drop)]
pub struct Said {
    alloc: Global,
    next: Option<Outcome>,
    taken: List<Outcome>,
}

impl Said {
    pub fn once(alloc: Global, outcome: Outcome) -> Said {
        Said {
            alloc,
            next: Some(outcome),
            taken: List::new(alloc),
        }
    }
}

impl Take for Said {
    ghost taken = { λ s. s.taken };

    ghost took = { λ _ _ _. ⊤ };

    fn take(&mut self) -> Option<Outcome> {
        let Some(outcome) = &self.next else {
            return None;
        };
        let Ok(copy) = outcome.copy(self.alloc) else {
            return None;
        };
        if self.taken.push(copy).is_err() {
            return None;
        }
        self.next.take()
    }
}
