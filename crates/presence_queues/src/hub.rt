//! The hub: client queues, presence, and what becomes of each deal.
ghost use Rattle.std.specs.Prelude.{◌≡◌, ◌≢◌, ℕ, ◌+◌, ◌++◌, ◌-◌, ◌<◌, ◌^◌, ◌==◌, ◌&&◌, ◌↔◌, nat_le, [], true, false, None, All, IfOk, OnOk, OnErr, IsSomeAnd, length, map, option_map};
ghost use Rattle.chat_model.specs.Ascending.{is_ascending_by};
ghost use Rattle.std.specs.List.{list_any};
ghost use Rattle.std.specs.Option.{option_copied, option_to_list};
ghost use Rattle.presence_queues.specs.Hub.{is_of, is_overdue, queue_at, verdict, verdicts};
ghost use Rattle.presence_queues.specs.Fields.{ends_by, queue_of};
ghost use Rattle.presence_queues.specs.Steps.{IsAcked, IsDealt, IsLeft, IsPastNext, IsSwept, IsTaken, beaten, ended, new_hub, next_overdue, registered};

use crate::beats::{Beat, is_recent, record_beat};
use crate::ending::Ending;
use crate::queue::Queue;
use crate::queues::{
    count_ending, end, find_queue, has_queue, lowest_living, next_overdue, overdue_user, poll,
    receive, reserve_for, unheld,
};
use crate::sender::Sender;
use crate::{DealAnswer, HubFault, QueueItem, SweepAnswer};
use chat_model::{
    Deal, DealNo, List, Moment, OutOfMemory, Outcome, QueueId, UserId, UserVerdict, Verdict,
};
use missed_hook::{PlainPipe, Post, Take};
use std::alloc::Global;
use std::marker::Model;

/// The client queues and the latest beats of a run, and the pipe to the office.
#[derive(Drop)]
pub struct Hub<T: Post> {
    alloc: Global,
    run: u64,
    next: DealNo,
    registrations: Vec<UserId>,
    beats: Vec<Beat>,
    sender: Sender<T>,
    /// By their numbers.
    queues: Vec<Queue>,
}

impl<T: Post> Model for Hub<T> {
    ghost use Rattle.presence_queues.specs.Hub.{HubSeen};
    ghost use Rattle.presence_queues.specs.Law.{KeepsHubLaw};
    ghost use Rattle.presence_queues.specs.Fields.{hub_of};

    ghost Value = { HubSeen };

    ghost view = { λ h. hub_of h.run h.next h.registrations.items h.beats.items h.sender h.queues.items };

    ghost invariant = { λ h. KeepsHubLaw (hub_of h.run h.next h.registrations.items h.beats.items h.sender h.queues.items) };
}

/// Whether the user has a queue and a beat at most 140 seconds ago.
fn is_live(queues: &[Queue], beats: &[Beat], user: UserId, now: Moment) -> bool
    ensures { result ≡ (list_any (λ q. is_of user (queue_of q)) queues.now && list_any (λ beat. beat.user.0 == user.0 && nat_le now (beat.at + 140)) beats.now) }
{
    has_queue(queues, user) && is_recent(beats, user, now)
}

/// The id of the queue of the number in the run.
fn queue_id(run: u64, number: Option<u64>) -> Option<QueueId>
    ensures { result ≡ option_map (λ n. record { run = run; number = n }) number }
{
    match number {
        Some(number) => Some(QueueId { run, number }),
        None => None,
    }
}

impl<T: Post> Hub<T> {
    /// A hub of the run, over a pipe into which nothing was sent yet, which begins with the deal.
    pub fn new(alloc: Global, pipe: T, run: u64, first: DealNo) -> Hub<T>
        requires { T.sent pipe ≡ [] }
        ensures { result ≡ new_hub run first (T.taken pipe) }
    {
        Hub {
            alloc,
            run,
            next: first,
            registrations: Vec::new(alloc),
            beats: Vec::new(alloc),
            sender: Sender::new(alloc, pipe),
            queues: Vec::new(alloc),
        }
    }

    /// The number of the deal that is dealt next.
    pub fn next(&self) -> DealNo
        ensures { result ≡ self.now.next }
    {
        self.next
    }

    /// Lends the pipe.
    pub fn pipe(&self) -> &T
        ensures sent { T.sent result.now ≡ self.now.sent }
        ensures taken { T.taken result.now ≡ self.now.taken }
    {
        self.sender.pipe()
    }

    /// Registers a further queue for the user, and polls it.
    pub fn register(&mut self, user: UserId, now: Moment) -> Result<QueueId, OutOfMemory>
        ensures id { IfOk result (λ id. id ≡ record { run = self.old.run; number = length self.old.registrations + 1 }) }
        ensures ok { OnOk result (self.new ≡ registered user now self.old) }
        ensures err { OnErr result (self.new ≡ self.old) }
    {
        self.registrations.reserve(1)?;
        self.queues.reserve(1)?;
        self.registrations.push_reserved(user);
        let number = self.registrations.len() as u64;
        self.queues.push_reserved(Queue {
            number,
            user,
            poll: now,
            next: 0,
            items: Vec::new(self.alloc),
        });
        Ok(QueueId {
            run: self.run,
            number,
        })
    }

    /// Records that the user's client is in use, for 140 seconds.
    pub fn beat(&mut self, user: UserId, now: Moment) -> Result<(), OutOfMemory>
        ensures ok { OnOk result (self.new ≡ beaten user now self.old) }
        ensures err { OnErr result (self.new ≡ self.old) }
    {
        record_beat(&mut self.beats, user, now)
    }

    /// Live with a live queue and a recent beat, else Idle.
    fn verdict(&self, user: UserId, now: Moment) -> Verdict
        ensures { result ≡ verdict self.now now user }
    {
        if is_live(&self.queues, &self.beats, user, now) {
            Verdict::Live
        } else {
            Verdict::Idle
        }
    }

    /// The verdict for each user.
    fn verdicts(&self, users: &[UserId], now: Moment) -> Result<List<UserVerdict>, OutOfMemory>
        ensures { IfOk result (λ given. given ≡ verdicts self.now now users.now) }
    {
        let mut given = List::new(self.alloc);
        for user in users {
            given.push(UserVerdict {
                user: *user,
                verdict: self.verdict(*user, now),
            })?;
        }
        Ok(given)
    }

    /// Deals, if the deal is the next one: sends a verdict for each of its users, and puts its message into each of
    /// their queues.
    pub fn deal(&mut self, deal: &Deal, now: Moment) -> Result<DealAnswer, OutOfMemory>
        requires ascending { is_ascending_by (λ u. u.0) deal.now.users ≡ true }
        requires not_last { deal.now.number.0 < 2 ^ 64 - 1 }
        ensures answered { IfOk result (λ answer. IsDealt deal.now now self.old answer self.new) }
        // A deal that isn't the next takes no memory, so the answer is promised.
        ensures not_next { deal.now.number ≢ self.old.next → result ≡ Ok (DealAnswer.NotNext self.old.next) }
        ensures err { OnErr result (self.new ≡ self.old) }
    {
        if deal.number.0 != self.next.0 {
            return Ok(DealAnswer::NotNext(self.next));
        }
        let verdicts = self.verdicts(deal.users.as_slice(), now)?;
        reserve_for(&mut self.queues, deal)?;
        self.sender.deal(deal.number, verdicts.as_slice())?;
        receive(&mut self.queues, deal);
        self.next = DealNo(deal.number.0 + 1);
        Ok(DealAnswer::Dealt(verdicts))
    }

    /// The user's live queue of this id.
    fn find(&self, user: UserId, queue: QueueId) -> Option<&Queue>
        ensures queue { option_map queue_of (option_copied result) ≡ queue_at self.now user queue }
        ensures mine { queue_at self.now user queue ≢ None → All (λ q. (q.number == queue.number) ≡ true → is_of user q ≡ true) self.now.queues }
    {
        if queue.run != self.run {
            return None;
        }
        find_queue(&self.queues, user, queue.number)
    }

    /// Drops the items of the queue up to the event number, and polls it. Those of them that are outstanding are
    /// cleared by the queue. It answers the items that are left.
    pub fn ack(
        &mut self,
        user: UserId,
        queue: QueueId,
        upto: Option<u64>,
        now: Moment,
    ) -> Result<List<QueueItem>, HubFault>
        ensures ok { IfOk result (λ left. IsAcked user queue upto now self.old left self.new) }
        ensures bad_queue { (result ≡ Err HubFault.BadQueue) ↔ (queue_at self.old user queue ≡ None) }
        ensures bad_event { (n : ℕ) → (result ≡ Err (HubFault.BadEventId n)) ↔ IsSomeAnd (queue_at self.old user queue) (λ q. (n ≡ q.next) × IsPastNext upto q) }
        ensures err { OnErr result (self.new ≡ self.old) }
    {
        match self.find(user, queue) {
            None => return Err(HubFault::BadQueue),
            Some(found) if found.is_past_next(upto) => {
                return Err(HubFault::BadEventId { next: found.next });
            }
            Some(_) => {}
        }
        Ok(self.ack_found(user, queue, upto, now)?)
    }

    /// The work of an ack on a queue that is there.
    fn ack_found(
        &mut self,
        user: UserId,
        queue: QueueId,
        upto: Option<u64>,
        now: Moment,
    ) -> Result<List<QueueItem>, OutOfMemory>
        requires lives { queue_at self.old user queue ≢ None }
        ensures ok { IfOk result (λ left. IsAcked user queue upto now self.old left self.new) }
        ensures err { OnErr result (self.new ≡ self.old) }
    {
        let Some(found) = find_queue(&self.queues, user, queue.number) else {
            unreachable!()
        };
        let left = found.items_left(self.alloc, upto)?;
        let gone = found.acked(self.alloc, self.sender.outstanding(user), upto)?;
        self.sender.settle(user, Some(queue), &gone)?;
        poll(&mut self.queues, queue.number, upto, now);
        Ok(left)
    }

    /// Ends queues of the user, and sends what becomes of the deals that no queue of the user holds any more.
    fn end(&mut self, user: UserId, ending: &Ending) -> Result<(), OutOfMemory>
        requires mine { All (λ q. ends_by ending.now q ≡ true → is_of user q ≡ true) self.old.queues }
        ensures ok { OnOk result (self.new ≡ ended user (ends_by ending.now) self.old) }
        ensures err { OnErr result (self.new ≡ self.old) }
    {
        let deals = self.sender.outstanding(user);
        let gone = unheld(self.alloc, &self.queues, user, ending, deals)?;
        let lowest = lowest_living(&self.queues, user, ending);
        self.sender.settle(user, queue_id(self.run, lowest), &gone)?;
        end(&mut self.queues, ending);
        Ok(())
    }

    /// Ends the queue.
    pub fn leave(&mut self, user: UserId, queue: QueueId, _now: Moment) -> Result<(), HubFault>
        ensures ok { OnOk result (IsLeft user queue self.old self.new) }
        ensures bad_queue { (result ≡ Err HubFault.BadQueue) ↔ (queue_at self.old user queue ≡ None) }
        ensures no_event { (n : ℕ) → result ≢ Err (HubFault.BadEventId n) }
        ensures err { OnErr result (self.new ≡ self.old) }
    {
        if self.find(user, queue).is_none() {
            return Err(HubFault::BadQueue);
        }
        self.end(user, &Ending::Number(queue.number))?;
        Ok(())
    }

    /// Ends all overdue queues of the lowest-numbered user that has one.
    pub fn sweep_one(&mut self, now: Moment) -> Result<SweepAnswer, OutOfMemory>
        ensures answered { IfOk result (λ answer. IsSwept now self.old answer self.new) }
        // Where none is overdue it takes no memory, so the answer is promised.
        ensures none_overdue { list_any (is_overdue now) self.old.queues ≡ false → result ≡ Ok (SweepAnswer.NoneOverdue (next_overdue self.old)) }
        ensures err { OnErr result (self.new ≡ self.old) }
    {
        let Some(user) = overdue_user(&self.queues, now) else {
            return Ok(SweepAnswer::NoneOverdue(next_overdue(&self.queues)));
        };
        let user = UserId(user);
        let ending = Ending::Overdue { user, now };
        let queues = count_ending(&self.queues, &ending);
        self.end(user, &ending)?;
        Ok(SweepAnswer::Ended { user, queues })
    }
}

impl Take for Hub<PlainPipe> {
    ghost taken = { λ h. h.taken };

    ghost took = { λ before answer after. IsTaken before answer after };

    fn take(&mut self) -> Option<Outcome>
        ensures taken { self.new.taken ≡ self.old.taken ++ option_to_list result }
        ensures took { IsTaken self.old result self.new }
    {
        self.sender.take()
    }
}
