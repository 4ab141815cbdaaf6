//! The end of the pipe to the office, and what of the deals that went through it still waits.
ghost use Rattle.std.specs.Prelude.{◌≡◌, [], ◌∷◌, ◌++◌, IfOk, OnOk, OnErr};
ghost use Rattle.chat_model.specs.declared.deal.Outcome.TheVariants.{Dealt};
ghost use Rattle.missed_hook.specs.Orderly.{IsOrderly};
ghost use Rattle.missed_hook.specs.Outstanding.{outstanding};
ghost use Rattle.missed_hook.specs.Passed.{TakesNext};
ghost use Rattle.presence_queues.specs.Steps.{and_sent, outcome_by};

use crate::waiting::{Waiting, add_live, deals_of, enter_live, forget, reserve_live};
use chat_model::{DealNo, List, OutOfMemory, Outcome, QueueId, UserId, UserVerdict};
use missed_hook::{PlainPipe, Post, Take};
use std::alloc::Global;
use std::marker::Model;

/// A pipe into which outcomes are sent, and the deals that are outstanding for each user.
#[derive(Drop)]
pub struct Sender<T: Post> {
    alloc: Global,
    pipe: T,
    waiting: Vec<Waiting>,
}

impl<T: Post> Model for Sender<T> {
    ghost use Rattle.missed_hook.specs.Passed.{Passed};
    ghost use Rattle.presence_queues.specs.Fields.{IsWaiting, waiting_seen};

    ghost Value = { Passed };

    ghost view = { λ s. record { sent = T.sent s.pipe; taken = T.taken s.pipe } };

    ghost invariant = { λ s. IsWaiting (T.sent s.pipe) (waiting_seen s.waiting.items) };
}

/// The deals that were cleared by a queue, or missed.
fn settled(user: UserId, by: Option<QueueId>, deals: List<DealNo>) -> Outcome
    ensures { result ≡ outcome_by user by deals }
{
    match by {
        Some(queue) => Outcome::Cleared { user, deals, queue },
        None => Outcome::Missed { user, deals },
    }
}

impl<T: Post> Sender<T> {
    /// Over a pipe into which nothing was sent yet.
    pub fn new(alloc: Global, pipe: T) -> Sender<T>
        requires { T.sent pipe ≡ [] }
        ensures { result ≡ record { sent = []; taken = T.taken pipe } }
    {
        Sender {
            alloc,
            pipe,
            waiting: Vec::new(alloc),
        }
    }

    /// Lends the pipe.
    pub fn pipe(&self) -> &T
        ensures { record { sent = T.sent result.now; taken = T.taken result.now } ≡ self.now }
    {
        &self.pipe
    }

    /// The deals that are outstanding for the user.
    pub fn outstanding(&self, user: UserId) -> &[DealNo]
        ensures { result.now ≡ outstanding self.now.sent user }
    {
        deals_of(&self.waiting, user)
    }

    /// Sends the verdicts of a deal. Want of memory changes nothing.
    pub fn deal(&mut self, deal: DealNo, verdicts: &[UserVerdict]) -> Result<(), OutOfMemory>
        requires orderly { IsOrderly (self.old.sent ++ Dealt deal verdicts.now ∷ []) }
        ensures ok { OnOk result (self.new ≡ record { sent = self.old.sent ++ Dealt deal verdicts.now ∷ []; taken = self.old.taken }) }
        ensures err { OnErr result (self.new ≡ self.old) }
    {
        let sent = Vec::from_slice(self.alloc, verdicts)?;
        enter_live(self.alloc, &mut self.waiting, verdicts)?;
        reserve_live(&mut self.waiting, verdicts)?;
        let dealt = Outcome::Dealt {
            deal,
            verdicts: List::from(sent),
        };
        if self.pipe.post(dealt).is_err() {
            return Err(OutOfMemory);
        }
        add_live(&mut self.waiting, verdicts, deal);
        Ok(())
    }

    /// Sends that these deals of the user were cleared by the queue, or missed, if there are any. Want of memory
    /// changes nothing.
    pub fn settle(
        &mut self,
        user: UserId,
        by: Option<QueueId>,
        gone: &[DealNo],
    ) -> Result<(), OutOfMemory>
        requires orderly { IsOrderly (and_sent self.old.sent (outcome_by user by) gone.now) }
        ensures ok { OnOk result (self.new ≡ record { sent = and_sent self.old.sent (outcome_by user by) gone.now; taken = self.old.taken }) }
        ensures err { OnErr result (self.new ≡ self.old) }
    {
        if gone.is_empty() {
            return Ok(());
        }
        let deals = Vec::from_slice(self.alloc, gone)?;
        if self
            .pipe
            .post(settled(user, by, List::from(deals)))
            .is_err()
        {
            return Err(OutOfMemory);
        }
        forget(&mut self.waiting, user, gone);
        Ok(())
    }
}

impl Sender<PlainPipe> {
    /// Takes the next outcome, if there is one.
    pub fn take(&mut self) -> Option<Outcome>
        ensures { TakesNext self.old result self.new }
    {
        self.pipe.take()
    }
}
