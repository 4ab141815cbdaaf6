//! A pipe within one thread.
ghost use Rattle.std.specs.Prelude.{◌≡◌, [], ◌∷◌, ◌++◌, IfErr, OnOk, OnErr};
ghost use Rattle.std.specs.Option.{option_to_list};
ghost use Rattle.missed_hook.specs.Orderly.{IsOrderly};
ghost use Rattle.missed_hook.specs.Passed.{TakesNext};

use crate::{Post, Take};
use chat_model::Outcome;
use std::alloc::Global;
use std::collections::VecDeque;
use std::marker::Model;

/// A pipe that keeps all that was sent, and a second copy of what isn't taken yet.
#[derive(Debug, Drop)]
pub struct PlainPipe {
    alloc: Global,
    sent: Vec<Outcome>,
    waiting: VecDeque<Outcome>,
}

impl Model for PlainPipe {
    ghost use Rattle.std.specs.Prelude.{◌≡◌, ◌++◌, ◌-◌, length, take};
    ghost use Rattle.missed_hook.specs.Passed.{Passed};

    ghost Value = { Passed };

    ghost view = { λ p. record { sent = p.sent.items; taken = take (length p.sent.items - length p.waiting.items) p.sent.items } };

    ghost invariant = { λ p. p.sent.items ≡ take (length p.sent.items - length p.waiting.items) p.sent.items ++ p.waiting.items };
}

impl PlainPipe {
    /// A pipe into which nothing was sent yet.
    pub fn new(alloc: Global) -> PlainPipe
        ensures { result ≡ record { sent = []; taken = [] } }
    {
        PlainPipe {
            alloc,
            sent: Vec::new(alloc),
            waiting: VecDeque::new(alloc),
        }
    }

    /// Lends all that was sent, the first outcome first.
    pub fn sent(&self) -> &[Outcome]
        ensures { result.now ≡ self.now.sent }
    {
        &self.sent
    }
}

impl Post for PlainPipe {
    ghost sent = { λ p. p.sent };

    ghost taken = { λ p. p.taken };

    fn post(&mut self, outcome: Outcome) -> Result<(), Outcome>
        requires orderly { IsOrderly (self.old.sent ++ outcome ∷ []) }
        ensures ok { OnOk result (self.new.sent ≡ self.old.sent ++ outcome ∷ []) }
        ensures back { IfErr result (λ back. back ≡ outcome) }
        ensures err { OnErr result (self.new.sent ≡ self.old.sent) }
        ensures taken { self.new.taken ≡ self.old.taken }
    {
        let Ok(copy) = outcome.copy(self.alloc) else {
            return Err(outcome);
        };
        if self.sent.reserve(1).is_err() || self.waiting.reserve(1).is_err() {
            return Err(outcome);
        }
        self.sent.push_reserved(outcome);
        if self.waiting.push_back(copy).is_err() {
            unreachable!()
        }
        Ok(())
    }
}

impl Take for PlainPipe {
    ghost taken = { λ p. p.taken };

    ghost took = { λ before answer after. TakesNext before answer after };

    fn take(&mut self) -> Option<Outcome>
        ensures taken { self.new.taken ≡ self.old.taken ++ option_to_list result }
        ensures took { TakesNext self.old result self.new }
    {
        self.waiting.pop_front()
    }
}
