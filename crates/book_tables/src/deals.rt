//! The deals: what a send hands to the hub.
ghost use Rattle.std.specs.Prelude.{◌≡◌, ◌≤◌, ◌↔◌, List as Items, IfOk, None, map};
ghost use Rattle.std.specs.Option.{option_copied};
ghost use Rattle.chat_model.specs.declared.event.Stamped.{Stamped};

use crate::tables::{Tables, Waiting};
use chat_model::{Deal, DealNo, List, MessageId, OutOfMemory, UserId, ascending_users};
use std::alloc::Global;

/// The users of these notices, in their order.
fn users_of(alloc: Global, owed: &[Waiting]) -> Result<List<UserId>, OutOfMemory>
    ensures { IfOk result (λ users. users ≡ map (λ w. w.user) owed.now) }
{
    let mut users = List::new(alloc);
    for notice in owed {
        users.push(notice.user)?;
    }
    Ok(users)
}

impl Tables {
    ghost use Rattle.notice_ledger.specs.Past.Journal.{Occurrence};
    ghost use Rattle.notice_ledger.specs.Past.Owed.{owed_by};
    ghost use Rattle.notice_ledger.specs.Past.Deals.{deal_of};
    ghost use Rattle.notice_ledger.specs.Journal.{deal_count};
    ghost use Rattle.notice_ledger.specs.Deals.{deal};
    ghost use Rattle.book_tables.specs.Tables.{Holds, StandsFor, in_flight};

    /// The deal of the next message, whose send owes these notices.
    pub(crate) fn deal_of(&self, owed: &[Waiting]) -> Result<Deal, OutOfMemory>
        ensures { IfOk result (λ made. (o : Occurrence) → Holds self.now o.past → owed.now ≡ map in_flight (owed_by o) → made ≡ deal_of o) }
    {
        let users = users_of(self.alloc, owed)?;
        Ok(Deal {
            number: DealNo(self.messages.len() as u64),
            message: MessageId(self.messages.len() as u64 + 1),
            users: ascending_users(users),
        })
    }

    /// The deal of a number.
    pub fn deal(&self, number: DealNo) -> Option<&Deal>
        ensures deal { (j : Items Stamped) → StandsFor self.now j → option_copied result ≡ deal j number }
        ensures none { (j : Items Stamped) → StandsFor self.now j → (option_copied result ≡ None) ↔ (deal_count j ≤ number.0) }
    {
        self.deals.get(number.0 as usize)
    }
}
