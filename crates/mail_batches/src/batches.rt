//! The mails that wait for each user, and when they are due.
ghost use Rattle.std.specs.Prelude.{◌≡◌, ◌+◌, ◌^◌, ◌≤◌, ◌↔◌, [], max, IsNone, IfSome, OnOk, OnErr};
ghost use Rattle.std.specs.Option.{MatchOption};
ghost use Rattle.std.specs.FinMap as map;

use crate::by_user::ByUser;
use chat_model::{MessageId, Moment, OutOfMemory, UserId};
use std::alloc::Global;
use std::marker::Model;

/// A user with its due moment, in seconds since 1970-01-01T00:00:00Z.
#[derive(Clone, Copy, Debug, PartialEq, Eq)]
pub struct DueUser {
    pub due: u64,
    pub user: UserId,
}

/// The rows of each user in order, and each user's due moment. Only `reserve` takes memory.
#[derive(Debug, Drop)]
pub struct Batches {
    rows: ByUser<MessageId>,
    dues: ByUser<u64>,
}

impl Model for Batches {
    ghost use Rattle.std.specs.Prelude.{◌≡◌, ◌≤◌, ℕ, length, map, min};
    ghost use Rattle.std.specs.Coded.{codes, coded_ℕ};
    ghost use Rattle.std.specs.Ordering.{nat_cmp};
    ghost use Rattle.std.specs.FinMap as finite;
    ghost use Rattle.mail_batches.specs.ByUser.{values_of};
    ghost use Rattle.mail_batches.specs.Batches.{Waiting, Batch};

    ghost Value = { Waiting };

    ghost coded = { Prim.hlevel (codes, finite.code {X = Batch} {R = nat_cmp} coded_ℕ) };

    ghost view = { λ b. record { batches = finite.from_entries (map (λ e. (e.0.0, record { due = e.1; rows = values_of e.0.0 b.rows.entries })) b.dues.entries); spare = b.rows.spare } };

    ghost invariant = { λ b. ((u : ℕ) → length (values_of u b.dues.entries) ≡ min 1 (length (values_of u b.rows.entries))) × (b.rows.spare ≤ b.dues.spare) };
}

impl Batches {
    ghost use Rattle.mail_batches.specs.Batches.{due_of, rows_of, with_row, shifted, settled, IsDueFirst};

    /// No rows.
    pub fn new(alloc: Global) -> Batches
        ensures { result ≡ record { batches = map.empty; spare = 0 } }
    {
        Batches {
            rows: ByUser::new(alloc),
            dues: ByUser::new(alloc),
        }
    }

    /// Makes room for so many more rows. Want of memory changes nothing.
    pub fn reserve(&mut self, more: usize) -> Result<(), OutOfMemory>
        ensures ok { OnOk result (self.new ≡ record self.old { spare = max self.old.spare more }) }
        ensures err { OnErr result (self.new ≡ self.old) }
    {
        self.dues.reserve(more)?;
        self.rows.reserve(more)
    }

    /// Adds a row after the user's others. The first one sets the due moment: `period` seconds after `at`. There must be
    /// room for a row.
    pub fn ready(&mut self, user: UserId, message: MessageId, at: Moment, period: u64)
        requires room { 1 ≤ self.old.spare }
        requires period { period ≤ 604800 }
        ensures { self.new ≡ with_row self.old user message (at + period) }
    {
        self.dues.add_first(user, at.seconds() + period);
        self.rows.add(user, message);
    }

    /// Moves the due moment that the user has by a new period, in seconds, less the old one.
    pub fn shift(&mut self, user: UserId, old: u64, new: u64)
        requires new { new ≤ 604800 }
        requires between { IfSome (due_of self.old user) (λ due. (old ≤ due) × (due ≤ old + 2 ^ 37)) }
        ensures { self.new ≡ shifted self.old user old new }
    {
        if let Some(due) = self.dues.first(user) {
            self.dues.set_first(user, due - old + new);
        }
    }

    /// The user's due moment. `None` exactly where the user has no row.
    pub fn due(&self, user: UserId) -> Option<u64>
        ensures due { result ≡ due_of self.now user }
        ensures none { IsNone result ↔ (rows_of self.now user ≡ []) }
    {
        self.dues.first(user)
    }

    /// The user with the least due moment, ties by the lower number. `None` exactly where no user has a row.
    pub fn first_due(&self) -> Option<DueUser>
        ensures { MatchOption result (self.now.batches ≡ map.empty) (IsDueFirst self.now) }
    {
        self.dues.least()
    }

    /// Lends the user's rows in order.
    pub fn rows(&self, user: UserId) -> &[MessageId]
        ensures { result.now ≡ rows_of self.now user }
    {
        self.rows.of(user)
    }

    /// Removes the user's rows and the due moment.
    pub fn settle(&mut self, user: UserId)
        ensures { self.new ≡ settled self.old user }
    {
        self.rows.remove(user);
        self.dues.remove(user);
    }
}
