//! The counts.
ghost use Rattle.std.specs.Prelude.{◌≡◌, List, length, filter};
ghost use Rattle.chat_model.specs.declared.event.Stamped.{Stamped};
ghost use Rattle.notice_ledger.specs.Audit.{counts_of};
ghost use Rattle.book_tables.specs.Notices.{is_at_stage, is_barred};

use crate::tables::{Tables, Waiting};
use chat_model::{Counts, Stage};

/// How many notices are at a stage, and barred by nothing.
fn count_at(waiting: &[Waiting], stage: Stage) -> usize
    ensures { result ≡ length (filter (is_at_stage stage) waiting.now) }
{
    waiting
        .iter()
        .filter(|notice| notice.is_at_stage(stage))
        .count()
}

/// How many of these pushes, which are active, are revoked.
fn revoked_count(active: &[Waiting]) -> usize
    ensures { result ≡ length (filter is_barred active.now) }
{
    active.iter().filter(|push| push.is_barred()).count()
}

impl Tables {
    ghost use Rattle.book_tables.specs.Tables.{StandsFor};

    /// How many owed notices stand where, and how many entries the outbox has. It takes no memory.
    pub fn audit(&self) -> Counts
        ensures { (j : List Stamped) → StandsFor self.now j → result ≡ counts_of j }
    {
        Counts {
            flight: count_at(&self.waiting, Stage::Flight) as u64,
            held: count_at(&self.waiting, Stage::Held) as u64,
            ready: count_at(&self.waiting, Stage::Ready) as u64,
            handed: self.handed,
            read: self.read,
            deleted: self.gone,
            off: self.off,
            live: self.cleared.len() as u64,
            entries: self.outbox.len() as u64,
            waiting: revoked_count(&self.active) as u64,
            written: self.written,
        }
    }
}
