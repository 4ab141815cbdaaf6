//! The keeper, which holds the journal and the rows.
ghost use Rattle.std.specs.Prelude.{◌≡◌, ℕ, ◌+◌, ◌≤◌, Option, IfOk, IfErr, OnOk, OnErr, IfSome, is_some};
ghost use Rattle.std.specs.Option.{option_map};
ghost use Rattle.chat_model.specs.Counts.{HasRisen};
ghost use Rattle.chat_model.specs.Rows.{IsAscending};
ghost use Rattle.keeper.specs.declared.keeper.Kept.{Kept};
ghost use Rattle.keeper.specs.Kept.{committed, faults_told};

use chat_model::{List, Row, RowChange, Stamped};
use thiserror::Error;

/// Why a call of a keeper did not do its work. What is kept is as it was.
#[derive(Clone, Copy, Debug, PartialEq, Eq, Error)]
pub enum KeepFault {
    /// The keeper failed, and its count of faults rose.
    #[error("the keeper failed")]
    Failed,
    /// Memory was wanted.
    #[error("out of memory")]
    OutOfMemory,
}

/// The journal, and the rows by table, then by key.
#[derive(Debug, Drop)]
pub struct Kept {
    pub journal: List<Stamped>,
    pub rows: List<Row>,
}

/// What holds a journal and its rows. Each call keeps whether what is kept is told, and counts its own fault once.
pub trait Keeper {
    // what is kept, where the keeper tells it
    ghost kept: { Self → Option Kept };

    // how often it has failed
    ghost faults: { Self → ℕ };

    /// The journal and the rows, in a copy of their own.
    fn load(&mut self) -> Result<Kept, KeepFault>
        ensures gives { IfOk result (λ loaded. IfSome (kept self.old) (λ told. loaded ≡ told)) }
        ensures ascending { IfOk result (λ loaded. IsAscending loaded.rows) }
        ensures stays { kept self.new ≡ kept self.old }
        ensures failed { IfErr result (λ fault. fault ≡ KeepFault.Failed → HasRisen (faults self.old) (faults self.new)) }
        ensures counted { faults self.old ≤ faults self.new }
        ensures most { faults self.new ≤ faults self.old + faults_told result };

    /// Adds the event to the journal and makes the changes in the rows, first to last. It does all of it or nothing.
    fn commit(&mut self, event: &Stamped, changes: &[RowChange]) -> Result<(), KeepFault>
        ensures ok { OnOk result (kept self.new ≡ option_map (committed event.now changes.now) (kept self.old)) }
        ensures err { OnErr result (kept self.new ≡ kept self.old) }
        ensures told { is_some (kept self.new) ≡ is_some (kept self.old) }
        ensures failed { IfErr result (λ fault. fault ≡ KeepFault.Failed → HasRisen (faults self.old) (faults self.new)) }
        ensures counted { faults self.old ≤ faults self.new }
        ensures most { faults self.new ≤ faults self.old + faults_told result };
}
