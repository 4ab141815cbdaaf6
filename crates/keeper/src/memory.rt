//! A keeper in memory.
ghost use Rattle.std.specs.Prelude.{◌≡◌, ℕ, ◌+◌, ◌-◌, ◌^◌, ◌≤◌, ◌↔◌, [], Some, Option, IfOk, IfErr, OnOk, OnErr, IfSome, IsTrue, if◌then◌else◌, Contains, is_some};
ghost use Rattle.std.specs.Option.{option_map};
ghost use Rattle.chat_model.specs.Counts.{HasRisen};
ghost use Rattle.chat_model.specs.Rows.{IsAscending};
ghost use Rattle.keeper.specs.Kept.{committed, faults_told};
ghost use Rattle.keeper.specs.Memory.{Memory, counted, FailsNext, IsNextCall, faults_after};

use crate::{KeepFault, Keeper, Kept};
use chat_model::{List, Row, RowChange, Stamped, change_all, duplicate_all};
use std::alloc::Global;
use std::marker::Model;

/// A keeper in memory, of which chosen calls fail. It tells what it keeps.
#[derive(Debug, Drop)]
pub struct MemoryKeeper {
    alloc: Global,
    journal: Vec<Stamped>,
    rows: Vec<Row>,
    /// The numbers of the calls that fail, from 1 on.
    failing: List<u64>,
    calls: u64,
    faults: u64,
}

impl Model for MemoryKeeper {
    ghost use Rattle.chat_model.specs.Rows.{IsAscending};
    ghost use Rattle.keeper.specs.Memory.{Memory};

    ghost Value = { Memory };

    ghost view = { λ m. record { kept = record { journal = m.journal.items; rows = m.rows.items }; failing = m.failing; calls = m.calls; faults = m.faults } };

    ghost invariant = { λ m. IsAscending m.rows.items };
}

impl MemoryKeeper {
    /// A keeper that keeps nothing yet. Its calls are numbered from 1, and those of the list fail.
    pub fn new(alloc: Global, failing: List<u64>) -> MemoryKeeper
        ensures { result ≡ record { kept = record { journal = []; rows = [] }; failing = failing; calls = 0; faults = 0 } }
    {
        MemoryKeeper {
            alloc,
            journal: Vec::new(alloc),
            rows: Vec::new(alloc),
            failing,
            calls: 0,
            faults: 0,
        }
    }

    /// A keeper that keeps this journal and these rows, and of which no call fails.
    pub fn holding(alloc: Global, kept: Kept) -> MemoryKeeper
        requires { IsAscending kept.rows }
        ensures { result ≡ record { kept = kept; failing = []; calls = 0; faults = 0 } }
    {
        MemoryKeeper {
            alloc,
            journal: kept.journal.into_vec(),
            rows: kept.rows.into_vec(),
            failing: List::new(alloc),
            calls: 0,
            faults: 0,
        }
    }
}

/// Numbers a call, and counts a fault where it is one that fails.
fn begin(calls: &mut u64, faults: &mut u64, failing: &[u64]) -> bool
    ensures exact { IsTrue result ↔ Contains failing.now calls.new }
    ensures calls { calls.new ≡ counted calls.old }
    ensures faults { faults.new ≡ (if result then counted faults.old else faults.old) }
{
    *calls = calls.saturating_add(1);
    let number = *calls;
    let fails = failing.contains(&number);
    if fails {
        *faults = faults.saturating_add(1);
    }
    fails
}

impl Keeper for MemoryKeeper {
    ghost kept = { λ m. Some m.kept };

    ghost faults = { λ m. m.faults };

    fn load(&mut self) -> Result<Kept, KeepFault>
        ensures gives { IfOk result (λ loaded. loaded ≡ self.old.kept) }
        ensures ascending { IfOk result (λ loaded. IsAscending loaded.rows) }
        ensures stays { self.new.kept ≡ self.old.kept }
        ensures failed { IfErr result (λ fault. fault ≡ KeepFault.Failed → HasRisen self.old.faults self.new.faults) }
        ensures counted { self.old.faults ≤ self.new.faults }
        ensures most { self.new.faults ≤ self.old.faults + faults_told result }
        ensures exact { (result ≡ Err KeepFault.Failed) ↔ FailsNext self.old }
        ensures faults { self.new.faults ≡ faults_after result self.old.faults }
        ensures numbered { IsNextCall self.old self.new }
    {
        if begin(&mut self.calls, &mut self.faults, self.failing.as_slice()) {
            return Err(KeepFault::Failed);
        }
        let journal = duplicate_all(self.alloc, self.journal.as_slice());
        let rows = duplicate_all(self.alloc, self.rows.as_slice());
        match (journal, rows) {
            (Ok(journal), Ok(rows)) => Ok(Kept {
                journal: List::from(journal),
                rows: List::from(rows),
            }),
            _ => Err(KeepFault::OutOfMemory),
        }
    }

    fn commit(&mut self, event: &Stamped, changes: &[RowChange]) -> Result<(), KeepFault>
        ensures ok { OnOk result (self.new.kept ≡ committed event.now changes.now self.old.kept) }
        ensures err { OnErr result (self.new.kept ≡ self.old.kept) }
        ensures told { is_some (Some self.new.kept) ≡ is_some (Some self.old.kept) }
        ensures failed { IfErr result (λ fault. fault ≡ KeepFault.Failed → HasRisen self.old.faults self.new.faults) }
        ensures counted { self.old.faults ≤ self.new.faults }
        ensures most { self.new.faults ≤ self.old.faults + faults_told result }
        ensures exact { (result ≡ Err KeepFault.Failed) ↔ FailsNext self.old }
        ensures faults { self.new.faults ≡ faults_after result self.old.faults }
        ensures numbered { IsNextCall self.old self.new }
    {
        if begin(&mut self.calls, &mut self.faults, self.failing.as_slice()) {
            return Err(KeepFault::Failed);
        }
        let Ok(event) = event.copy(self.alloc) else {
            return Err(KeepFault::OutOfMemory);
        };
        let Ok(changes) = duplicate_all(self.alloc, changes) else {
            return Err(KeepFault::OutOfMemory);
        };
        if self.journal.reserve(1).is_err() || self.rows.reserve(changes.len()).is_err() {
            return Err(KeepFault::OutOfMemory);
        }
        self.journal.push_reserved(event);
        change_all(&mut self.rows, changes);
        Ok(())
    }
}
