//! What is kept, loaded and compared with the replay of its journal.
ghost use Rattle.std.specs.Prelude.{◌≡◌, ◌≢◌, ◌+◌, ◌≤◌, IfOk, IfErr, IfSome, OnOk, Option};
ghost use Rattle.chat_model.specs.Counts.{HasRisen};
ghost use Rattle.chat_model.specs.Rows.{IsAscending};
ghost use Rattle.chat_model.specs.declared.row.Row.{Row};
ghost use Rattle.notice_ledger.specs.Rows.{rows};
ghost use Rattle.book_tables.specs.Tables.{StandsFor};
ghost use Rattle.office.specs.Office.{KeptStandsFor, HasDisagreed};
ghost use Rattle.office.specs.Difference.{IsFirstDifference};
ghost use Rattle.office.specs.Faults.{faults_in_start};

use crate::difference::first_difference;
use crate::replay::replay;
use crate::{StartFault, StepFault};
use book_tables::Tables;
use chat_model::{List, Stamped};
use keeper::{Keeper, Kept};
use std::alloc::Global;

/// A journal that was loaded, and the tables that stand for it.
#[derive(Drop)]
pub struct Replayed {
    pub journal: Vec<Stamped>,
    pub tables: Tables,
}

// Replays what was loaded. Its rows have to be those of its journal.
fn replay_kept(alloc: Global, kept: Kept) -> Result<Replayed, StartFault>
    requires { IsAscending kept.rows }
    ensures journal { IfOk result (λ replayed. replayed.journal.items ≡ kept.journal) }
    ensures tables { IfOk result (λ replayed. StandsFor replayed.tables kept.journal) }
    ensures agree { OnOk result (kept.rows ≡ rows kept.journal) }
    ensures disagree { IfErr result (λ e. (x y : Option Row) → e ≡ StartFault.Disagree x y → IsFirstDifference kept.rows (rows kept.journal) x y) }
    ensures no_fault { IfErr result (λ e. e ≢ StartFault.KeeperFault) }
{
    let Ok(tables) = replay(alloc, kept.journal.as_slice()) else {
        return Err(StartFault::OutOfMemory);
    };
    let Ok(replayed) = tables.rows() else {
        return Err(StartFault::OutOfMemory);
    };
    if let Some((kept, replayed)) = first_difference(kept.rows, replayed) {
        return Err(StartFault::Disagree { kept, replayed });
    }
    Ok(Replayed {
        journal: kept.journal.into_vec(),
        tables,
    })
}

/// Loads what is kept, and replays it. It commits nothing.
pub fn load_kept<K: Keeper>(alloc: Global, keeper: &mut K) -> Result<Replayed, StartFault>
    ensures kept { IfOk result (λ replayed. IfSome (K.kept keeper.old) (KeptStandsFor replayed.journal.items)) }
    ensures tables { IfOk result (λ replayed. StandsFor replayed.tables replayed.journal.items) }
    ensures stays { K.kept keeper.new ≡ K.kept keeper.old }
    ensures fault { IfErr result (λ e. e ≡ StartFault.KeeperFault → HasRisen (K.faults keeper.old) (K.faults keeper.new)) }
    ensures disagree { IfErr result (λ e. (x y : Option Row) → e ≡ StartFault.Disagree x y → HasDisagreed (K.kept keeper.old) x y) }
    ensures counted_ok { OnOk result (K.faults keeper.new ≡ K.faults keeper.old) }
    ensures counted { K.faults keeper.old ≤ K.faults keeper.new }
    ensures most { IfErr result (λ e. K.faults keeper.new ≤ K.faults keeper.old + faults_in_start e) }
{
    match keeper.load() {
        Ok(kept) => replay_kept(alloc, kept),
        Err(fault) => Err(StartFault::from(StepFault::from(fault))),
    }
}

/// The kept journal, where the kept rows are those of its replay. It commits nothing.
pub fn kept_journal<K: Keeper>(alloc: Global, keeper: &mut K) -> Result<List<Stamped>, StartFault>
    ensures kept { IfOk result (λ journal. IfSome (K.kept keeper.old) (KeptStandsFor journal)) }
    ensures stays { K.kept keeper.new ≡ K.kept keeper.old }
    ensures fault { IfErr result (λ e. e ≡ StartFault.KeeperFault → HasRisen (K.faults keeper.old) (K.faults keeper.new)) }
    ensures disagree { IfErr result (λ e. (x y : Option Row) → e ≡ StartFault.Disagree x y → HasDisagreed (K.kept keeper.old) x y) }
    ensures counted_ok { OnOk result (K.faults keeper.new ≡ K.faults keeper.old) }
    ensures counted { K.faults keeper.old ≤ K.faults keeper.new }
    ensures most { IfErr result (λ e. K.faults keeper.new ≤ K.faults keeper.old + faults_in_start e) }
{
    let replayed = load_kept(alloc, keeper)?;
    Ok(List::from(replayed.journal))
}
