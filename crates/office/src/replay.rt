//! The tables of a journal, event by event.
ghost use Rattle.std.specs.Prelude.{IfOk};
ghost use Rattle.book_tables.specs.Tables.{StandsFor};

use book_tables::Tables;
use chat_model::{OutOfMemory, Stamped};
use std::alloc::Global;

/// The tables that stand for the journal: each event is followed where it is lawful after those before it.
pub fn replay(alloc: Global, journal: &[Stamped]) -> Result<Tables, OutOfMemory>
    ensures { IfOk result (λ tables. StandsFor tables journal.now) }
{
    let mut tables = Tables::new(alloc);
    for event in journal {
        if tables.lawful(event) {
            let prepared = tables.prepare(event)?;
            tables.reserve(&prepared)?;
            tables.apply(prepared);
        }
    }
    Ok(tables)
}
