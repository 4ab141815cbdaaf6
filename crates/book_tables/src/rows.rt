//! The rows of the tables.
ghost use Rattle.std.specs.Prelude.{◌≡◌, ◌++◌, List as Items, map, IfOk, OnOk};
ghost use Rattle.chat_model.specs.declared.event.Stamped.{Stamped};
ghost use Rattle.chat_model.specs.declared.row.RowChange.TheVariants.{Put};
ghost use Rattle.notice_ledger.specs.Rows.{rows};
ghost use Rattle.notice_ledger.specs.Past.Values.{people, messages};
ghost use Rattle.notice_ledger.specs.Past.Rows.{user_rows_from, message_rows_from};

use crate::prepared::{put_active, put_entries, put_notices};
use crate::tables::Tables;
use chat_model::{List, MessageId, OutOfMemory, Row, RowChange, change_all};

impl Tables {
    ghost use Rattle.book_tables.specs.Tables.{Holds, StandsFor};

    /// Adds a row for each user.
    fn put_users(&self, puts: &mut Vec<RowChange>) -> Result<(), OutOfMemory>
        ensures { (past : Items Stamped) → Holds self.now past → OnOk result (puts.new.items ≡ puts.old.items ++ map Put (user_rows_from past 1 (people past))) }
    {
        for name in &self.names {
            puts.push(RowChange::Put(Row::User {
                id: name.id,
                name: name.name.copy()?,
                bot: self.is_bot(name.id),
                settings: self.settings(name.id),
            }))?;
        }
        Ok(())
    }

    /// Adds a row for each message.
    fn put_messages(&self, puts: &mut Vec<RowChange>) -> Result<(), OutOfMemory>
        ensures { (past : Items Stamped) → Holds self.now past → OnOk result (puts.new.items ≡ puts.old.items ++ map Put (message_rows_from past 1 (messages past))) }
    {
        for (i, message) in self.messages.iter().enumerate() {
            puts.push(RowChange::Put(Row::Message {
                id: MessageId(1 + i as u64),
                sender: message.sender,
                text: message.text.copy()?,
                deleted: self.is_deleted(MessageId(1 + i as u64)),
            }))?;
        }
        Ok(())
    }

    /// The rows of the kept tables, by table and key.
    pub fn rows(&self) -> Result<List<Row>, OutOfMemory>
        ensures { IfOk result (λ all. (j : Items Stamped) → StandsFor self.now j → all ≡ rows j) }
    {
        let mut puts = Vec::new(self.alloc);
        self.put_users(&mut puts)?;
        self.put_messages(&mut puts)?;
        put_notices(&mut puts, &self.waiting)?;
        put_active(&mut puts, &self.active)?;
        put_entries(self.alloc, &mut puts, 0, &self.outbox)?;
        let mut rows = Vec::new(self.alloc);
        rows.reserve(puts.len())?;
        change_all(&mut rows, puts);
        Ok(List::from(rows))
    }
}
