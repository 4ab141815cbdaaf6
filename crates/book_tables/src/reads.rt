//! What a read or a deletion will change.
ghost use Rattle.std.specs.Prelude.{◌≡◌, true, List as Items, map, option_to_list, IfOk};
ghost use Rattle.chat_model.specs.Ascending.{is_ascending_by};
ghost use Rattle.chat_model.specs.declared.event.Event.TheVariants.{Asked};
ghost use Rattle.chat_model.specs.declared.event.Stamped.{Stamped};
ghost use Rattle.chat_model.specs.declared.request.Request.TheVariants.{Delete, Read};
ghost use Rattle.chat_model.specs.declared.row.RowChange.TheVariants.{Put};
ghost use Rattle.book_tables.specs.Prepared.{deleted_row, concerned};

use crate::bars::{cancelled_by, pairs_gone, pairs_read, remove_all_barred};
use crate::prepared::{Effect, Prepared};
use crate::tables::{Tables, item_at};
use chat_model::{Cause, MessageId, Moment, OutOfMemory, Row, RowChange, UserId};

impl Tables {
    ghost use Rattle.book_tables.specs.Tables.{Holds};
    ghost use Rattle.book_tables.specs.Prepared.{FollowsAll};

    /// The row of a message that becomes deleted, which keeps its text; none where it isn't there.
    fn deleted_row(&self, message: MessageId) -> Result<Vec<RowChange>, OutOfMemory>
        ensures { IfOk result (λ changes. (past : Items Stamped) → Holds self.now past → changes.items ≡ map Put (option_to_list (deleted_row past message))) }
    {
        let mut changes = Vec::new(self.alloc);
        if let Some(sent) = item_at(&self.messages, message.0) {
            changes.push(RowChange::Put(Row::Message {
                id: message,
                sender: sent.sender,
                text: sent.text.copy()?,
                deleted: true,
            }))?;
        }
        Ok(changes)
    }

    /// The users whom a message's send owes a notice, ascending.
    fn concerned(&self, message: MessageId) -> &[UserId]
        ensures { (past : Items Stamped) → Holds self.now past → result.now ≡ concerned past message }
    {
        match item_at(&self.deals, message.0) {
            Some(deal) => deal.users.as_slice(),
            None => &[],
        }
    }

    /// A deletion bars all notices of its message.
    pub(crate) fn prepare_delete(
        &self,
        at: Moment,
        user: UserId,
        message: MessageId,
    ) -> Result<Prepared, OutOfMemory>
        ensures { IfOk result (λ p. FollowsAll self.now (record { at = at; event = Asked (Delete user message) }) p) }
    {
        let users = self.concerned(message);
        let pairs = pairs_gone(self.alloc, users, message)?;
        let mut changes = self.deleted_row(message)?;
        remove_all_barred(&mut changes, &self.waiting, &pairs)?;
        Ok(Prepared {
            at,
            changes,
            effect: Effect::Barred {
                cause: Cause::Deleted,
                deleted: Some(message),
                cancelled: cancelled_by(&self.waiting, &self.cleared, &pairs),
                removals: self.delete_removals(users, message)?,
                pairs,
            },
        })
    }

    /// A read bars the user's notices of its messages, and looks at no others.
    pub(crate) fn prepare_read(
        &self,
        at: Moment,
        user: UserId,
        messages: &[MessageId],
    ) -> Result<Prepared, OutOfMemory>
        requires { is_ascending_by (λ m. m.0) messages.now ≡ true }
        ensures { IfOk result (λ p. FollowsAll self.now (record { at = at; event = Asked (Read user messages.now) }) p) }
    {
        let pairs = pairs_read(self.alloc, user, messages)?;
        let mut changes = Vec::new(self.alloc);
        remove_all_barred(&mut changes, &self.waiting, &pairs)?;
        Ok(Prepared {
            at,
            changes,
            effect: Effect::Barred {
                cause: Cause::Read,
                deleted: None,
                cancelled: cancelled_by(&self.waiting, &self.cleared, &pairs),
                removals: self.read_removals(user, messages)?,
                pairs,
            },
        })
    }
}
