//! The pushes that were handed over and go away: what a read or a deletion revokes, and the turn of a removal.
ghost use Rattle.std.specs.Prelude.{◌≡◌, ◌++◌, ◌∷◌, [], ℕ, true, List as Items, map, IfOk, OnOk};
ghost use Rattle.std.specs.List.{flat_map};
ghost use Rattle.chat_model.specs.declared.event.Stamped.{Stamped};
ghost use Rattle.chat_model.specs.declared.push_item.PushItem.TheVariants.{Remove};
ghost use Rattle.chat_model.specs.declared.event.Event.TheVariants.{Asked};
ghost use Rattle.chat_model.specs.declared.request.Request.TheVariants.{Read, Delete};
ghost use Rattle.chat_model.specs.Ascending.{is_ascending_by};
ghost use Rattle.notice_ledger.specs.Lawful.{lawful};
ghost use Rattle.notice_ledger.specs.Past.Outbox.{push_entries};
ghost use Rattle.revocation.specs.Removals.{removals_of};
ghost use Rattle.book_tables.specs.Notices.{IsInOrder, AreNumbered};
ghost use Rattle.book_tables.specs.Bars.{revoked_in};
ghost use Rattle.book_tables.specs.Prepared.{removed_push};

use crate::bars::is_active_unrevoked;
use crate::prepared::{Effect, Prepared};
use crate::pushes::PushKey;
use crate::tables::{Tables, Waiting};
use chat_model::{
    Entry, EntryNo, List, MessageId, Moment, OutOfMemory, PushItem, Row, RowChange, RowKey, Text,
    UserId,
};
use revocation::removals;
use std::alloc::Global;

/// Those of these messages whose push to the user is active and not revoked.
fn revoked(
    alloc: Global,
    active: &[Waiting],
    user: UserId,
    messages: &[MessageId],
) -> Result<Vec<MessageId>, OutOfMemory>
    ensures { IsInOrder active.now → AreNumbered active.now → IfOk result (λ made. made.items ≡ revoked_in active.now user messages.now) }
{
    let mut made = Vec::new(alloc);
    for message in messages {
        let pair = PushKey {
            user,
            message: *message,
        };
        if is_active_unrevoked(active, pair) {
            made.push(*message)?;
        }
    }
    Ok(made)
}

/// The removals that a bar of the user's notices of these messages makes: of those whose push is active and not revoked.
fn removals_read(
    alloc: Global,
    active: &[Waiting],
    user: UserId,
    messages: &[MessageId],
) -> Result<List<PushItem>, OutOfMemory>
    ensures { IsInOrder active.now → AreNumbered active.now → IfOk result (λ items. items ≡ removals_of user (revoked_in active.now user messages.now)) }
{
    let made = revoked(alloc, active, user, messages)?;
    removals(alloc, user, &made)
}

/// The removals that a deletion of the message makes, by user.
fn removals_gone(
    alloc: Global,
    active: &[Waiting],
    users: &[UserId],
    message: MessageId,
) -> Result<Vec<PushItem>, OutOfMemory>
    ensures { IsInOrder active.now → AreNumbered active.now → IfOk result (λ items. items.items ≡ flat_map (λ u. removals_of u (revoked_in active.now u (message ∷ []))) users.now) }
{
    let mut items = Vec::new(alloc);
    for user in users {
        let mut made = removals_read(alloc, active, *user, &[message])?.into_vec();
        items.append(&mut made)?;
    }
    Ok(items)
}

/// Takes the rows of the user's active pushes of these messages away.
fn remove_active(
    changes: &mut Vec<RowChange>,
    user: UserId,
    messages: &[MessageId],
) -> Result<(), OutOfMemory>
    ensures { OnOk result (changes.new.items ≡ changes.old.items ++ map (removed_push user) messages.now) }
{
    for message in messages {
        changes.push(RowChange::Remove(RowKey::Active(user, *message)))?;
    }
    Ok(())
}

impl Tables {
    ghost use Rattle.book_tables.specs.Tables.{Holds, StandsFor, IsOldest, removal_turn};
    ghost use Rattle.book_tables.specs.Prepared.{concerned, removals_made, FollowsAll};

    /// The removals that the user's read of these messages, which ascend, makes.
    pub(crate) fn read_removals(
        &self,
        user: UserId,
        messages: &[MessageId],
    ) -> Result<Vec<PushItem>, OutOfMemory>
        ensures { IfOk result (λ items. (past : Items Stamped) (at : ℕ) → Holds self.now past → is_ascending_by (λ m. m.0) messages.now ≡ true → items.items ≡ removals_made past (record { at = at; event = Asked (Read user messages.now) })) }
    {
        let items = removals_read(self.alloc, &self.active, user, messages)?;
        Ok(items.into_vec())
    }

    /// The removals that the deletion of the message makes, by user.
    pub(crate) fn delete_removals(
        &self,
        users: &[UserId],
        message: MessageId,
    ) -> Result<Vec<PushItem>, OutOfMemory>
        ensures { IfOk result (λ items. (past : Items Stamped) (at : ℕ) (user : UserId) → Holds self.now past → users.now ≡ concerned past message → items.items ≡ removals_made past (record { at = at; event = Asked (Delete user message) })) }
    {
        removals_gone(self.alloc, &self.active, users, message)
    }

    /// The entry of the turn of a removal at this stamp.
    pub(crate) fn removal_entry(
        &self,
        at: Moment,
        user: UserId,
        messages: &List<MessageId>,
    ) -> Result<Entry, OutOfMemory>
        ensures { IfOk result (λ entry. (past : Items Stamped) → Holds self.now past → entry ∷ [] ≡ push_entries past at (Remove user messages.now)) }
    {
        Ok(Entry::Remove {
            user,
            name: Text::from_str(self.alloc, self.name(user))?,
            at,
            messages: messages.copy()?,
        })
    }

    /// The turn of a removal, which waits longest.
    pub(crate) fn prepare_removal(
        &self,
        at: Moment,
        user: UserId,
        messages: &List<MessageId>,
    ) -> Result<Prepared, OutOfMemory>
        requires { IsOldest self.now (Remove user messages.now) }
        ensures { IfOk result (λ p. FollowsAll self.now (removal_turn at user messages.now) p) }
    {
        let entry = self.removal_entry(at, user, messages)?;
        let mut changes = Vec::new(self.alloc);
        remove_active(&mut changes, user, messages.as_slice())?;
        changes.push(RowChange::Put(Row::Outbox {
            number: EntryNo(self.outbox.len() as u64 + 1),
            entry: entry.copy(self.alloc)?,
            spooled: false,
        }))?;
        let messages = messages.copy()?;
        Ok(Prepared {
            at,
            changes,
            effect: Effect::Removed {
                user,
                messages,
                entry,
            },
        })
    }
}
