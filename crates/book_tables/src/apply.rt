//! How an effect is made in the tables: first the room for it, then the effect, which cannot fail.
ghost use Rattle.std.specs.Vec.{vec_len, vec_capacity};
ghost use Rattle.std.specs.Prelude.{◌≡◌, ◌≢◌, ◌≤◌, ◌<◌, ◌+◌, ◌*◌, true, List, ◌∷◌, [], ◌++◌, length, map, OnOk};
ghost use Rattle.chat_model.specs.declared.event.Stamped.{Stamped};
ghost use Rattle.notice_ledger.specs.Lawful.{is_lawful_after};
ghost use Rattle.book_tables.specs.Batched.{IsSound};
ghost use Rattle.book_tables.specs.Pushes.{item_of};
ghost use Rattle.book_tables.specs.Applied.{Fits, IsApplied, IsCleared, IsChanged, IsSettled, HadTurn, HadRemoval, AreBarred, counted_for, HoldTheSame};
ghost use Rattle.book_tables.specs.Rooms.{HasRoom, HasRoomFor};
ghost use Rattle.book_tables.specs.Prepared.{IsPreparedFor, WasPrepared};

use crate::bars::{bar_all_waiting, revoke_all, take_all_cleared, take_removed};
use crate::preferences::{
    Preference, Preferences, change_preference, period_of, reserve_preference,
};
use crate::prepared::{Effect, Prepared};
use crate::pushes::PushKey;
use crate::receipts::set_mark_of;
use crate::sets::{change_set, reserve_in_set};
use crate::tables::Tables;
use crate::user_set::UserSet;
use crate::waiting::{clear_named, find_deal, put_taken, take_batch_rows, take_ready};
use chat_model::{Cause, DealNo, Entry, MessageId, Moment, OutOfMemory, PushItem, UserId, Way};

impl Tables {
    ghost use Rattle.book_tables.specs.Tables.{StandsFor};

    /// Makes room for the effect.
    fn make_room(&mut self, effect: &Effect) -> Result<(), OutOfMemory>
        ensures same { HoldTheSame self.old self.new }
        ensures ok { OnOk result (HasRoom self.new effect.now) }
    {
        match effect {
            Effect::Start { pushes } => {
                self.batches.reserve(self.waiting.len())?;
                self.pushes.reserve(pushes.len(), 0)
            }
            Effect::Dealt { deal, pushes, .. } => {
                let stretch = find_deal(&self.waiting, *deal);
                self.batches.reserve(stretch.to - stretch.from)?;
                self.pushes.reserve(pushes.len(), 0)
            }
            Effect::Cleared { deals, .. } => {
                self.cleared
                    .reserve(deals.as_slice().len().saturating_mul(2))?;
                Ok(())
            }
            Effect::Missed { deals, pushes, .. } => {
                self.batches.reserve(deals.as_slice().len())?;
                self.pushes.reserve(pushes.len(), 0)
            }
            Effect::User { .. } => {
                self.names.reserve(1)?;
                self.bots.reserve(1)?;
                self.preferences.reserve(1)?;
                Ok(())
            }
            Effect::Group { .. } => {
                self.groups.reserve(1)?;
                self.members.reserve(1)?;
                Ok(())
            }
            Effect::Membership { group, on, .. } => {
                reserve_in_set(&mut self.members, group.0, *on)
            }
            Effect::Channel { .. } => {
                self.channels.reserve(1)?;
                self.subscribers.reserve(1)?;
                Ok(())
            }
            Effect::Subscription { channel, on, .. } => {
                reserve_in_set(&mut self.subscribers, channel.0, *on)
            }
            Effect::Preference { user, change } => {
                reserve_preference(&mut self.preferences, user.0, change)
            }
            Effect::Message { waiting, .. } => {
                self.messages.reserve(1)?;
                self.addressees.reserve(1)?;
                self.deleted.reserve(1)?;
                self.deals.reserve(1)?;
                self.waiting.reserve(waiting.len())?;
                Ok(())
            }
            Effect::Mailed { entries, .. } => {
                self.outbox.reserve(entries.len())?;
                Ok(())
            }
            Effect::Pushed { entry: Some(_), .. } => {
                self.active.reserve(1)?;
                self.outbox.reserve(1)?;
                Ok(())
            }
            Effect::Pushed { entry: None, .. } => Ok(()),
            Effect::Barred { removals, .. } => self.pushes.reserve(removals.len(), 0),
            Effect::Removed { .. } => {
                self.outbox.reserve(1)?;
                Ok(())
            }
        }
    }

    /// Moves a user's undecided notices of these deals to those that a live queue cleared.
    fn clear(&mut self, user: UserId, deals: &[DealNo])
        requires { vec_len self.old.cleared + 2 * length deals.now ≤ vec_capacity self.old.cleared }
        ensures { IsCleared self.old self.new user deals.now }
    {
        clear_named(&mut self.waiting, &mut self.cleared, user, deals);
    }

    /// Changes what the user prefers. A new period moves the user's due moment by itself less the old one.
    fn change(&mut self, user: UserId, change: Preference)
        requires sound { IsSound self.old }
        requires period { Fits self.old (Effect.Preference user change) }
        requires room { HasRoom self.old (Effect.Preference user change) }
        ensures { IsChanged self.old self.new user change }
    {
        // So no due moment lies 2^37 seconds or more behind the period.
        prove!(self.last.seconds() < 1 << 37);
        let before = period_of(&self.preferences, user);
        change_preference(&mut self.preferences, user.0, change);
        let after = period_of(&self.preferences, user);
        self.batches.shift(user, before, after);
    }

    /// Adds the items of these pushes.
    fn add_items(&mut self, pushes: &[PushKey])
        requires { length pushes.now ≤ self.old.pushes.item_room }
        ensures rest { self.new ≡ record self.old { pushes = self.new.pushes } }
        ensures items { self.new.pushes.items ≡ self.old.pushes.items ++ map item_of pushes.now }
    {
        for push in pushes {
            self.pushes.add(push.item());
        }
    }

    /// Takes the turn of the item that waits longest, which is that of the user's push of a message.
    fn take_turn(&mut self, user: UserId, message: MessageId, entry: Option<Entry>, off: u64)
        requires sound { IsSound self.old }
        requires waits { self.old.pushes.items ≢ [] }
        requires room { HasRoom self.old (Effect.Pushed user message entry off) }
        ensures { HadTurn self.old self.new user message entry off }
    {
        self.pushes.drop_oldest();
        let taken = take_ready(&mut self.waiting, user, message, Way::Push);
        self.off = self.off.saturating_add(off);
        if let Some(entry) = entry {
            put_taken(&mut self.active, taken);
            self.outbox.push_reserved(entry);
            self.handed = self.handed.saturating_add(1);
        }
    }

    /// Takes the turn of the item that waits longest, which is the removal of the user's pushes of these messages.
    fn take_removal(&mut self, user: UserId, messages: &[MessageId], entry: Entry)
        requires sound { IsSound self.old }
        requires waits { self.old.pushes.items ≢ [] }
        requires room { vec_len self.old.outbox < vec_capacity self.old.outbox }
        ensures { HadRemoval self.old self.new user messages.now entry }
    {
        self.pushes.drop_oldest();
        let before = self.active.len();
        take_removed(&mut self.active, user, messages);
        let removed = before.saturating_sub(self.active.len());
        self.written = self.written.saturating_add(removed as u64);
        self.outbox.push_reserved(entry);
    }

    /// Counts so many notices as cancelled for this cause.
    fn count_cancelled(&mut self, cause: Cause, cancelled: u64)
        ensures rest { self.new ≡ record self.old { read = self.new.read; gone = self.new.gone; off = self.new.off } }
        ensures read { self.new.read ≡ counted_for cause Cause.Read cancelled self.old.read }
        ensures gone { self.new.gone ≡ counted_for cause Cause.Deleted cancelled self.old.gone }
        ensures off { self.new.off ≡ counted_for cause Cause.SwitchedOff cancelled self.old.off }
    {
        match cause {
            Cause::Read => self.read = self.read.saturating_add(cancelled),
            Cause::Deleted => self.gone = self.gone.saturating_add(cancelled),
            Cause::SwitchedOff => self.off = self.off.saturating_add(cancelled),
        }
    }

    /// Adds items that remove pushes.
    fn add_removals(&mut self, removals: Vec<PushItem>)
        requires { length removals.items ≤ self.old.pushes.item_room }
        ensures rest { self.new ≡ record self.old { pushes = self.new.pushes } }
        ensures items { self.new.pushes.items ≡ self.old.pushes.items ++ removals.items }
    {
        for item in removals {
            self.pushes.add(item);
        }
    }

    /// Bars the notices of these pairs.
    fn bar(&mut self, cause: Cause, deleted: Option<MessageId>, pairs: &[PushKey])
        requires { IsSound self.old }
        ensures { AreBarred self.old self.new cause deleted pairs.now }
    {
        set_mark_of(&mut self.deleted, deleted);
        bar_all_waiting(&mut self.waiting, pairs, cause);
        take_all_cleared(&mut self.cleared, pairs);
        revoke_all(&mut self.active, pairs, cause);
    }

    /// Takes the user's batch rows out.
    fn settle(&mut self, user: UserId)
        requires { IsSound self.old }
        ensures { IsSettled self.old self.new user }
    {
        take_batch_rows(&mut self.waiting, user, self.batches.rows(user));
        self.batches.settle(user);
    }

    /// Makes the effect at a stamp.
    fn make(&mut self, at: Moment, effect: Effect)
        requires room { HasRoom self.old effect }
        requires sound { IsSound self.old }
        requires fits { Fits self.old effect }
        ensures { IsApplied self.old self.new at effect }
    {
        match effect {
            Effect::Start { pushes } => {
                self.starts = self.starts.saturating_add(1);
                self.ready_all(at);
                self.add_items(&pushes);
                return;
            }
            Effect::Dealt {
                deal,
                idle,
                live,
                pushes,
            } => {
                self.deal_out(at, deal, &idle, &live);
                self.add_items(&pushes);
                return;
            }
            Effect::Cleared { user, deals } => {
                self.clear(user, deals.as_slice());
                return;
            }
            Effect::Missed {
                user,
                deals,
                pushes,
            } => {
                self.ready_named(at, user, deals.as_slice());
                self.add_items(&pushes);
                return;
            }
            Effect::User { user, bot } => {
                let preferences = Preferences::new(self.alloc);
                self.names.push_reserved(user);
                self.bots.push_reserved(bot);
                self.preferences.push_reserved(preferences);
                return;
            }
            Effect::Group { group, members } => {
                self.groups.push_reserved(group);
                self.members.push_reserved(members);
                return;
            }
            Effect::Membership { group, user, on } => {
                change_set(&mut self.members, group.0, user, on);
                return;
            }
            Effect::Channel { name } => {
                let nobody = UserSet::new(self.alloc);
                self.channels.push_reserved(name);
                self.subscribers.push_reserved(nobody);
                return;
            }
            Effect::Subscription { channel, user, on } => {
                change_set(&mut self.subscribers, channel.0, user, on);
                return;
            }
            Effect::Preference { user, change } => {
                self.change(user, change);
                return;
            }
            Effect::Message {
                message,
                addressees,
                mut waiting,
                deal,
            } => {
                self.messages.push_reserved(message);
                self.addressees.push_reserved(addressees);
                self.deleted.push_reserved(false);
                self.deals.push_reserved(deal);
                self.waiting.append(&mut waiting).unwrap();
                return;
            }
            Effect::Mailed {
                user,
                mut entries,
                handed,
                off,
            } => {
                self.settle(user);
                self.outbox.append(&mut entries).unwrap();
                self.handed = self.handed.saturating_add(handed);
                self.off = self.off.saturating_add(off);
                return;
            }
            Effect::Pushed {
                user,
                message,
                entry,
                off,
            } => {
                self.take_turn(user, message, entry, off);
                return;
            }
            Effect::Barred {
                cause,
                deleted,
                pairs,
                cancelled,
                removals,
            } => {
                self.bar(cause, deleted, &pairs);
                self.count_cancelled(cause, cancelled);
                self.add_removals(removals);
                return;
            }
            Effect::Removed {
                user,
                messages,
                entry,
            } => {
                self.take_removal(user, messages.as_slice(), entry);
                return;
            }
        }
    }

    /// Makes room for what was prepared. The contents stay.
    pub fn reserve(&mut self, prepared: &Prepared) -> Result<(), OutOfMemory>
        ensures same { (j : List Stamped) → StandsFor self.old j → StandsFor self.new j }
        ensures ok { OnOk result (HasRoomFor self.new prepared.now) }
    {
        self.make_room(&prepared.effect)
    }

    /// Makes what was prepared from these tables for a lawful event. There is room for it, and it takes no memory.
    pub fn apply(&mut self, prepared: Prepared)
        requires room { HasRoomFor self.old prepared }
        requires prepared { WasPrepared self.old prepared }
        ensures { (j : List Stamped) (event : Stamped) → StandsFor self.old j → is_lawful_after j event ≡ true → IsPreparedFor j event prepared → StandsFor self.new (j ++ event ∷ []) }
    {
        let Prepared { at, effect, .. } = prepared;
        self.make(at, effect);
        self.last = at;
    }
}
