//! The pushes that wait, and those that are active.
ghost use Rattle.std.specs.Prelude.{◌≡◌, ◌≢◌, ◌-◌, ◌≤◌, [], ◌∷◌, ◌++◌, ◌==◌, ◌&&◌, drop, max, slice_get, OnOk, OnErr};
ghost use Rattle.std.specs.List.{list_any};
ghost use Rattle.std.specs.FinSet as set;
ghost use Rattle.std.specs.Option.{option_copied};
ghost use Rattle.push_state.specs.Pushes.{flag};

use chat_model::{MessageId, OutOfMemory, PushItem, UserId};
use std::alloc::Global;
use std::collections::VecDeque;
use std::marker::Model;

/// A push that was handed over and whose removal isn't written.
#[derive(Clone, Copy, Debug, PartialEq, Eq)]
struct Flag {
    user: UserId,
    message: MessageId,
}

/// Items that wait, first in, first out, and flags of active pushes. Only `reserve` takes memory.
#[derive(Debug, Drop)]
pub struct PushQueue {
    items: VecDeque<PushItem>,
    flags: Vec<Flag>,
    /// Room that was reserved and isn't used yet.
    item_room: usize,
    flag_room: usize,
}

impl Model for PushQueue {
    ghost use Rattle.std.specs.Prelude.{◌+◌, ◌≤◌, map};
    ghost use Rattle.std.specs.Vec.{vec_len, vec_capacity};
    ghost use Rattle.std.specs.VecDeque.{deque_len, deque_capacity};
    ghost use Rattle.std.specs.FinSet as set;
    ghost use Rattle.std.specs.Coded.{codes, coded_list, coded_ℕ};
    ghost use Rattle.std.specs.Ordering.{nat_cmp};
    ghost use Rattle.std.specs.Cmp.Lexicographic.{slice_cmp};
    ghost use Rattle.push_state.specs.Pushes.{Pushes, flag};

    ghost Value = { Pushes };

    ghost coded = { Prim.hlevel (codes, set.code {R = slice_cmp nat_cmp} (coded_list coded_ℕ)) };

    ghost view = { λ q. record { items = q.items.items; flags = set.from_list (map (λ f. flag f.user f.message) q.flags.items); item_room = q.item_room; flag_room = q.flag_room } };

    ghost invariant = { λ q. (deque_len q.items + q.item_room ≤ deque_capacity q.items) × (vec_len q.flags + q.flag_room ≤ vec_capacity q.flags) };
}

impl PushQueue {
    /// A queue without items and flags.
    pub fn new(alloc: Global) -> PushQueue
        ensures { result ≡ record { items = []; flags = set.empty; item_room = 0; flag_room = 0 } }
    {
        PushQueue {
            items: VecDeque::new(alloc),
            flags: Vec::new(alloc),
            item_room: 0,
            flag_room: 0,
        }
    }

    /// Makes room for so many more items and flags. Want of memory changes nothing.
    pub fn reserve(&mut self, items: usize, flags: usize) -> Result<(), OutOfMemory>
        ensures ok { OnOk result (self.new ≡ record self.old { item_room = max self.old.item_room items; flag_room = max self.old.flag_room flags }) }
        ensures err { OnErr result (self.new ≡ self.old) }
    {
        self.items.reserve(self.item_room.max(items))?;
        self.flags.reserve(self.flag_room.max(flags))?;
        self.item_room = self.item_room.max(items);
        self.flag_room = self.flag_room.max(flags);
        Ok(())
    }

    /// Puts an item last. There must be room for it.
    pub fn add(&mut self, item: PushItem)
        requires { 1 ≤ self.old.item_room }
        ensures { self.new ≡ record self.old { items = self.old.items ++ item ∷ []; item_room = self.old.item_room - 1 } }
    {
        self.items.push_back_reserved(item);
        self.item_room -= 1;
    }

    /// Lends the item that waits longest. `None` exactly where no item waits.
    pub fn oldest(&self) -> Option<&PushItem>
        ensures { option_copied result ≡ slice_get self.now.items 0 }
    {
        self.items.front()
    }

    /// Removes the item that waits longest, of which there must be one. It costs the same however many wait.
    pub fn drop_oldest(&mut self)
        requires { self.old.items ≢ [] }
        ensures { self.new ≡ record self.old { items = drop 1 self.old.items } }
    {
        let _ = self.items.pop_front();
    }

    /// Sets the flag of a push. There must be room for it.
    pub fn set_active(&mut self, user: UserId, message: MessageId)
        requires { 1 ≤ self.old.flag_room }
        ensures { self.new ≡ record self.old { flags = set.insert self.old.flags (flag user message); flag_room = self.old.flag_room - 1 } }
    {
        self.flags.push_reserved(Flag { user, message });
        self.flag_room -= 1;
    }

    /// Whether the flag of a push is set.
    pub fn is_active(&self, user: UserId, message: MessageId) -> bool
        ensures { result ≡ set.contains self.now.flags (flag user message) }
    {
        is_among(&self.flags, user, message)
    }

    /// Takes the flag of a push away, if it is set.
    pub fn clear_active(&mut self, user: UserId, message: MessageId)
        ensures { self.new ≡ record self.old { flags = set.remove self.old.flags (flag user message) } }
    {
        self.flags.retain(|flag| !(flag.user.0 == user.0 && flag.message.0 == message.0));
    }
}

/// Whether one of these flags is of the user and the message.
fn is_among(flags: &[Flag], user: UserId, message: MessageId) -> bool
    ensures { result ≡ list_any (λ f. f.user.0 == user.0 && f.message.0 == message.0) flags.now }
{
    flags.iter().any(|flag| flag.user.0 == user.0 && flag.message.0 == message.0)
}
