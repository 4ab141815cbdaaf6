//! Values that stand together by user.
ghost use Rattle.std.specs.Prelude.{◌≡◌, ℕ, ◌+◌, ◌-◌, ◌≤◌, ◌<◌, ◌==◌, true, [], ◌∷◌, ◌++◌, length, map, max, nat_lt, take, drop, slice_get, OnOk, OnErr, if◌then◌else◌};
ghost use Rattle.std.specs.List.{list_all};
ghost use Rattle.std.specs.Vec.{vec_len, vec_capacity};
ghost use Rattle.std.specs.Option.{MatchOption, option_map_or};
ghost use Rattle.mail_batches.specs.Batches.{is_due_before, IsLeast};
ghost use Rattle.mail_batches.specs.ByUser.{values_of, or_first, with_first, ascends};

use crate::DueUser;
use chat_model::{OutOfMemory, UserId};
use std::alloc::Global;
use std::marker::Model;

/// Values with their users, those of a user together and in the order in which they came. Only `reserve` takes memory.
#[derive(Debug, Drop)]
pub struct ByUser<T> {
    /// The users of the values, ascending.
    users: Vec<UserId>,
    values: Vec<T>,
    /// Room that was reserved and isn't used yet.
    spare: usize,
}

impl<T> Model for ByUser<T> {
    ghost use Rattle.std.specs.Prelude.{◌≡◌, ◌+◌, ◌≤◌, true};
    ghost use Rattle.std.specs.List.{zip};
    ghost use Rattle.std.specs.Vec.{vec_len, vec_capacity};
    ghost use Rattle.mail_batches.specs.ByUser.{Listed, ascends};

    ghost Value = { Listed T };

    ghost view = { λ b. record { entries = zip b.users.items b.values.items; spare = b.spare } };

    ghost invariant = { λ b. (vec_len b.values ≡ vec_len b.users) × (ascends b.users.items ≡ true) × (vec_len b.users + b.spare ≤ vec_capacity b.users) × (vec_len b.values + b.spare ≤ vec_capacity b.values) };
}

impl<T: Copy> ByUser<T> {
    /// No values.
    pub fn new(alloc: Global) -> ByUser<T>
        ensures { result ≡ record { entries = []; spare = 0 } }
    {
        ByUser {
            users: Vec::new(alloc),
            values: Vec::new(alloc),
            spare: 0,
        }
    }

    /// Makes room for so many more values. Want of memory changes nothing.
    pub fn reserve(&mut self, more: usize) -> Result<(), OutOfMemory>
        ensures ok { OnOk result (self.new ≡ record self.old { spare = max self.old.spare more }) }
        ensures err { OnErr result (self.new ≡ self.old) }
    {
        let spare = self.spare.max(more);
        self.users.reserve(spare)?;
        self.values.reserve(spare)?;
        self.spare = spare;
        Ok(())
    }

    /// Lends the values of a user in order.
    pub fn of(&self, user: UserId) -> &[T]
        ensures { result.now ≡ values_of user.0 self.now.entries }
    {
        let place = find_stretch(&self.users, user);
        &self.values[place.from..place.to]
    }

    /// The first value of a user.
    pub fn first(&self, user: UserId) -> Option<T>
        ensures { result ≡ slice_get (values_of user.0 self.now.entries) 0 }
    {
        self.of(user).first().copied()
    }

    /// Adds a value after the user's others.
    pub fn add(&mut self, user: UserId, value: T)
        requires { 1 ≤ self.old.spare }
        ensures values { (u : ℕ) → values_of u self.new.entries ≡ (if u == user.0 then values_of u self.old.entries ++ value ∷ [] else values_of u self.old.entries) }
        ensures spare { self.new.spare ≡ self.old.spare - 1 }
    {
        let place = find_stretch(&self.users, user);
        insert(&mut self.users, place.to, user);
        insert(&mut self.values, place.to, value);
        self.spare -= 1;
    }

    /// Adds a value of a user who has none.
    pub fn add_first(&mut self, user: UserId, value: T)
        requires { 1 ≤ self.old.spare }
        ensures values { (u : ℕ) → values_of u self.new.entries ≡ (if u == user.0 then or_first value (values_of u self.old.entries) else values_of u self.old.entries) }
        ensures spare { self.old.spare ≤ self.new.spare + 1 }
    {
        if self.first(user).is_none() {
            self.add(user, value);
        }
    }

    /// Puts a value in the place of the user's first one, if the user has one.
    pub fn set_first(&mut self, user: UserId, value: T)
        ensures values { (u : ℕ) → values_of u self.new.entries ≡ (if u == user.0 then with_first value (values_of u self.old.entries) else values_of u self.old.entries) }
        ensures spare { self.new.spare ≡ self.old.spare }
    {
        let place = find_stretch(&self.users, user);
        if place.from < place.to {
            self.values[place.from] = value;
        }
    }

    /// Takes all values of a user away.
    pub fn remove(&mut self, user: UserId)
        ensures values { (u : ℕ) → values_of u self.new.entries ≡ (if u == user.0 then [] else values_of u self.old.entries) }
        ensures spare { self.new.spare ≡ self.old.spare }
    {
        let place = find_stretch(&self.users, user);
        cut(&mut self.users, place);
        cut(&mut self.values, place);
    }
}

impl ByUser<u64> {
    /// The user whose value is the least, ties by the lower number. `None` exactly where there is no value.
    pub fn least(&self) -> Option<DueUser>
        ensures { MatchOption result (self.now.entries ≡ []) (IsLeast self.now.entries) }
    {
        let mut first = None;
        for i in 0..self.users.len() {
            let next = DueUser {
                due: self.values[i],
                user: self.users[i],
            };
            first = Some(sooner(first, next));
        }
        first
    }
}

/// Of two users, of whom the first may be missing, the one who is due first.
fn sooner(first: Option<DueUser>, next: DueUser) -> DueUser
    ensures { result ≡ option_map_or (λ f. if is_due_before next f then next else f) first next }
{
    match first {
        Some(first)
            if first.due < next.due || (first.due == next.due && first.user.0 <= next.user.0) => {
            first
        }
        _ => next,
    }
}

/// Where the values of a user stand: from one place up to another.
#[derive(Clone, Copy, Debug)]
struct Stretch {
    from: usize,
    to: usize,
}

/// Finds the stretch of a user among users that ascend.
fn find_stretch(users: &[UserId], user: UserId) -> Stretch
    requires { ascends users.now ≡ true }
    ensures order { result.from ≤ result.to }
    ensures within { result.to ≤ length users.now }
    ensures before { list_all (λ u. nat_lt u.0 user.0) (take result.from users.now) ≡ true }
    ensures at { list_all (λ u. u.0 == user.0) (take (result.to - result.from) (drop result.from users.now)) ≡ true }
    ensures behind { list_all (λ u. nat_lt user.0 u.0) (drop result.to users.now) ≡ true }
{
    let from = users.partition_point(|other| other.0 < user.0);
    let rest = &users[from..];
    let to = from + rest.partition_point(|other| other.0 <= user.0);
    Stretch { from, to }
}

/// Puts an item at a place, where there is room.
fn insert<T: Drop>(items: &mut Vec<T>, place: usize, item: T)
    requires place { place ≤ vec_len items.old }
    requires room { vec_len items.old < vec_capacity items.old }
    ensures items { items.new.items ≡ take place items.old.items ++ item ∷ drop place items.old.items }
    ensures len { vec_len items.new ≡ vec_len items.old + 1 }
    ensures capacity { vec_capacity items.new ≡ vec_capacity items.old }
{
    if items.insert(place, item).is_err() {
        unreachable!()
    }
}

/// Takes a stretch out of a list.
fn cut<T: Drop>(items: &mut Vec<T>, place: Stretch)
    requires order { place.from ≤ place.to }
    requires within { place.to ≤ vec_len items.old }
    ensures items { items.new.items ≡ take place.from items.old.items ++ drop place.to items.old.items }
    ensures len { vec_len items.new + (place.to - place.from) ≡ vec_len items.old }
    ensures capacity { vec_capacity items.new ≡ vec_capacity items.old }
{
    let behind = items.len() - place.to;
    items.rotate_left(place.to);
    items.truncate(behind + place.from);
    items.rotate_left(behind);
}
