//! Users who stand together: the subscribers of a channel, or the members of a group.
ghost use Rattle.std.specs.Prelude.{◌≡◌, ◌<◌, true, false, [], length, IfOk, OnOk};
ghost use Rattle.std.specs.Vec.{vec_len, vec_capacity};
ghost use Rattle.notice_ledger.specs.InOrder.{is_ascending};

use chat_model::{List, OutOfMemory, UserId};
use std::alloc::Global;

/// Some users, ascending, each once, so that a user is found by binary search.
#[derive(Debug, Drop)]
pub struct UserSet {
    pub users: Vec<UserId>,
    ghost ascending: { is_ascending users.items ≡ true },
}

impl UserSet {
    ghost use Rattle.notice_ledger.specs.Past.Values.{is_one_of};
    ghost use Rattle.book_tables.specs.UserSets.{users_after};

    /// The set of nobody.
    pub fn new(alloc: Global) -> UserSet
        ensures { result.users.items ≡ [] }
    {
        UserSet {
            users: Vec::new(alloc),
        }
    }

    /// The set of these users.
    pub fn from_ascending(users: List<UserId>) -> UserSet
        requires { is_ascending users ≡ true }
        ensures { result.users.items ≡ users }
    {
        UserSet {
            users: users.into_vec(),
        }
    }

    /// A second set of the same users.
    pub fn copy(&self) -> Result<UserSet, OutOfMemory>
        ensures { IfOk result (λ second. second.users.items ≡ self.now.users.items) }
    {
        let alloc = *self.users.allocator();
        Ok(UserSet {
            users: Vec::from_slice(alloc, &self.users)?,
        })
    }

    /// Whether the user is in the set.
    pub fn has(&self, user: UserId) -> bool
        ensures { result ≡ is_one_of self.now.users.items user }
    {
        self.users.binary_search(&user).is_ok()
    }

    /// How many users there are.
    pub fn len(&self) -> usize
        ensures { result ≡ length self.now.users.items }
    {
        self.users.len()
    }

    /// Makes room for one more user.
    pub fn reserve(&mut self) -> Result<(), OutOfMemory>
        ensures same { self.new.users.items ≡ self.old.users.items }
        ensures ok { OnOk result (vec_len self.new.users < vec_capacity self.new.users) }
    {
        self.users.reserve(1)?;
        Ok(())
    }

    /// Adds the user, for whom there is room.
    fn add(&mut self, user: UserId)
        requires { vec_len self.old.users < vec_capacity self.old.users }
        ensures { self.new.users.items ≡ users_after user true self.old.users.items }
    {
        if let Err(place) = self.users.binary_search(&user) {
            if self.users.insert(place, user).is_err() {
                unreachable!()
            }
        }
    }

    /// Takes the user away.
    fn remove(&mut self, user: UserId)
        ensures { self.new.users.items ≡ users_after user false self.old.users.items }
    {
        self.users.retain(|other| other.0 != user.0);
    }

    /// Adds the user, for whom there is room, or takes it away.
    pub fn change(&mut self, user: UserId, on: bool)
        requires { on ≡ true → vec_len self.old.users < vec_capacity self.old.users }
        ensures { self.new.users.items ≡ users_after user on self.old.users.items }
    {
        if on {
            self.add(user);
        } else {
            self.remove(user);
        }
    }
}
