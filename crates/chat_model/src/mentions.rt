//! What a text mentions, and the names by which it does.
ghost use Rattle.std.specs.Prelude.{◌≡◌, IfOk};

use crate::{GroupId, List, OutOfMemory, Same, Text, UserId};
use std::alloc::Global;

/// A user and the user's name.
#[derive(Debug, PartialEq, Eq, Drop)]
pub struct UserName {
    pub id: UserId,
    pub name: Text,
}

impl UserName {
    /// A second value, the same as this one.
    pub fn copy(&self, _alloc: Global) -> Result<Self, OutOfMemory>
        ensures { IfOk result (λ second. second ≡ self.now) }
    {
        Ok(UserName {
            id: self.id,
            name: self.name.copy()?,
        })
    }
}

impl Same for UserName {
    fn is_same(&self, other: &UserName) -> bool {
        self == other
    }
}

/// A group and its name.
#[derive(Debug, PartialEq, Eq, Drop)]
pub struct GroupName {
    pub id: GroupId,
    pub name: Text,
}

impl GroupName {
    /// A second value, the same as this one.
    pub fn copy(&self, _alloc: Global) -> Result<Self, OutOfMemory>
        ensures { IfOk result (λ second. second ≡ self.now) }
    {
        Ok(GroupName {
            id: self.id,
            name: self.name.copy()?,
        })
    }
}

impl Same for GroupName {
    fn is_same(&self, other: &GroupName) -> bool {
        self == other
    }
}

/// Users and groups ascending, once each, and the two wildcards.
#[derive(Debug, PartialEq, Eq, Drop)]
pub struct Mentions {
    pub users: List<UserId>,
    pub groups: List<GroupId>,
    pub channel_wildcard: bool,
    pub topic_wildcard: bool,
}
