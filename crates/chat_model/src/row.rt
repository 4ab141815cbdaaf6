//! Rows of the kept tables.
ghost use Rattle.std.specs.Prelude.{◌≡◌, IfOk};
ghost use Rattle.chat_model.specs.Rows.{key_of, key_cmp, way_place};

use crate::duplicate::Duplicate;
use crate::{
    DealNo, Entry, EntryNo, MessageId, OutOfMemory, Same, Settings, Text, Trigger, UserId, Way,
};
use std::alloc::Global;
use std::cmp::Ordering;

/// How far a pending notice has come.
#[derive(Clone, Copy, Debug, PartialEq, Eq, Hash)]
pub enum Stage {
    Flight,
    Held,
    Ready,
}

impl Same for Stage {
    fn is_same(&self, other: &Stage) -> bool {
        self == other
    }
}

/// What cancelled a notice.
#[derive(Clone, Copy, Debug, PartialEq, Eq, Hash)]
pub enum Cause {
    Read,
    Deleted,
    SwitchedOff,
}

/// A row of a kept table.
#[derive(Debug, PartialEq, Eq, Drop)]
pub enum Row {
    User {
        id: UserId,
        name: Text,
        bot: bool,
        settings: Settings,
    },
    Message {
        id: MessageId,
        sender: UserId,
        text: Text,
        deleted: bool,
    },
    Pending {
        user: UserId,
        message: MessageId,
        way: Way,
        trigger: Trigger,
        deal: DealNo,
        stage: Stage,
    },
    /// A push that was handed over and may still be shown.
    Active {
        user: UserId,
        message: MessageId,
    },
    Outbox {
        number: EntryNo,
        entry: Entry,
        spooled: bool,
    },
}

impl Row {
    /// The table and the key of this row.
    pub fn key(&self) -> RowKey
        ensures { result ≡ key_of self.now }
    {
        match self {
            Row::User { id, .. } => RowKey::User(*id),
            Row::Message { id, .. } => RowKey::Message(*id),
            Row::Pending {
                user,
                message,
                way,
                ..
            } => RowKey::Pending(*user, *message, *way),
            Row::Active { user, message } => RowKey::Active(*user, *message),
            Row::Outbox { number, .. } => RowKey::Outbox(*number),
        }
    }

    /// A second value, the same as this one.
    pub fn copy(&self, alloc: Global) -> Result<Self, OutOfMemory>
        ensures { IfOk result (λ second. second ≡ self.now) }
    {
        match self {
            Row::User {
                id,
                name,
                bot,
                settings,
            } => Ok(Row::User {
                id: *id,
                name: name.copy()?,
                bot: *bot,
                settings: *settings,
            }),
            Row::Message {
                id,
                sender,
                text,
                deleted,
            } => Ok(Row::Message {
                id: *id,
                sender: *sender,
                text: text.copy()?,
                deleted: *deleted,
            }),
            Row::Pending {
                user,
                message,
                way,
                trigger,
                deal,
                stage,
            } => Ok(Row::Pending {
                user: *user,
                message: *message,
                way: *way,
                trigger: *trigger,
                deal: *deal,
                stage: *stage,
            }),
            Row::Active { user, message } => Ok(Row::Active {
                user: *user,
                message: *message,
            }),
            Row::Outbox {
                number,
                entry,
                spooled,
            } => {
                let entry = entry.copy(alloc)?;
                Ok(Row::Outbox {
                    number: *number,
                    entry,
                    spooled: *spooled,
                })
            }
        }
    }
}

impl Duplicate for Row {
    fn duplicate(&self, alloc: Global) -> Result<Self, OutOfMemory> {
        self.copy(alloc)
    }
}

impl Same for Row {
    fn is_same(&self, other: &Row) -> bool {
        self == other
    }
}

/// The table and the key of a row. Rows are kept by table in this order, then by key.
#[derive(Clone, Copy, Debug, PartialEq, Eq)]
pub enum RowKey {
    User(UserId),
    Message(MessageId),
    Pending(UserId, MessageId, Way),
    Active(UserId, MessageId),
    Outbox(EntryNo),
}

impl Same for RowKey {
    fn is_same(&self, other: &RowKey) -> bool {
        self == other
    }
}

fn way_number(way: Way) -> u8
    ensures { result ≡ way_place way }
{
    match way {
        Way::Mail => 0,
        Way::Push => 1,
    }
}

impl RowKey {
    #[tactic(auto, unfolding(crate::specs::Rows::key_cmp))]
    /// Which of two keys stands first: by table, then by the numbers of the key, mail before push.
    pub fn compare(self, other: RowKey) -> Ordering
        ensures { result ≡ key_cmp self other }
    {
        match (self, other) {
            (RowKey::User(a), RowKey::User(b)) => a.0.cmp(&b.0),
            (RowKey::User(_), _) => Ordering::Less,
            (_, RowKey::User(_)) => Ordering::Greater,
            (RowKey::Message(a), RowKey::Message(b)) => a.0.cmp(&b.0),
            (RowKey::Message(_), _) => Ordering::Less,
            (_, RowKey::Message(_)) => Ordering::Greater,
            (RowKey::Pending(a, m, v), RowKey::Pending(b, n, w)) => {
                let ways = way_number(v).cmp(&way_number(w));
                a.0.cmp(&b.0).then(m.0.cmp(&n.0).then(ways))
            }
            (RowKey::Pending(..), _) => Ordering::Less,
            (_, RowKey::Pending(..)) => Ordering::Greater,
            (RowKey::Active(a, m), RowKey::Active(b, n)) => a.0.cmp(&b.0).then(m.0.cmp(&n.0)),
            (RowKey::Active(..), _) => Ordering::Less,
            (_, RowKey::Active(..)) => Ordering::Greater,
            (RowKey::Outbox(a), RowKey::Outbox(b)) => a.0.cmp(&b.0),
        }
    }
}

/// A change of one row: `Put` adds it, or takes the place of the row of its key.
#[derive(Debug, PartialEq, Eq, Drop)]
pub enum RowChange {
    Put(Row),
    Remove(RowKey),
}

impl RowChange {
    /// A second value, the same as this one.
    pub fn copy(&self, alloc: Global) -> Result<Self, OutOfMemory>
        ensures { IfOk result (λ second. second ≡ self.now) }
    {
        match self {
            RowChange::Put(row) => Ok(RowChange::Put(row.copy(alloc)?)),
            RowChange::Remove(key) => Ok(RowChange::Remove(*key)),
        }
    }
}

impl Duplicate for RowChange {
    fn duplicate(&self, alloc: Global) -> Result<Self, OutOfMemory> {
        self.copy(alloc)
    }
}

impl Same for RowChange {
    fn is_same(&self, other: &RowChange) -> bool {
        self == other
    }
}
