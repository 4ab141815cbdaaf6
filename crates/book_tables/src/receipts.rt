//! What is kept of each message beside the message itself: to whom it goes, and whether it is deleted.
ghost use Rattle.std.specs.Prelude.{◌≡◌, true, false, List, map};
ghost use Rattle.std.specs.Option.{option_map_or};
ghost use Rattle.chat_model.specs.declared.event.Stamped.{Stamped};
ghost use Rattle.notice_ledger.specs.Past.Values.{is_deleted, is_message, message as message_sent};
ghost use Rattle.notice_ledger.specs.Past.Refusals.{is_sender, may_read};
ghost use Rattle.book_tables.specs.UserSets.{changed_numbered};
ghost use Rattle.book_tables.specs.Receipts.{is_marked};
ghost use Rattle.book_tables.specs.Applied.{deleted_with};

use crate::sets::is_in_set;
use crate::tables::{Tables, is_there, item_at};
use chat_model::{MessageId, UserId};

/// Whether the mark of a number, from 1, is set.
pub fn is_marked(marks: &[bool], number: u64) -> bool
    ensures { result ≡ is_marked marks.now number }
{
    match item_at(marks, number) {
        Some(mark) => *mark,
        None => false,
    }
}

/// Sets the mark of a number, if it is there.
pub fn set_mark(marks: &mut [bool], number: u64)
    ensures { marks.new ≡ changed_numbered number (λ mark. true) marks.old }
{
    if number == 0 {
        return;
    }
    let i = (number - 1) as usize;
    if i < marks.len() {
        marks[i] = true;
    }
}

/// Sets the mark of a message, where there is one.
pub fn set_mark_of(marks: &mut [bool], message: Option<MessageId>)
    ensures { marks.new ≡ deleted_with message marks.old }
{
    if let Some(message) = message {
        set_mark(marks, message.0);
    }
}

impl Tables {
    ghost use Rattle.book_tables.specs.Tables.{Holds};

    /// Whether the message is deleted.
    pub(crate) fn is_deleted(&self, message: MessageId) -> bool
        ensures { (past : List Stamped) → Holds self.now past → result ≡ is_deleted past message }
    {
        is_marked(&self.deleted, message.0)
    }

    /// Whether there is a message of that number, and it isn't deleted.
    pub(crate) fn is_message(&self, message: MessageId) -> bool
        ensures { (past : List Stamped) → Holds self.now past → result ≡ is_message past message }
    {
        is_there(&self.messages, message.0) && !self.is_deleted(message)
    }

    /// Whether there is the message, and the user sent it.
    pub(crate) fn is_sender(&self, user: UserId, message: MessageId) -> bool
        ensures { (past : List Stamped) → Holds self.now past → result ≡ option_map_or (is_sender user) (message_sent past message) false }
    {
        match item_at(&self.messages, message.0) {
            Some(sent) => sent.sender.0 == user.0,
            None => false,
        }
    }

    /// Whether the user may read the message: it isn't deleted, and the user sent or received it.
    pub(crate) fn may_read(&self, user: UserId, message: MessageId) -> bool
        ensures { (past : List Stamped) → Holds self.now past → result ≡ may_read past user message }
    {
        self.is_message(message)
            && (self.is_sender(user, message) || is_in_set(&self.addressees, message.0, user))
    }
}
