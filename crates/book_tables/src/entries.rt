//! The entries of a mail turn.
ghost use Rattle.std.specs.Prelude.{◌≡◌, true, List, Some, None, length, map, IfOk, IsPermutation, if◌then◌else◌};
ghost use Rattle.std.specs.List.{AllByRecursion};
ghost use Rattle.chat_model.specs.declared.event.Stamped.{Stamped};
ghost use Rattle.notice_ledger.specs.Past.Owed.{Notice};
ghost use Rattle.notice_ledger.specs.Past.Owed.{switch_on};
ghost use Rattle.notice_ledger.specs.Past.Outbox.{mailed, conversation_of, ready_item, mail_items, mail_entries};
ghost use Rattle.notice_ledger.specs.Outbox.{dropped};
ghost use Rattle.book_tables.specs.Notices.{is_batch_row, is_barred, IsInOrder, AreNumbered};
ghost use Rattle.book_tables.specs.Tables.{switched_at};

use crate::tables::{Message, Tables, Waiting, item_at};
use crate::waiting::find_ready;
use chat_model::{
    Conversation, Entry, GroupId, GroupName, Item, List as ItemList, MessageId, Moment,
    OutOfMemory, Text, UserId, Way, ascending_users,
};
use mail_batches::{ReadyItem, entries};
use notice_ledger::Destination;

impl Tables {
    ghost use Rattle.notice_ledger.specs.Past.Outbox.{named_group};
    ghost use Rattle.std.specs.Prelude.{option_map};
    ghost use Rattle.book_tables.specs.Tables.{Holds, HoldSome, StandsFor, message_kept, notice_kept};

    /// The group by which a mention came, with its name.
    fn named_via(&self, via: Option<GroupId>) -> Result<Option<GroupName>, OutOfMemory>
        ensures { IfOk result (λ named. (past : List Stamped) → Holds self.now past → named ≡ option_map (named_group past) via) }
    {
        match via {
            Some(group) => Ok(Some(self.named_group(group)?)),
            None => Ok(None),
        }
    }

    /// The conversation of a message to this destination.
    fn conversation(&self, sender: UserId, to: &Destination) -> Result<Conversation, OutOfMemory>
        ensures { IfOk result (λ made. (past : List Stamped) → Holds self.now past → made ≡ conversation_of past sender to.now) }
    {
        match to {
            Destination::Channel { channel, topic } => Ok(Conversation::Channel {
                channel: *channel,
                name: Text::from_str(self.alloc, self.channel_name(*channel))?,
                topic: topic.copy()?,
            }),
            Destination::Direct { to } => {
                let mut users = to.copy()?;
                users.push(sender)?;
                Ok(Conversation::Direct {
                    users: ascending_users(users),
                    sender,
                })
            }
        }
    }

    /// What a mail turn hands over of a notice, with the conversation of its message.
    pub(crate) fn ready_item(
        &self,
        notice: &Waiting,
        message: &Message,
    ) -> Result<ReadyItem, OutOfMemory>
        ensures { IfOk result (λ made. (past : List Stamped) (n : Notice) → Holds self.now past → notice.now ≡ notice_kept past n → message.now ≡ message_kept n.message → made ≡ ready_item past n) }
    {
        let conversation = self.conversation(message.sender, &message.to)?;
        let item = Item {
            message: notice.message,
            sender: message.sender,
            sender_name: Text::from_str(self.alloc, self.name(message.sender))?,
            trigger: notice.trigger,
            via: self.named_via(notice.via)?,
            text: message.text.copy()?,
        };
        Ok(ReadyItem { conversation, item })
    }

    /// The user's batch row of a message, where it waits and nothing bars it.
    fn mailed_notice(&self, user: UserId, message: MessageId) -> Option<Waiting>
        ensures { IsInOrder self.now.waiting.items → AreNumbered self.now.waiting.items
            → AllByRecursion (λ w. is_batch_row user message w ≡ true → result ≡ (if is_barred w then None else Some w)) self.now.waiting.items }
    {
        let place = find_ready(&self.waiting, user, message, Way::Mail)?;
        let notice = self.waiting[place];
        if notice.is_barred() {
            None
        } else {
            Some(notice)
        }
    }

    /// What the user's mail turn hands over of the batch rows, each of which is sought among the notices that wait. Those
    /// that are barred are left out.
    fn ready_items(&self, user: UserId) -> Result<ItemList<ReadyItem>, OutOfMemory>
        ensures { IfOk result (λ items. (past : List Stamped) → Holds self.now past → IsPermutation (map (ready_item past) (mailed past user)) items) }
    {
        let mut items = ItemList::new(self.alloc);
        for message in self.batches.rows(user) {
            if let Some(notice) = self.mailed_notice(user, *message) {
                if let Some(sent) = item_at(&self.messages, message.0) {
                    items.push(self.ready_item(&notice, sent)?)?;
                }
            }
        }
        Ok(items)
    }

    /// How many of the user's batch rows nothing bars.
    fn mailed_count(&self, user: UserId) -> usize
        ensures { (past : List Stamped) → Holds self.now past → result ≡ length (mailed past user) }
    {
        let mut count: usize = 0;
        for message in self.batches.rows(user) {
            if self.mailed_notice(user, *message).is_some() {
                count += 1;
            }
        }
        count
    }

    /// Whether the user's switch for mails is on.
    fn is_switch_on(&self, user: UserId) -> bool
        ensures { (past : List Stamped) → Holds self.now past → result ≡ switch_on past user Way.Mail }
    {
        self.settings(user).mail_mentions
    }

    /// The entries of the user's mail turn at a stamp: none where the switch is off.
    pub(crate) fn mail_entries(&self, at: Moment, user: UserId) -> Result<Vec<Entry>, OutOfMemory>
        requires { HoldSome self.now }
        ensures { IfOk result (λ entries. (past : List Stamped) → Holds self.now past → entries.items ≡ mail_entries past at user) }
    {
        if !self.is_switch_on(user) {
            return Ok(Vec::new(self.alloc));
        }
        let items = self.ready_items(user)?;
        let name = Text::from_str(self.alloc, self.name(user))?;
        let entries = entries(self.alloc, user, &name, at, items)?;
        Ok(entries.into_vec())
    }

    /// How many notices the user's mail turn hands over.
    pub(crate) fn handed_over(&self, user: UserId) -> usize
        ensures { (past : List Stamped) → Holds self.now past → result ≡ length (mail_items past user) }
    {
        if self.is_switch_on(user) {
            self.mailed_count(user)
        } else {
            0
        }
    }

    /// How many notices the user's mail turn switches off.
    pub(crate) fn switched_off(&self, user: UserId) -> usize
        ensures { (past : List Stamped) → Holds self.now past → result ≡ switched_at past user }
    {
        if self.is_switch_on(user) {
            0
        } else {
            self.mailed_count(user)
        }
    }

    /// How many of the user's batch rows a mail turn makes no item of: those that are barred, and those that it switches
    /// off.
    pub fn dropped(&self, user: UserId) -> usize
        ensures { (j : List Stamped) → StandsFor self.now j → result ≡ dropped j user }
    {
        self.batches
            .rows(user)
            .len()
            .saturating_sub(self.handed_over(user))
    }
}
