//! The tables that follow from the journal, and what there is: users, groups, channels and messages.
ghost use Rattle.std.specs.Prelude.{◌≡◌, ◌+◌, ℕ, List, [], length, is_some, IfOk, IfSome};
ghost use Rattle.std.specs.Option.{option_copied};
ghost use Rattle.chat_model.specs.declared.event.Stamped.{Stamped};
ghost use Rattle.notice_ledger.specs.Past.Values.{numbered};

use crate::preferences::Preferences;
use crate::user_set::UserSet;
use chat_model::{
    Answer, Cause, ChannelId, Deal, DealNo, Entry, EntryNo, GroupId, GroupName, MessageId, Moment,
    OutOfMemory, Request, Stage, Text, Trigger, UserId, UserName, Way,
};
use mail_batches::Batches;
use notice_ledger::Destination;
use push_state::PushQueue;
use std::alloc::Global;

/// A message as it was sent.
#[derive(Debug, Drop)]
pub struct Message {
    pub sender: UserId,
    pub to: Destination,
    pub text: Text,
}

/// An owed notice of which more may become: one that is to be handed over or to be dropped at its turn, one that a live
/// queue cleared, or a push that was handed over and may still be shown.
#[derive(Clone, Copy, Debug)]
pub struct Waiting {
    pub user: UserId,
    pub message: MessageId,
    pub way: Way,
    pub trigger: Trigger,
    /// The group by which the mention came, where the user is not mentioned by name.
    pub via: Option<GroupId>,
    pub deal: DealNo,
    /// Whether it is a push to a user who wants pushes while online.
    pub online: bool,
    pub stage: Stage,
    /// Why its turn will drop it, or, once it was handed over, why it is revoked.
    pub barred: Option<Cause>,
}

/// Users, groups, channels and messages by their numbers, the notices that wait, and the outbox.
#[derive(Debug, Drop)]
pub struct Tables {
    pub(crate) alloc: Global,
    /// The stamp of the last lawful event.
    pub(crate) last: Moment,
    pub(crate) starts: u64,
    pub(crate) names: Vec<UserName>,
    pub(crate) bots: Vec<bool>,
    pub(crate) preferences: Vec<Preferences>,
    pub(crate) groups: Vec<GroupName>,
    pub(crate) members: Vec<UserSet>,
    pub(crate) channels: Vec<Text>,
    pub(crate) subscribers: Vec<UserSet>,
    pub(crate) messages: Vec<Message>,
    /// Of each message to whom it goes, among whom its sender may be.
    pub(crate) addressees: Vec<UserSet>,
    /// Of each message whether it is deleted.
    pub(crate) deleted: Vec<bool>,
    /// The notices that are to be handed over, and those that are ready and will be dropped at their turns.
    pub(crate) waiting: Vec<Waiting>,
    /// The notices that a live queue cleared and that nothing bars.
    pub(crate) cleared: Vec<Waiting>,
    /// The mails among them that are ready, by user, and when they are due.
    pub(crate) batches: Batches,
    /// The push items that wait for their turns.
    pub(crate) pushes: PushQueue,
    /// The pushes that were handed over and whose removal isn't written. One that is barred is revoked.
    pub(crate) active: Vec<Waiting>,
    /// By their numbers, from 0.
    pub(crate) deals: Vec<Deal>,
    pub(crate) outbox: Vec<Entry>,
    /// How many notices were handed over at their turns, at most 2^64 - 1.
    pub(crate) handed: u64,
    /// How many notices were switched off at their turns, at most 2^64 - 1.
    pub(crate) off: u64,
    /// How many notices a read cancelled, at most 2^64 - 1.
    pub(crate) read: u64,
    /// How many notices a deletion cancelled, at most 2^64 - 1.
    pub(crate) gone: u64,
    /// How many revoked pushes have their removal written, at most 2^64 - 1.
    pub(crate) written: u64,
}

/// The item of a number, from 1.
pub fn item_at<T>(items: &[T], number: u64) -> Option<&T>
    ensures { option_copied result ≡ numbered number items.now }
{
    if number == 0 {
        return None;
    }
    items.get((number - 1) as usize)
}

/// Whether there is an item of a number, from 1.
pub fn is_there<T>(items: &[T], number: u64) -> bool
    ensures { result ≡ is_some (numbered number items.now) }
{
    item_at(items, number).is_some()
}

impl Tables {
    ghost use Rattle.notice_ledger.specs.Past.Values.{is_user, is_channel, is_group, user_name, group_name, channel_name, messages, deal_count as deal_count_of};
    ghost use Rattle.notice_ledger.specs.Past.Outbox.{named_group};
    ghost use Rattle.notice_ledger.specs.Past.Audit.{in_64_bits};
    ghost use Rattle.notice_ledger.specs.Journal.{last_stamp, deal_count};
    ghost use Rattle.notice_ledger.specs.Lawful.{lawful};
    ghost use Rattle.notice_ledger.specs.Outbox.{outbox};
    ghost use Rattle.book_tables.specs.Tables.{Holds, StandsFor, start_count};
    ghost use Rattle.book_tables.specs.Answers.{answer_of};

    /// The tables of the empty journal.
    pub fn new(alloc: Global) -> Tables
        ensures { StandsFor result [] }
    {
        let Some(last) = Moment::new(0) else {
            unreachable!()
        };
        Tables {
            alloc,
            last,
            starts: 0,
            names: Vec::new(alloc),
            bots: Vec::new(alloc),
            preferences: Vec::new(alloc),
            groups: Vec::new(alloc),
            members: Vec::new(alloc),
            channels: Vec::new(alloc),
            subscribers: Vec::new(alloc),
            messages: Vec::new(alloc),
            addressees: Vec::new(alloc),
            deleted: Vec::new(alloc),
            waiting: Vec::new(alloc),
            cleared: Vec::new(alloc),
            batches: Batches::new(alloc),
            pushes: PushQueue::new(alloc),
            active: Vec::new(alloc),
            deals: Vec::new(alloc),
            outbox: Vec::new(alloc),
            handed: 0,
            off: 0,
            read: 0,
            gone: 0,
            written: 0,
        }
    }

    /// Whether there is a user of that number.
    pub fn knows(&self, user: UserId) -> bool
        ensures { (j : List Stamped) → StandsFor self.now j → result ≡ is_user (lawful j) user }
    {
        self.is_user(user)
    }

    /// The stamp of the last lawful event, the first moment where there is none.
    pub fn last_stamp(&self) -> Moment
        ensures { (j : List Stamped) → StandsFor self.now j → result ≡ last_stamp j }
    {
        self.last
    }

    /// How often the office was started. A count above 2^64 - 1 is given as 2^64 - 1.
    pub fn starts(&self) -> u64
        ensures { (j : List Stamped) → StandsFor self.now j → result ≡ in_64_bits (start_count (lawful j)) }
    {
        self.starts
    }

    /// How many deals there are, which is the number of the next one.
    pub fn deals(&self) -> DealNo
        ensures { (j : List Stamped) → StandsFor self.now j → result.0 ≡ deal_count j }
    {
        DealNo(self.messages.len() as u64)
    }

    /// The outbox entry of a number.
    pub fn entry(&self, number: EntryNo) -> Option<&Entry>
        ensures { (j : List Stamped) → StandsFor self.now j → option_copied result ≡ numbered number.0 (outbox j) }
    {
        item_at(&self.outbox, number.0)
    }

    /// How many outbox entries there are.
    pub fn entries(&self) -> usize
        ensures { (j : List Stamped) → StandsFor self.now j → result ≡ length (outbox j) }
    {
        self.outbox.len()
    }

    pub(crate) fn is_user(&self, user: UserId) -> bool
        ensures { (past : List Stamped) → Holds self.now past → result ≡ is_user past user }
    {
        is_there(&self.names, user.0)
    }

    pub(crate) fn is_channel(&self, channel: ChannelId) -> bool
        ensures { (past : List Stamped) → Holds self.now past → result ≡ is_channel past channel }
    {
        is_there(&self.channels, channel.0)
    }

    pub(crate) fn is_group(&self, group: GroupId) -> bool
        ensures { (past : List Stamped) → Holds self.now past → result ≡ is_group past group }
    {
        is_there(&self.groups, group.0)
    }

    /// The user's name, empty where there is no such user.
    pub(crate) fn name(&self, user: UserId) -> &str
        ensures { (past : List Stamped) → Holds self.now past → result.now ≡ user_name past user }
    {
        match item_at(&self.names, user.0) {
            Some(name) => name.name.as_str(),
            None => "",
        }
    }

    /// The channel's name, empty where there is no such channel.
    pub(crate) fn channel_name(&self, channel: ChannelId) -> &str
        ensures { (past : List Stamped) → Holds self.now past → result.now ≡ channel_name past channel }
    {
        match item_at(&self.channels, channel.0) {
            Some(name) => name.as_str(),
            None => "",
        }
    }

    /// The group's name, empty where there is no such group.
    fn group_name(&self, group: GroupId) -> &str
        ensures { (past : List Stamped) → Holds self.now past → result.now ≡ group_name past group }
    {
        match item_at(&self.groups, group.0) {
            Some(named) => named.name.as_str(),
            None => "",
        }
    }

    /// The group with its name, empty where there is no such group.
    pub(crate) fn named_group(&self, group: GroupId) -> Result<GroupName, OutOfMemory>
        ensures { IfOk result (λ named. (past : List Stamped) → Holds self.now past → named ≡ named_group past group) }
    {
        Ok(GroupName {
            id: group,
            name: Text::from_str(self.alloc, self.group_name(group))?,
        })
    }

    /// The answer to the send of the next message.
    fn sent(&self) -> Answer
        ensures { (past : List Stamped) → Holds self.now past → result ≡ Answer.Sent (record { 0 = length (messages past) + 1 }) (record { 0 = deal_count_of past }) }
    {
        Answer::Sent {
            message: MessageId(self.messages.len() as u64 + 1),
            deal: DealNo(self.messages.len() as u64),
        }
    }

    /// The answer to a request that is not refused.
    pub fn answer(&self, request: &Request) -> Answer
        ensures { (j : List Stamped) → StandsFor self.now j → result ≡ answer_of j request.now }
    {
        match request {
            Request::AddUser { .. } => Answer::User(UserId(self.names.len() as u64 + 1)),
            Request::AddGroup { .. } => Answer::Group(GroupId(self.groups.len() as u64 + 1)),
            Request::Member { .. } => Answer::Done,
            Request::AddChannel { .. } => {
                Answer::Channel(ChannelId(self.channels.len() as u64 + 1))
            }
            Request::Subscribe { .. } => Answer::Done,
            Request::Set { .. } => Answer::Done,
            Request::SetChannel { .. } => Answer::Done,
            Request::SetPolicy { .. } => Answer::Done,
            Request::Mute { .. } => Answer::Done,
            Request::Send { .. } => self.sent(),
            Request::Direct { .. } => self.sent(),
            Request::Delete { .. } => Answer::Done,
            Request::Read { .. } => Answer::Done,
        }
    }
}
