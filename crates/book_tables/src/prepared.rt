//! What an event will change, made ready before it is committed.
ghost use Rattle.std.specs.Prelude.{◌≡◌, ◌+◌, ◌^◌, ◌<◌, ◌++◌, ◌∷◌, [], true, List as Items, map, filter, length, option_map, option_to_list, not, IfOk, OnOk};
ghost use Rattle.chat_model.specs.declared.event.Stamped.{Stamped};
ghost use Rattle.chat_model.specs.declared.row.Row.TheVariants.{User};
ghost use Rattle.chat_model.specs.declared.row.RowChange.TheVariants.{Put, Remove};
ghost use Rattle.std.specs.List.{flat_map};
ghost use Rattle.notice_ledger.specs.Past.Values.{person};
ghost use Rattle.chat_model.specs.Rows.{changed_all};
ghost use Rattle.notice_ledger.specs.InOrder.{is_ascending, is_in_order};
ghost use Rattle.notice_ledger.specs.Lawful.{lawful, is_lawful_after};
ghost use Rattle.notice_ledger.specs.Rows.{rows};
ghost use Rattle.notice_ledger.specs.Past.Rows.{outbox_rows_from};
ghost use Rattle.book_tables.specs.Pushes.{push_of};
ghost use Rattle.book_tables.specs.UserSets.{users_in};
ghost use Rattle.book_tables.specs.Notices.{IsInOrder, is_barred, is_undecided, is_undecided_at, is_undecided_of, readied, dealt_to, named_by};
ghost use Rattle.chat_model.specs.Outcomes.{is_idle, is_live};
ghost use Rattle.book_tables.specs.Prepared.{notice_row, key_of_notice, active_row, turn_rows, puts_where, removes_where, removed_mail, changes_of};

use crate::facts::set_of;
use crate::preferences::Preference;
use crate::pushes::{PushKey, dealt_pushes, missed_pushes, once_each, undecided_pushes};
use crate::tables::{Message, Tables, Waiting};
use crate::user_set::UserSet;
use crate::waiting::{find_deal, find_undecided};
use chat_model::{
    Cause, ChannelId, Deal, DealNo, Entry, EntryNo, Event, GroupId, GroupName, List, MessageId,
    Moment, OutOfMemory, Outcome, Policy, PushItem, QueueId, Request, Row, RowChange, RowKey,
    SettingChange, Settings, Stamped, Text, UserId, UserName, UserVerdict, Verdict, Way,
};
use notice_ledger::Destination;
use std::alloc::Global;

/// What an event will change: the kept rows, and the tables.
#[derive(Debug, Drop)]
pub struct Prepared {
    pub(crate) at: Moment,
    pub(crate) changes: Vec<RowChange>,
    pub(crate) effect: Effect,
}

/// What an event does to the tables.
#[derive(Debug, Drop)]
pub enum Effect {
    /// The pushes are those that become ready, by user, then message.
    Start {
        pushes: Vec<PushKey>,
    },
    User {
        user: UserName,
        bot: bool,
    },
    Group {
        group: GroupName,
        members: UserSet,
    },
    Membership {
        group: GroupId,
        user: UserId,
        on: bool,
    },
    Channel {
        name: Text,
    },
    Subscription {
        channel: ChannelId,
        user: UserId,
        on: bool,
    },
    Preference {
        user: UserId,
        change: Preference,
    },
    Message {
        message: Message,
        addressees: UserSet,
        waiting: Vec<Waiting>,
        deal: Deal,
    },
    /// A deal was dealt: the users who were found idle, those who were found live, and the pushes that become ready.
    Dealt {
        deal: DealNo,
        idle: UserSet,
        live: UserSet,
        pushes: Vec<PushKey>,
    },
    /// A live queue of the user cleared these deals.
    Cleared {
        user: UserId,
        deals: List<DealNo>,
    },
    /// The user missed these deals, and these pushes become ready.
    Missed {
        user: UserId,
        deals: List<DealNo>,
        pushes: Vec<PushKey>,
    },
    Mailed {
        user: UserId,
        entries: Vec<Entry>,
        /// How many notices were handed over.
        handed: u64,
        /// How many notices were switched off.
        off: u64,
    },
    /// The push item that waited longest had its turn: the entry of a push that was handed over, and none of one that
    /// was dropped.
    Pushed {
        user: UserId,
        message: MessageId,
        entry: Option<Entry>,
        /// How many notices were switched off.
        off: u64,
    },
    /// A read or a deletion bars the notices of these pairs for this cause.
    Barred {
        cause: Cause,
        /// The message that it deletes.
        deleted: Option<MessageId>,
        pairs: Vec<PushKey>,
        /// How many notices it cancels.
        cancelled: u64,
        /// The items of the pushes that it revokes.
        removals: Vec<PushItem>,
    },
    /// The removal that waited longest had its turn.
    Removed {
        user: UserId,
        messages: List<MessageId>,
        entry: Entry,
    },
}

impl Prepared {
    /// The changes of the kept rows, to be made first to last.
    pub fn changes(&self) -> &[RowChange]
        ensures { result.now ≡ changes_of self.now }
    {
        &self.changes
    }
}

/// The row of a notice as it stands.
fn row_of(notice: &Waiting) -> Row
    ensures { result ≡ notice_row notice.now }
{
    Row::Pending {
        user: notice.user,
        message: notice.message,
        way: notice.way,
        trigger: notice.trigger,
        deal: notice.deal,
        stage: notice.stage,
    }
}

/// The key of a notice's row.
pub(crate) fn key_of(notice: &Waiting) -> RowKey
    ensures { result ≡ key_of_notice notice.now }
{
    RowKey::Pending(notice.user, notice.message, notice.way)
}

/// Adds the rows of notices that wait: those that are barred have none.
pub(crate) fn put_notices(
    changes: &mut Vec<RowChange>,
    waiting: &[Waiting],
) -> Result<(), OutOfMemory>
    ensures { OnOk result (changes.new.items ≡ changes.old.items ++ puts_where (λ w. not (is_barred w)) (λ w. w) waiting.now) }
{
    for notice in waiting {
        if !notice.is_barred() {
            changes.push(RowChange::Put(row_of(notice)))?;
        }
    }
    Ok(())
}

/// Adds the rows of the undecided notices, which become ready.
fn put_ready(changes: &mut Vec<RowChange>, waiting: &[Waiting]) -> Result<(), OutOfMemory>
    ensures { OnOk result (changes.new.items ≡ changes.old.items ++ puts_where is_undecided readied waiting.now) }
{
    for notice in waiting {
        if !notice.is_ready() {
            changes.push(RowChange::Put(row_of(&notice.readied())))?;
        }
    }
    Ok(())
}

/// Adds the rows of a deal's undecided notices, once the deal is dealt.
fn put_dealt(
    changes: &mut Vec<RowChange>,
    waiting: &[Waiting],
    deal: DealNo,
    idle: &UserSet,
    live: &UserSet,
) -> Result<(), OutOfMemory>
    ensures { IsInOrder waiting.now → OnOk result (changes.new.items ≡ changes.old.items ++ puts_where (is_undecided_of deal) (dealt_to (users_in idle.now) (users_in live.now)) waiting.now) }
{
    let stretch = find_deal(waiting, deal);
    for notice in &waiting[stretch.from..stretch.to] {
        if !notice.is_ready() {
            changes.push(RowChange::Put(row_of(&notice.dealt(idle, live))))?;
        }
    }
    Ok(())
}

/// Adds the row of the undecided notice of a deal to a user by a way, which becomes ready.
fn put_missed(
    changes: &mut Vec<RowChange>,
    waiting: &[Waiting],
    deal: DealNo,
    user: UserId,
    way: Way,
) -> Result<(), OutOfMemory>
    ensures { IsInOrder waiting.now → OnOk result (changes.new.items ≡ changes.old.items ++ puts_where (is_undecided_at deal user way) readied waiting.now) }
{
    if let Some(place) = find_undecided(waiting, deal, user, way) {
        changes.push(RowChange::Put(row_of(&waiting[place].readied())))?;
    }
    Ok(())
}

/// Adds the rows of a user's undecided notices of these deals, which become ready.
fn put_all_missed(
    changes: &mut Vec<RowChange>,
    waiting: &[Waiting],
    user: UserId,
    deals: &[DealNo],
) -> Result<(), OutOfMemory>
    ensures { IsInOrder waiting.now → OnOk result (changes.new.items ≡ changes.old.items ++ flat_map (λ test. puts_where test readied waiting.now) (named_by user deals.now)) }
{
    for deal in deals {
        put_missed(changes, waiting, *deal, user, Way::Mail)?;
        put_missed(changes, waiting, *deal, user, Way::Push)?;
    }
    Ok(())
}

/// Takes the row of the undecided notice of a deal to a user by a way away.
fn remove_cleared(
    changes: &mut Vec<RowChange>,
    waiting: &[Waiting],
    deal: DealNo,
    user: UserId,
    way: Way,
) -> Result<(), OutOfMemory>
    ensures { IsInOrder waiting.now → OnOk result (changes.new.items ≡ changes.old.items ++ removes_where (is_undecided_at deal user way) waiting.now) }
{
    if let Some(place) = find_undecided(waiting, deal, user, way) {
        changes.push(RowChange::Remove(key_of(&waiting[place])))?;
    }
    Ok(())
}

/// Takes the rows of a user's undecided notices of these deals away.
fn remove_all_cleared(
    changes: &mut Vec<RowChange>,
    waiting: &[Waiting],
    user: UserId,
    deals: &[DealNo],
) -> Result<(), OutOfMemory>
    ensures { IsInOrder waiting.now → OnOk result (changes.new.items ≡ changes.old.items ++ flat_map (λ test. removes_where test waiting.now) (named_by user deals.now)) }
{
    for deal in deals {
        remove_cleared(changes, waiting, *deal, user, Way::Mail)?;
        remove_cleared(changes, waiting, *deal, user, Way::Push)?;
    }
    Ok(())
}

/// Takes the rows of a user's mail notices of these messages away.
fn remove_mails(
    changes: &mut Vec<RowChange>,
    user: UserId,
    messages: &[MessageId],
) -> Result<(), OutOfMemory>
    ensures { OnOk result (changes.new.items ≡ changes.old.items ++ map (removed_mail user) messages.now) }
{
    for message in messages {
        changes.push(RowChange::Remove(RowKey::Pending(user, *message, Way::Mail)))?;
    }
    Ok(())
}

/// The users who were found idle.
fn idle_users(alloc: Global, verdicts: &[UserVerdict]) -> Result<Vec<UserId>, OutOfMemory>
    ensures { IfOk result (λ users. users.items ≡ map (λ v. v.user) (filter (λ v. is_idle v.verdict) verdicts.now)) }
{
    let users = verdicts
        .iter()
        .filter(|given| matches!(given.verdict, Verdict::Idle))
        .map(|given| given.user);
    Ok(users.collect(alloc)?)
}

/// The users who were found live.
fn live_users(alloc: Global, verdicts: &[UserVerdict]) -> Result<Vec<UserId>, OutOfMemory>
    ensures { IfOk result (λ users. users.items ≡ map (λ v. v.user) (filter (λ v. is_live v.verdict) verdicts.now)) }
{
    let users = verdicts
        .iter()
        .filter(|given| matches!(given.verdict, Verdict::Live))
        .map(|given| given.user);
    Ok(users.collect(alloc)?)
}

/// Adds the rows of the outbox entries that follow so many others.
pub(crate) fn put_entries(
    alloc: Global,
    changes: &mut Vec<RowChange>,
    before: usize,
    entries: &[Entry],
) -> Result<(), OutOfMemory>
    requires { before + 1 + length entries.now < 2 ^ 64 }
    ensures { OnOk result (changes.new.items ≡ changes.old.items ++ map Put (outbox_rows_from (before + 1) entries.now)) }
{
    for (i, entry) in entries.iter().enumerate() {
        changes.push(RowChange::Put(Row::Outbox {
            number: EntryNo((before + 1 + i) as u64),
            entry: entry.copy(alloc)?,
            spooled: false,
        }))?;
    }
    Ok(())
}

/// Adds the rows of active pushes.
pub(crate) fn put_active(
    changes: &mut Vec<RowChange>,
    active: &[Waiting],
) -> Result<(), OutOfMemory>
    ensures { OnOk result (changes.new.items ≡ changes.old.items ++ map (λ w. Put (active_row (push_of w))) active.now) }
{
    for push in active {
        changes.push(RowChange::Put(Row::Active {
            user: push.user,
            message: push.message,
        }))?;
    }
    Ok(())
}

/// Adds the rows that the turn of a push adds where it is handed over: that it is active, and its entry, which follows so
/// many others.
fn put_turn(
    alloc: Global,
    changes: &mut Vec<RowChange>,
    push: PushKey,
    before: usize,
    entry: &Option<Entry>,
) -> Result<(), OutOfMemory>
    requires { before + 1 < 2 ^ 64 }
    ensures { OnOk result (changes.new.items ≡ changes.old.items ++ turn_rows push before entry.now) }
{
    match entry {
        Some(entry) => {
            changes.push(RowChange::Put(Row::Active {
                user: push.user,
                message: push.message,
            }))?;
            changes.push(RowChange::Put(Row::Outbox {
                number: EntryNo(before as u64 + 1),
                entry: entry.copy(alloc)?,
                spooled: false,
            }))?;
            Ok(())
        }
        None => Ok(()),
    }
}

impl Tables {
    ghost use Rattle.chat_model.specs.declared.event.Event.TheVariants.{Restart, Asked, Absorbed, MailTurn, PushTurn};
    ghost use Rattle.chat_model.specs.declared.deal.Outcome.TheVariants.{Dealt, Cleared, Missed};
    ghost use Rattle.chat_model.specs.declared.request.Request.TheVariants.{AddUser, AddGroup, Set, SetPolicy, Send, Direct};
    ghost use Rattle.book_tables.specs.Tables.{Holds, HoldSome, StandsFor, IsOldest, WaitsLongest, send_of, push_turn};
    ghost use Rattle.book_tables.specs.Prepared.{FollowsAll, IsPreparedFor, MayFollow};

    fn prepare_user(&self, at: Moment, name: &Text, bot: bool) -> Result<Prepared, OutOfMemory>
        ensures { IfOk result (λ p. FollowsAll self.now (record { at = at; event = Asked (AddUser name.now bot) }) p) }
    {
        let id = UserId(self.names.len() as u64 + 1);
        let mut changes = Vec::new(self.alloc);
        changes.push(RowChange::Put(Row::User {
            id,
            name: name.copy()?,
            bot,
            settings: Settings::default(),
        }))?;
        let user = UserName {
            id,
            name: name.copy()?,
        };
        Ok(Prepared {
            at,
            changes,
            effect: Effect::User { user, bot },
        })
    }

    fn prepare_group(
        &self,
        at: Moment,
        name: &Text,
        members: &List<UserId>,
    ) -> Result<Prepared, OutOfMemory>
        requires { is_ascending members.now ≡ true }
        ensures { IfOk result (λ p. FollowsAll self.now (record { at = at; event = Asked (AddGroup name.now members.now) }) p) }
    {
        let group = GroupName {
            id: GroupId(self.groups.len() as u64 + 1),
            name: name.copy()?,
        };
        let members = UserSet::from_ascending(members.copy()?);
        Ok(Prepared {
            at,
            changes: Vec::new(self.alloc),
            effect: Effect::Group { group, members },
        })
    }

    /// The row of the user with these settings, if the user is there.
    fn user_changes(&self, user: UserId, settings: Settings) -> Result<Vec<RowChange>, OutOfMemory>
        ensures { IfOk result (λ changes. (past : Items Stamped) → Holds self.now past
            → changes.items ≡ map Put (option_to_list (option_map (λ p. User user p.name p.bot settings) (person past user)))) }
    {
        if !self.is_user(user) {
            return Ok(Vec::new(self.alloc));
        }
        let mut changes = Vec::new(self.alloc);
        changes.push(RowChange::Put(Row::User {
            id: user,
            name: Text::from_str(self.alloc, self.name(user))?,
            bot: self.is_bot(user),
            settings,
        }))?;
        Ok(changes)
    }

    /// A change of a switch, with the user's row.
    fn prepare_setting(
        &self,
        at: Moment,
        user: UserId,
        change: SettingChange,
    ) -> Result<Prepared, OutOfMemory>
        ensures { IfOk result (λ p. FollowsAll self.now (record { at = at; event = Asked (Set user change) }) p) }
    {
        let settings = self.settings(user).changed(change);
        let changes = self.user_changes(user, settings)?;
        let effect = Effect::Preference {
            user,
            change: Preference::Setting(change),
        };
        Ok(Prepared {
            at,
            changes,
            effect,
        })
    }

    fn prepare_policy(
        &self,
        at: Moment,
        user: UserId,
        channel: ChannelId,
        topic: &Text,
        policy: Policy,
    ) -> Result<Prepared, OutOfMemory>
        ensures { IfOk result (λ p. FollowsAll self.now (record { at = at; event = Asked (SetPolicy user channel topic.now policy) }) p) }
    {
        let change = Preference::Policy {
            channel,
            topic: topic.copy()?,
            policy,
        };
        Ok(self.without_rows(at, Effect::Preference { user, change }))
    }

    fn prepare_send(&self, at: Moment, message: Message) -> Result<Prepared, OutOfMemory>
        ensures { IfOk result (λ p. FollowsAll self.now (send_of at message) p) }
    {
        let addressees = self.addressees(&message.to)?;
        let waiting = self.owed(&message, &addressees)?;
        let deal = self.deal_of(&waiting)?;
        let mut changes = Vec::new(self.alloc);
        changes.push(RowChange::Put(Row::Message {
            id: MessageId(self.messages.len() as u64 + 1),
            sender: message.sender,
            text: message.text.copy()?,
            deleted: false,
        }))?;
        put_notices(&mut changes, &waiting)?;
        Ok(Prepared {
            at,
            changes,
            effect: Effect::Message {
                message,
                addressees,
                waiting,
                deal,
            },
        })
    }

    fn prepare_channel_message(
        &self,
        at: Moment,
        sender: UserId,
        channel: ChannelId,
        topic: &Text,
        text: &Text,
    ) -> Result<Prepared, OutOfMemory>
        ensures { IfOk result (λ p. FollowsAll self.now (record { at = at; event = Asked (Send sender channel topic.now text.now) }) p) }
    {
        let topic = topic.copy()?;
        let text = text.copy()?;
        let to = Destination::Channel { channel, topic };
        let prepared = self.prepare_send(at, Message { sender, to, text })?;
        Ok(prepared)
    }

    fn prepare_direct_message(
        &self,
        at: Moment,
        sender: UserId,
        to: &List<UserId>,
        text: &Text,
    ) -> Result<Prepared, OutOfMemory>
        ensures { IfOk result (λ p. FollowsAll self.now (record { at = at; event = Asked (Direct sender to.now text.now) }) p) }
    {
        let to = to.copy()?;
        let text = text.copy()?;
        let to = Destination::Direct { to };
        let prepared = self.prepare_send(at, Message { sender, to, text })?;
        Ok(prepared)
    }

    fn prepare_mails(&self, at: Moment, user: UserId) -> Result<Prepared, OutOfMemory>
        requires { HoldSome self.now }
        ensures { IfOk result (λ p. FollowsAll self.now (record { at = at; event = MailTurn user }) p) }
    {
        let entries = self.mail_entries(at, user)?;
        let mut changes = Vec::new(self.alloc);
        remove_mails(&mut changes, user, self.batches.rows(user))?;
        put_entries(self.alloc, &mut changes, self.outbox.len(), &entries)?;
        Ok(Prepared {
            at,
            changes,
            effect: Effect::Mailed {
                user,
                entries,
                handed: self.handed_over(user) as u64,
                off: self.switched_off(user) as u64,
            },
        })
    }

    /// A start makes every undecided notice ready.
    fn prepare_start(&self, at: Moment) -> Result<Prepared, OutOfMemory>
        ensures { IfOk result (λ p. FollowsAll self.now (record { at = at; event = Restart }) p) }
    {
        let mut changes = Vec::new(self.alloc);
        put_ready(&mut changes, &self.waiting)?;
        let pushes = once_each(undecided_pushes(self.alloc, &self.waiting)?);
        Ok(Prepared {
            at,
            changes,
            effect: Effect::Start { pushes },
        })
    }

    fn prepare_dealt(
        &self,
        at: Moment,
        deal: DealNo,
        verdicts: &List<UserVerdict>,
    ) -> Result<Prepared, OutOfMemory>
        ensures { IfOk result (λ p. FollowsAll self.now (record { at = at; event = Absorbed (Dealt deal verdicts.now) }) p) }
    {
        let idle = set_of(idle_users(self.alloc, verdicts.as_slice())?);
        let live = set_of(live_users(self.alloc, verdicts.as_slice())?);
        let mut changes = Vec::new(self.alloc);
        put_dealt(&mut changes, &self.waiting, deal, &idle, &live)?;
        let pushes = dealt_pushes(self.alloc, &self.waiting, deal, &idle, &live)?;
        let pushes = once_each(pushes);
        Ok(Prepared {
            at,
            changes,
            effect: Effect::Dealt {
                deal,
                idle,
                live,
                pushes,
            },
        })
    }

    fn prepare_cleared(
        &self,
        at: Moment,
        user: UserId,
        deals: &List<DealNo>,
        queue: QueueId,
    ) -> Result<Prepared, OutOfMemory>
        ensures { IfOk result (λ p. FollowsAll self.now (record { at = at; event = Absorbed (Cleared user deals.now queue) }) p) }
    {
        let mut changes = Vec::new(self.alloc);
        remove_all_cleared(&mut changes, &self.waiting, user, deals.as_slice())?;
        let deals = deals.copy()?;
        Ok(Prepared {
            at,
            changes,
            effect: Effect::Cleared { user, deals },
        })
    }

    fn prepare_missed(
        &self,
        at: Moment,
        user: UserId,
        deals: &List<DealNo>,
    ) -> Result<Prepared, OutOfMemory>
        ensures { IfOk result (λ p. FollowsAll self.now (record { at = at; event = Absorbed (Missed user deals.now) }) p) }
    {
        let mut changes = Vec::new(self.alloc);
        put_all_missed(&mut changes, &self.waiting, user, deals.as_slice())?;
        let pushes = missed_pushes(self.alloc, &self.waiting, user, deals.as_slice())?;
        let pushes = once_each(pushes);
        let deals = deals.copy()?;
        Ok(Prepared {
            at,
            changes,
            effect: Effect::Missed {
                user,
                deals,
                pushes,
            },
        })
    }

    /// The turn of the push item that waits longest.
    fn prepare_push(
        &self,
        at: Moment,
        user: UserId,
        message: MessageId,
    ) -> Result<Prepared, OutOfMemory>
        requires { WaitsLongest self.now user message }
        ensures { IfOk result (λ p. FollowsAll self.now (push_turn at user message) p) }
    {
        let entry = self.pushed_entry(at, user, message)?;
        let off = self.push_off(user, message);
        let mut changes = Vec::new(self.alloc);
        changes.push(RowChange::Remove(RowKey::Pending(user, message, Way::Push)))?;
        let push = PushKey { user, message };
        put_turn(self.alloc, &mut changes, push, self.outbox.len(), &entry)?;
        Ok(Prepared {
            at,
            changes,
            effect: Effect::Pushed {
                user,
                message,
                entry,
                off,
            },
        })
    }

    /// The turn of a push item, which waits longest.
    fn prepare_turn(&self, at: Moment, item: &PushItem) -> Result<Prepared, OutOfMemory>
        requires { IsOldest self.now item.now }
        ensures { IfOk result (λ p. FollowsAll self.now (record { at = at; event = PushTurn item.now }) p) }
    {
        match item {
            PushItem::Notify { user, message } => self.prepare_push(at, *user, *message),
            PushItem::Remove { user, messages } => self.prepare_removal(at, *user, messages),
        }
    }

    /// What an absorbed outcome changes: the notices that it names alone.
    fn prepare_absorbed(&self, at: Moment, outcome: &Outcome) -> Result<Prepared, OutOfMemory>
        ensures { IfOk result (λ p. FollowsAll self.now (record { at = at; event = Absorbed outcome.now }) p) }
    {
        match outcome {
            Outcome::Dealt { deal, verdicts } => self.prepare_dealt(at, *deal, verdicts),
            Outcome::Cleared { user, deals, queue } => {
                self.prepare_cleared(at, *user, deals, *queue)
            }
            Outcome::Missed { user, deals } => self.prepare_missed(at, *user, deals),
        }
    }

    /// An effect that changes no row.
    fn without_rows(&self, at: Moment, effect: Effect) -> Prepared
        ensures { (result.at ≡ at) × (result.changes.items ≡ []) × (result.effect ≡ effect) }
    {
        Prepared {
            at,
            changes: Vec::new(self.alloc),
            effect,
        }
    }

    fn prepare_asked(&self, at: Moment, request: &Request) -> Result<Prepared, OutOfMemory>
        requires { is_in_order request.now ≡ true }
        ensures { IfOk result (λ p. FollowsAll self.now (record { at = at; event = Asked request.now }) p) }
    {
        match request {
            Request::AddUser { name, bot } => self.prepare_user(at, name, *bot),
            Request::AddGroup { name, members } => self.prepare_group(at, name, members),
            Request::Member { group, user, on } => {
                let effect = Effect::Membership {
                    group: *group,
                    user: *user,
                    on: *on,
                };
                Ok(self.without_rows(at, effect))
            }
            Request::AddChannel { name } => {
                let name = name.copy()?;
                Ok(self.without_rows(at, Effect::Channel { name }))
            }
            Request::Subscribe { user, channel, on } => {
                let effect = Effect::Subscription {
                    channel: *channel,
                    user: *user,
                    on: *on,
                };
                Ok(self.without_rows(at, effect))
            }
            Request::Set { user, change } => self.prepare_setting(at, *user, *change),
            Request::SetChannel {
                user,
                channel,
                change,
            } => {
                let change = Preference::Specific {
                    channel: *channel,
                    change: *change,
                };
                let effect = Effect::Preference {
                    user: *user,
                    change,
                };
                Ok(self.without_rows(at, effect))
            }
            Request::SetPolicy {
                user,
                channel,
                topic,
                policy,
            } => self.prepare_policy(at, *user, *channel, topic, *policy),
            Request::Mute { user, other, on } => {
                let change = Preference::Mute {
                    other: *other,
                    on: *on,
                };
                let effect = Effect::Preference {
                    user: *user,
                    change,
                };
                Ok(self.without_rows(at, effect))
            }
            Request::Send {
                sender,
                channel,
                topic,
                text,
            } => self.prepare_channel_message(at, *sender, *channel, topic, text),
            Request::Direct { sender, to, text } => {
                self.prepare_direct_message(at, *sender, to, text)
            }
            Request::Delete { user, message } => self.prepare_delete(at, *user, *message),
            Request::Read { user, messages } => {
                self.prepare_read(at, *user, messages.as_slice())
            }
        }
    }

    /// What the event, which is lawful, will change. It changes nothing yet.
    pub fn prepare(&self, event: &Stamped) -> Result<Prepared, OutOfMemory>
        requires { MayFollow self.now event.now }
        ensures prepared { IfOk result (λ p. (j : Items Stamped) → StandsFor self.now j → IsPreparedFor j event.now p) }
        ensures changes { IfOk result (λ p. (j : Items Stamped) → StandsFor self.now j → is_lawful_after j event.now ≡ true → changed_all (changes_of p) (rows j) ≡ rows (j ++ event.now ∷ [])) }
    {
        match &event.event {
            Event::Restart => self.prepare_start(event.at),
            Event::Asked(request) => self.prepare_asked(event.at, request),
            Event::Absorbed(outcome) => self.prepare_absorbed(event.at, outcome),
            Event::MailTurn(user) => self.prepare_mails(event.at, *user),
            Event::PushTurn(item) => self.prepare_turn(event.at, item),
        }
    }
}
