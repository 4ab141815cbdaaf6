//! The pushes: the items that an event makes of them, and what the turn of one does.
ghost use Rattle.std.specs.Prelude.{◌≡◌, ◌&&◌, ◌++◌, ◌∷◌, [], ℕ, List as Items, map, filter, option_to_list, true, if◌then◌else◌, IfOk, OnOk};
ghost use Rattle.notice_ledger.specs.Past.Audit.{same_cause};
ghost use Rattle.std.specs.List.{flat_map};
ghost use Rattle.std.specs.Option.{option_copied};
ghost use Rattle.chat_model.specs.declared.event.Stamped.{Stamped};
ghost use Rattle.notice_ledger.specs.Lawful.{lawful, is_lawful_after};
ghost use Rattle.notice_ledger.specs.Past.Owed.{Notice};
ghost use Rattle.notice_ledger.specs.Past.Outbox.{push_entry, push_entries};
ghost use Rattle.notice_ledger.specs.Past.Values.{settings};
ghost use Rattle.notice_ledger.specs.Pushes.{oldest_item};
ghost use Rattle.push_state.specs.Judged.{judged};
ghost use Rattle.book_tables.specs.UserSets.{users_in};
ghost use Rattle.book_tables.specs.Notices.{is_undecided_push, is_undecided_at, of_deal, IsInOrder};
ghost use Rattle.book_tables.specs.Pushes.{push_of, item_of, is_readied_push, IsOnceEach};

use crate::tables::{Message, Tables, Waiting, item_at};
use crate::user_set::UserSet;
use crate::waiting::{find_deal, find_ready, find_undecided};
use chat_model::{
    Cause, DealNo, Entry, MessageId, Moment, OutOfMemory, PushItem, Text, Trigger, UserId, Way,
};
use mail_batches::ReadyItem;
use push_state::{Judged, judge};
use std::alloc::Global;

/// How many characters of a message's text a push shows.
const SHOWN: usize = 200;

/// A user and a message: by them a push, and a pair of notices. They stand by user, then message.
#[derive(Clone, Copy, Debug, PartialEq, Eq, PartialOrd, Ord)]
pub struct PushKey {
    pub user: UserId,
    pub message: MessageId,
}

/// What the turn of a push does.
#[derive(Clone, Copy, Debug, PartialEq, Eq)]
pub enum PushVerdict {
    /// It hands the push over. The trigger is that of the notice.
    Hand(Trigger),
    /// It drops the push for this cause.
    Drop(Cause),
}

impl PushKey {
    fn of(notice: &Waiting) -> PushKey
        ensures { result ≡ push_of notice.now }
    {
        PushKey {
            user: notice.user,
            message: notice.message,
        }
    }

    /// The item that tells the user.
    pub fn item(self) -> PushItem
        ensures { result ≡ item_of self }
    {
        PushItem::Notify {
            user: self.user,
            message: self.message,
        }
    }
}

/// The pushes by user, then message, once each. It takes no memory.
pub fn once_each(mut pushes: Vec<PushKey>) -> Vec<PushKey>
    ensures { IsOnceEach pushes.items result.items }
{
    pushes.sort_unstable();
    pushes.dedup();
    pushes
}

/// The pushes among the undecided notices.
pub fn undecided_pushes(alloc: Global, waiting: &[Waiting]) -> Result<Vec<PushKey>, OutOfMemory>
    ensures { IfOk result (λ pushes. pushes.items ≡ map push_of (filter is_undecided_push waiting.now)) }
{
    let undecided = waiting.iter().filter(|notice| notice.is_undecided_push());
    Ok(undecided.map(PushKey::of).collect(alloc)?)
}

/// The pushes among the notices of a deal that go ready where users were found idle or live.
fn readied_pushes(
    alloc: Global,
    notices: &[Waiting],
    idle: &UserSet,
    live: &UserSet,
) -> Result<Vec<PushKey>, OutOfMemory>
    ensures { IfOk result (λ pushes. pushes.items ≡ map push_of (filter (is_readied_push (users_in idle.now) (users_in live.now)) notices.now)) }
{
    let readied = notices.iter().filter(|notice| notice.is_undecided_push()
        && notice.goes_ready(idle, live));
    Ok(readied.map(PushKey::of).collect(alloc)?)
}

/// The pushes of a deal that are ready once it is dealt.
pub fn dealt_pushes(
    alloc: Global,
    waiting: &[Waiting],
    deal: DealNo,
    idle: &UserSet,
    live: &UserSet,
) -> Result<Vec<PushKey>, OutOfMemory>
    ensures { IfOk result (λ pushes. IsInOrder waiting.now → pushes.items ≡ map push_of (filter (λ w. of_deal deal w && is_readied_push (users_in idle.now) (users_in live.now) w) waiting.now)) }
{
    let stretch = find_deal(waiting, deal);
    let pushes = readied_pushes(alloc, &waiting[stretch.from..stretch.to], idle, live)?;
    Ok(pushes)
}

/// Adds the undecided push of a deal to a user.
fn add_missed(
    pushes: &mut Vec<PushKey>,
    waiting: &[Waiting],
    deal: DealNo,
    user: UserId,
) -> Result<(), OutOfMemory>
    ensures { IsInOrder waiting.now → OnOk result (pushes.new.items ≡ pushes.old.items ++ map push_of (filter (is_undecided_at deal user Way.Push) waiting.now)) }
{
    if let Some(place) = find_undecided(waiting, deal, user, Way::Push) {
        pushes.push(PushKey::of(&waiting[place]))?;
    }
    Ok(())
}

/// The undecided pushes of these deals to a user.
pub fn missed_pushes(
    alloc: Global,
    waiting: &[Waiting],
    user: UserId,
    deals: &[DealNo],
) -> Result<Vec<PushKey>, OutOfMemory>
    ensures { IfOk result (λ pushes. IsInOrder waiting.now → pushes.items ≡ flat_map (λ k. map push_of (filter (is_undecided_at k user Way.Push) waiting.now)) deals.now) }
{
    let mut pushes = Vec::new(alloc);
    for deal in deals {
        add_missed(&mut pushes, waiting, *deal, user)?;
    }
    Ok(pushes)
}

/// One where the cause is the switch.
fn off_for(cause: Cause) -> u64
    ensures { result ≡ if same_cause cause Cause.SwitchedOff then 1 else 0 }
{
    match cause {
        Cause::SwitchedOff => 1,
        Cause::Read => 0,
        Cause::Deleted => 0,
    }
}

impl Tables {
    ghost use Rattle.book_tables.specs.Tables.{Holds, StandsFor, WaitsLongest, message_kept, notice_kept, push_turn, switched_at_push, IsVerdict, IsReadyPush};
    ghost use Rattle.chat_model.specs.declared.push_item.PushItem.TheVariants.{Notify};

    /// The push item that waits longest, `None` exactly where none waits. It takes no memory.
    pub fn oldest(&self) -> Option<&PushItem>
        ensures { (j : Items Stamped) → StandsFor self.now j → option_copied result ≡ oldest_item j }
    {
        self.pushes.oldest()
    }

    /// The notice of the item that waits longest.
    fn next_push(&self, user: UserId, message: MessageId) -> Waiting
        requires { WaitsLongest self.now user message }
        ensures { (j : Items Stamped) → StandsFor self.now j → IsReadyPush (lawful j) user message result }
    {
        match find_ready(&self.waiting, user, message, Way::Push) {
            Some(place) => self.waiting[place],
            None => unreachable!(),
        }
    }

    /// What the turn of a push, which is ready, does of it: what bars it counts before the switch.
    fn judge_push(&self, notice: &Waiting) -> Judged
        ensures { (past : Items Stamped) → Holds self.now past → result ≡ judged notice.now.barred (settings past notice.now.user) }
    {
        judge(notice.barred, &self.settings(notice.user))
    }

    /// How many notices the turn of the item that waits longest switches off.
    pub(crate) fn push_off(&self, user: UserId, message: MessageId) -> u64
        requires { WaitsLongest self.now user message }
        ensures { (j : Items Stamped) → StandsFor self.now j → result ≡ switched_at_push (lawful j) user message }
    {
        match self.judge_push(&self.next_push(user, message)) {
            Judged::Hand => 0,
            Judged::Drop(cause) => off_for(cause),
        }
    }

    /// What the turn of the item that waits longest does of its push. It takes no memory.
    pub fn push_verdict(&self, user: UserId, message: MessageId) -> PushVerdict
        requires { WaitsLongest self.now user message }
        ensures { (j : Items Stamped) (at : ℕ) → StandsFor self.now j → is_lawful_after j (push_turn at user message) ≡ true
            → IsVerdict (j ++ push_turn at user message ∷ []) user message result }
    {
        let notice = self.next_push(user, message);
        match self.judge_push(&notice) {
            Judged::Hand => PushVerdict::Hand(notice.trigger),
            Judged::Drop(cause) => PushVerdict::Drop(cause),
        }
    }

    /// The entry of a push that is handed over at this stamp.
    fn push_entry(
        &self,
        at: Moment,
        notice: &Waiting,
        message: &Message,
    ) -> Result<Entry, OutOfMemory>
        ensures { IfOk result (λ made. (past : Items Stamped) (n : Notice) → Holds self.now past → notice.now ≡ notice_kept past n → message.now ≡ message_kept n.message → made ≡ push_entry past at n) }
    {
        let ReadyItem {
            conversation,
            mut item,
        } = self.ready_item(notice, message)?;
        item.text = item.text.beginning(SHOWN)?;
        Ok(Entry::Push {
            user: notice.user,
            name: Text::from_str(self.alloc, self.name(notice.user))?,
            at,
            conversation,
            item,
        })
    }

    /// The entry of the turn of the item that waits longest, where the push is handed over.
    pub(crate) fn pushed_entry(
        &self,
        at: Moment,
        user: UserId,
        message: MessageId,
    ) -> Result<Option<Entry>, OutOfMemory>
        requires { WaitsLongest self.now user message }
        ensures { IfOk result (λ entry. (j : Items Stamped) → StandsFor self.now j → option_to_list entry ≡ push_entries (lawful j) at (Notify user message)) }
    {
        let notice = self.next_push(user, message);
        match self.judge_push(&notice) {
            Judged::Hand => match item_at(&self.messages, message.0) {
                Some(sent) => Ok(Some(self.push_entry(at, &notice, sent)?)),
                None => unreachable!(),
            },
            Judged::Drop(_) => Ok(None),
        }
    }
}
