//! The notices that wait. They stand in the order of the events that owe them, and so ascend by deal, user and way: those
//! that an outcome names are found by binary search.
ghost use Rattle.std.specs.Prelude.{◌≡◌, ◌≤◌, ◌<◌, ◌+◌, ◌*◌, not, ◌&&◌, false, length, map, filter, option_to_list, IfSome};
ghost use Rattle.std.specs.Vec.{vec_len, vec_capacity};
ghost use Rattle.std.specs.Option.{MatchOption};
ghost use Rattle.book_tables.specs.UserSets.{users_in};
ghost use Rattle.book_tables.specs.Notices.{rank, is_ready, is_undecided_mail, is_barred, barred_by, put_in_order, put_all_in_order, is_at_stage, is_before, is_at, is_undecided, is_undecided_at, is_ready_of, is_one_batch_row, is_undecided_push, of_deal, is_named, goes_ready, moved, readied, dealt_to, IsInOrder, AreSorted, AreNumbered, IsFound, IsStretchOf};

use crate::tables::Waiting;
use crate::user_set::UserSet;
use chat_model::{Cause, DealNo, MessageId, Stage, UserId, Way};

/// Where a way stands: a user's mail notice before the push.
fn rank(way: Way) -> u64
    ensures { result ≡ rank way }
{
    match way {
        Way::Mail => 0,
        Way::Push => 1,
    }
}

impl Waiting {
    pub fn is_ready(&self) -> bool
        ensures { result ≡ is_ready self.now }
    {
        matches!(self.stage, Stage::Ready)
    }

    /// Whether it is a mail notice, and not ready.
    pub fn is_undecided_mail(&self) -> bool
        ensures { result ≡ is_undecided_mail self.now }
    {
        rank(self.way) == 0 && !self.is_ready()
    }

    /// Whether it is a push, and not ready.
    pub fn is_undecided_push(&self) -> bool
        ensures { result ≡ is_undecided_push self.now }
    {
        rank(self.way) == 1 && !self.is_ready()
    }

    /// Whether something bars it.
    pub fn is_barred(&self) -> bool
        ensures { result ≡ is_barred self.now }
    {
        self.barred.is_some()
    }

    /// Whether it has come this far and no further, and nothing bars it.
    pub fn is_at_stage(&self, stage: Stage) -> bool
        ensures { result ≡ is_at_stage stage self.now }
    {
        !self.is_barred()
            && matches!(
                (self.stage, stage),
                (Stage::Flight, Stage::Flight)
                    | (Stage::Held, Stage::Held)
                    | (Stage::Ready, Stage::Ready)
            )
    }

    /// The notice once something barred it: what did so first counts.
    pub fn barred_by(self, cause: Cause) -> Waiting
        ensures { result ≡ barred_by cause self }
    {
        let barred = match self.barred {
            Some(first) => Some(first),
            None => Some(cause),
        };
        Waiting { barred, ..self }
    }

    /// Whether it stands before the notice of a deal to a user by a way.
    fn is_before(&self, deal: DealNo, user: UserId, way: Way) -> bool
        ensures { result ≡ is_before deal user way self.now }
    {
        self.deal.0 < deal.0
            || self.deal.0 == deal.0
                && (self.user.0 < user.0 || self.user.0 == user.0 && rank(self.way) < rank(way))
    }

    /// Whether it is the notice of a deal to a user by a way.
    fn is_at(&self, deal: DealNo, user: UserId, way: Way) -> bool
        ensures { result ≡ is_at deal user way self.now }
    {
        self.deal.0 == deal.0 && self.user.0 == user.0 && rank(self.way) == rank(way)
    }

    /// The notice once it moved on: to be ready, or else to be held.
    pub fn moved(self, readies: bool) -> Waiting
        ensures { result ≡ moved readies self }
    {
        let stage = match self.stage {
            Stage::Ready => Stage::Ready,
            _ if readies => Stage::Ready,
            _ => Stage::Held,
        };
        Waiting { stage, ..self }
    }

    /// The notice, ready.
    pub fn readied(self) -> Waiting
        ensures { result ≡ readied self }
    {
        self.moved(true)
    }

    /// Whether its deal makes it ready as soon as it is absorbed, where users were found idle or live: for who is idle,
    /// and as a push to who wants pushes while online.
    pub fn goes_ready(&self, idle: &UserSet, live: &UserSet) -> bool
        ensures { result ≡ goes_ready (users_in idle.now) (users_in live.now) self.now }
    {
        idle.has(self.user) || self.online && live.has(self.user)
    }

    /// The notice once its deal is absorbed, where users were found idle or live.
    pub fn dealt(self, idle: &UserSet, live: &UserSet) -> Waiting
        ensures { result ≡ dealt_to (users_in idle.now) (users_in live.now) self }
    {
        let readies = self.goes_ready(idle, live);
        self.moved(readies)
    }
}

/// The place of the notice of a deal to a user by a way.
pub fn find_notice(waiting: &[Waiting], deal: DealNo, user: UserId, way: Way) -> Option<usize>
    ensures within { IfSome result (λ place. place < length waiting.now) }
    ensures found { IsInOrder waiting.now → IsFound (is_at deal user way) waiting.now result }
{
    let place = waiting.partition_point(|notice| notice.is_before(deal, user, way));
    if place < waiting.len() && waiting[place].is_at(deal, user, way) {
        Some(place)
    } else {
        None
    }
}

/// The place of the undecided notice of a deal to a user by a way.
pub fn find_undecided(waiting: &[Waiting], deal: DealNo, user: UserId, way: Way) -> Option<usize>
    ensures within { IfSome result (λ place. place < length waiting.now) }
    ensures found { IsInOrder waiting.now → IsFound (is_undecided_at deal user way) waiting.now result }
{
    let place = find_notice(waiting, deal, user, way)?;
    if waiting[place].is_ready() {
        None
    } else {
        Some(place)
    }
}

/// The deal of a message: each send makes one. Messages are numbered from 1, and deals from 0.
pub fn deal_of(message: MessageId) -> Option<DealNo>
    ensures { MatchOption result (message.0 ≡ 0) (λ deal. message.0 ≡ deal.0 + 1) }
{
    let number = message.0.checked_sub(1)?;
    Some(DealNo(number))
}

/// The place of the user's notice of a message by a way, where it is ready.
pub fn find_ready(waiting: &[Waiting], user: UserId, message: MessageId, way: Way) -> Option<usize>
    ensures within { IfSome result (λ place. place < length waiting.now) }
    ensures found { IsInOrder waiting.now → AreNumbered waiting.now → IsFound (is_ready_of user message way) waiting.now result }
{
    let deal = deal_of(message)?;
    let place = find_notice(waiting, deal, user, way)?;
    if waiting[place].is_ready() {
        Some(place)
    } else {
        None
    }
}

/// Where the notices of a deal stand: from one place up to another.
#[derive(Clone, Copy, Debug)]
pub struct Stretch {
    pub from: usize,
    pub to: usize,
}

/// The stretch of a deal.
pub fn find_deal(waiting: &[Waiting], deal: DealNo) -> Stretch
    ensures order { result.from ≤ result.to }
    ensures within { result.to ≤ length waiting.now }
    ensures found { IsInOrder waiting.now → IsStretchOf (of_deal deal) result.from result.to waiting.now }
{
    let from = waiting.partition_point(|notice| notice.deal.0 < deal.0);
    let rest = &waiting[from..];
    let to = from + rest.partition_point(|notice| notice.deal.0 <= deal.0);
    Stretch { from, to }
}

/// Puts a notice among others, for which there is room, before those that stand behind it.
pub fn put_in_order(notices: &mut Vec<Waiting>, notice: Waiting)
    requires { vec_len notices.old < vec_capacity notices.old }
    ensures items { AreSorted notices.old.items → notices.new.items ≡ put_in_order notice notices.old.items }
    ensures room { vec_capacity notices.old ≤ vec_capacity notices.new }
    ensures long { vec_len notices.new ≡ vec_len notices.old + 1 }
{
    let place = notices.partition_point(|other| other.is_before(
        notice.deal,
        notice.user,
        notice.way,
    ));
    if notices.insert(place, notice).is_err() {
        unreachable!()
    }
}

/// Puts a notice that was taken out of others among these, for which there is room, if one was.
pub fn put_taken(notices: &mut Vec<Waiting>, taken: Option<Waiting>)
    requires { vec_len notices.old < vec_capacity notices.old }
    ensures { AreSorted notices.old.items → notices.new.items ≡ put_all_in_order (option_to_list taken) notices.old.items }
{
    if let Some(notice) = taken {
        put_in_order(notices, notice);
    }
}

/// Takes the notice of a deal to a user by a way out, where it is undecided.
fn take_undecided(
    waiting: &mut Vec<Waiting>,
    deal: DealNo,
    user: UserId,
    way: Way,
) -> Option<Waiting>
    ensures taken { IsInOrder waiting.old.items → option_to_list result ≡ filter (is_undecided_at deal user way) waiting.old.items }
    ensures rest { IsInOrder waiting.old.items → waiting.new.items ≡ filter (λ w. not (is_undecided_at deal user way w)) waiting.old.items }
{
    let place = find_undecided(waiting, deal, user, way)?;
    Some(waiting.remove(place))
}

/// Takes the notice of a deal to a user by a way out of those that wait, where it is undecided, and puts it, as held, among
/// those that were cleared, where there is room.
fn clear_one(
    waiting: &mut Vec<Waiting>,
    cleared: &mut Vec<Waiting>,
    deal: DealNo,
    user: UserId,
    way: Way,
)
    requires { vec_len cleared.old < vec_capacity cleared.old }
    ensures waiting { IsInOrder waiting.old.items → waiting.new.items ≡ filter (λ w. not (is_undecided_at deal user way w)) waiting.old.items }
    ensures cleared { IsInOrder waiting.old.items → AreSorted cleared.old.items → cleared.new.items ≡ put_all_in_order (map (moved false) (filter (is_undecided_at deal user way) waiting.old.items)) cleared.old.items }
    ensures room { vec_capacity cleared.old ≤ vec_capacity cleared.new }
    ensures long { vec_len cleared.new ≤ vec_len cleared.old + 1 }
{
    if let Some(notice) = take_undecided(waiting, deal, user, way) {
        put_in_order(cleared, notice.moved(false));
    }
}

/// Takes a user's undecided notices of these deals out of those that wait, and puts them, as held, among those that were
/// cleared, where there is room for two of each deal.
pub fn clear_named(
    waiting: &mut Vec<Waiting>,
    cleared: &mut Vec<Waiting>,
    user: UserId,
    deals: &[DealNo],
)
    requires { vec_len cleared.old + 2 * length deals.now ≤ vec_capacity cleared.old }
    ensures waiting { IsInOrder waiting.old.items → waiting.new.items ≡ filter (λ w. not (is_named user deals.now w && is_undecided w)) waiting.old.items }
    ensures cleared { IsInOrder waiting.old.items → AreSorted cleared.old.items → cleared.new.items ≡ put_all_in_order (map (moved false) (filter (λ w. is_named user deals.now w && is_undecided w) waiting.old.items)) cleared.old.items }
{
    for deal in deals {
        clear_one(waiting, cleared, *deal, user, Way::Mail);
        clear_one(waiting, cleared, *deal, user, Way::Push);
    }
}

/// Takes the user's notice of a message by a way out, where it is ready.
pub fn take_ready(
    waiting: &mut Vec<Waiting>,
    user: UserId,
    message: MessageId,
    way: Way,
) -> Option<Waiting>
    ensures taken { IsInOrder waiting.old.items → AreNumbered waiting.old.items → option_to_list result ≡ filter (is_ready_of user message way) waiting.old.items }
    ensures rest { IsInOrder waiting.old.items → AreNumbered waiting.old.items → waiting.new.items ≡ filter (λ w. not (is_ready_of user message way w)) waiting.old.items }
{
    let place = find_ready(waiting, user, message, way)?;
    Some(waiting.remove(place))
}

/// Takes the user's batch rows of these messages out.
pub fn take_batch_rows(waiting: &mut Vec<Waiting>, user: UserId, messages: &[MessageId])
    ensures { IsInOrder waiting.old.items → AreNumbered waiting.old.items → waiting.new.items ≡ filter (λ w. not (is_one_batch_row user messages.now w)) waiting.old.items }
{
    for message in messages {
        let _ = take_ready(waiting, user, *message, Way::Mail);
    }
}
