//! Which pushes that were handed over are revoked, and the removals of them, by looking through the whole list of events.
ghost use Rattle.std.specs.Prelude.{◌≡◌, ◌&&◌, ◌==◌, not, count_by, map, filter, option_map, IfOk};
ghost use Rattle.std.specs.List.{filter_map, flat_map, list_any};
ghost use Rattle.notice_ledger.specs.Past.Owed.{is_handed, notices};
ghost use Rattle.notice_ledger.specs.Past.Pushes.{removes};
ghost use Rattle.notice_ledger.specs.Plain.{handed_kept, is_removed_kept, owed_kept, removals_to_kept, revocation_kept, revoked_messages_kept, revoked_push_kept};

use crate::Account;
use crate::bars::{bar_behind, has_message};
use crate::owed::{Owed, notices};
use crate::turns::turn;
use chat_model::{
    List, MessageId, OutOfMemory, PushItem, Stamped, UserId, UserName, Way, ascending_messages,
};
use revocation::removals;
use std::alloc::Global;

/// A push notice that is revoked, with the place of the event that revokes it.
#[derive(Clone, Copy, Debug)]
pub struct RevokedPush {
    pub user: UserId,
    pub message: MessageId,
    pub place: usize,
}

fn is_handed(account: Account) -> bool
    ensures { result ≡ is_handed account }
{
    match account {
        Account::Handed => true,
        _ => false,
    }
}

/// The place of the notice's turn, if the turn handed it over.
fn handed_at_turn(journal: &[Stamped], notice: &Owed) -> Option<usize>
    ensures { result ≡ option_map (λ t. t.place) (handed_kept journal.now notice.now) }
{
    match turn(journal, notice) {
        Some(turn) => match turn.decided {
            Some(account) if is_handed(account) => Some(turn.place),
            _ => None,
        },
        None => None,
    }
}

/// The place of the event that revokes the notice: the first that bars it behind the turn that handed it over.
fn revocation(journal: &[Stamped], notice: &Owed) -> Option<usize>
    ensures { result ≡ option_map (λ o. o.place) (revocation_kept journal.now notice.now) }
{
    match handed_at_turn(journal, notice) {
        Some(place) => match bar_behind(journal, place, notice) {
            Some(bar) => Some(bar.place),
            None => None,
        },
        None => None,
    }
}

/// The notice with the place of the event that revokes it, if it is a push notice and is revoked.
fn revoked_push(journal: &[Stamped], notice: &Owed) -> Option<RevokedPush>
    ensures { result ≡ revoked_push_kept journal.now notice.now }
{
    match notice.way {
        Way::Mail => None,
        Way::Push => match revocation(journal, notice) {
            Some(place) => Some(RevokedPush {
                user: notice.user,
                message: notice.message,
                place,
            }),
            None => None,
        },
    }
}

/// Those of the notices that are pushes and revoked.
fn revoked_among(
    alloc: Global,
    journal: &[Stamped],
    notices: &[Owed],
) -> Result<Vec<RevokedPush>, OutOfMemory>
    ensures { IfOk result (λ revoked. revoked.items ≡ filter_map (revoked_push_kept journal.now) notices.now) }
{
    let revoked = notices
        .iter()
        .filter_map(|notice| revoked_push(journal, notice));
    Ok(revoked.collect(alloc)?)
}

/// The pushes that are revoked, in the order of the events that owe them.
pub fn revoked_pushes(alloc: Global, journal: &[Stamped]) -> Result<Vec<RevokedPush>, OutOfMemory>
    ensures { IfOk result (λ revoked. revoked.items ≡ filter_map (revoked_push_kept journal.now) (map owed_kept (notices journal.now))) }
{
    let notices = notices(alloc, journal)?;
    revoked_among(alloc, journal, &notices)
}

/// The messages of the pushes to the user that the event at the place revokes, ascending.
fn revoked_messages(
    alloc: Global,
    revoked: &[RevokedPush],
    place: usize,
    user: UserId,
) -> Result<List<MessageId>, OutOfMemory>
    ensures { IfOk result (λ messages. messages ≡ revoked_messages_kept revoked.now place user) }
{
    let mut messages = List::new(alloc);
    for push in revoked {
        if push.user.0 == user.0 && push.place == place {
            messages.push(push.message)?;
        }
    }
    Ok(ascending_messages(messages))
}

/// The removals to the user that the event at the place makes.
fn removals_to(
    alloc: Global,
    revoked: &[RevokedPush],
    place: usize,
    user: UserId,
) -> Result<List<PushItem>, OutOfMemory>
    ensures { IfOk result (λ items. items ≡ removals_to_kept revoked.now place user) }
{
    let messages = revoked_messages(alloc, revoked, place, user)?;
    removals(alloc, user, messages.as_slice())
}

/// The removals that the event at the place makes, by user.
pub fn removals_at(
    alloc: Global,
    users: &[UserName],
    revoked: &[RevokedPush],
    place: usize,
) -> Result<Vec<PushItem>, OutOfMemory>
    ensures { IfOk result (λ items. items.items ≡ flat_map (λ name. removals_to_kept revoked.now place name.id) users.now) }
{
    let mut items = Vec::new(alloc);
    for name in users {
        let mut removals = removals_to(alloc, revoked, place, name.id)?.into_vec();
        items.append(&mut removals)?;
    }
    Ok(items)
}

/// Whether the item removes the push.
fn removes(push: &RevokedPush, item: &PushItem) -> bool
    ensures { result ≡ removes push.now.user push.now.message item.now }
{
    match item {
        PushItem::Notify { .. } => false,
        PushItem::Remove { user, messages } => {
            user.0 == push.user.0 && has_message(messages.as_slice(), push.message)
        }
    }
}

/// Whether one of the items that wait removes the push.
fn is_removal_among(waiting: &[PushItem], push: &RevokedPush) -> bool
    ensures { result ≡ list_any (removes push.now.user push.now.message) waiting.now }
{
    waiting.iter().any(|item| removes(push, item))
}

/// How many of the revoked pushes have a removal among the items that wait.
pub fn waiting_among(waiting: &[PushItem], revoked: &[RevokedPush]) -> usize
    ensures { result ≡ count_by (is_removed_kept waiting.now) revoked.now }
{
    revoked
        .iter()
        .filter(|push| is_removal_among(waiting, push))
        .count()
}

/// How many of the revoked pushes have no removal among the items that wait.
pub fn written_among(waiting: &[PushItem], revoked: &[RevokedPush]) -> usize
    ensures { result ≡ count_by (λ p. not (is_removed_kept waiting.now p)) revoked.now }
{
    revoked
        .iter()
        .filter(|push| !is_removal_among(waiting, push))
        .count()
}
