//! What each event owes, by looking through the whole list of the events before it.
ghost use Rattle.std.specs.Prelude.{◌≡◌, [], ◌∷◌, ◌++◌, map, find, option_to_list, IfOk, OnOk};
ghost use Rattle.std.specs.Option.{option_copied};
ghost use Rattle.std.specs.List.{filter_map};
ghost use Rattle.notice_ledger.specs.Past.Journal.{occurrence};
ghost use Rattle.notice_ledger.specs.Past.Triggers.{mentions_of};
ghost use Rattle.notice_ledger.specs.Past.Owed.{notices, owed_by, owed_of, same_way};
ghost use Rattle.notice_ledger.specs.Plain.{is_of_kept, owed_kept, owed_by_facts, owed_to_all};

use crate::Destination;
use crate::facts::Heard;
use crate::messages::{next_deal, next_message};
use crate::values::{bots, group_names, user_names};
use chat_model::{
    DealNo, Event, Facts, Mentions, MessageId, OutOfMemory, Request, Stamped, Text, UserId,
    UserName, Way,
};
use mention_scan::{resolve, scan};
use std::alloc::Global;
use trigger_rules::trigger;

/// An owed notice, with its deal and the place of the event that owes it. It is `online` where it is a push to a user who
/// wanted pushes while online at that event.
#[derive(Clone, Copy, Debug)]
pub struct Owed {
    pub user: UserId,
    pub message: MessageId,
    pub way: Way,
    pub deal: DealNo,
    pub online: bool,
    pub place: usize,
}

fn is_push(way: Way) -> bool
    ensures { result ≡ same_way way Way.Push }
{
    match way {
        Way::Mail => false,
        Way::Push => true,
    }
}

/// What the text mentions, with the users and groups that there are.
#[tactic(auto, unfolding(crate::specs::Past::Triggers::mentions_of))]
fn mentions(alloc: Global, past: &[Stamped], text: &str) -> Result<Mentions, OutOfMemory>
    ensures { IfOk result (λ m. m ≡ mentions_of past.now text.now) }
{
    let users = user_names(alloc, past)?;
    let groups = group_names(alloc, past)?;
    let spans = scan(alloc, text)?;
    resolve(alloc, text, spans.as_slice(), &users, &groups)
}

impl Owed {
    /// Adds the notice by this way, if what is so of the user triggers it.
    fn add_by(&self, facts: &Facts, way: Way, owed: &mut Vec<Owed>) -> Result<(), OutOfMemory>
        ensures { OnOk result (owed.new.items ≡ owed.old.items ++ option_to_list (owed_by_facts self.now facts.now way)) }
    {
        if trigger(facts, way).is_some() {
            owed.push(Owed {
                user: self.user,
                message: self.message,
                way,
                deal: self.deal,
                online: is_push(way) && facts.settings.push_online,
                place: self.place,
            })?;
        }
        Ok(())
    }

    /// Adds the notices that what is so of the user triggers, mail before push.
    fn add_both(&self, facts: &Facts, owed: &mut Vec<Owed>) -> Result<(), OutOfMemory>
        ensures { OnOk result (owed.new.items ≡ owed.old.items ++ filter_map (owed_by_facts self.now facts.now) (Way.Mail ∷ Way.Push ∷ [])) }
    {
        self.add_by(facts, Way::Mail, owed)?;
        self.add_by(facts, Way::Push, owed)?;
        Ok(())
    }
}

/// What the message owes these users: by user, mail before push.
fn owed_to_all(
    alloc: Global,
    past: &[Stamped],
    heard: &Heard,
    users: &[UserName],
) -> Result<Vec<Owed>, OutOfMemory>
    ensures { IfOk result (λ owed. owed.items ≡ owed_to_all past.now heard.now users.now) }
{
    let mut owed = Vec::new(alloc);
    for name in users {
        let facts = heard.facts(past, name.id);
        let notice = Owed {
            user: name.id,
            message: heard.number,
            way: Way::Mail,
            deal: heard.deal,
            online: false,
            place: past.len(),
        };
        notice.add_both(&facts, &mut owed)?;
    }
    Ok(owed)
}

/// What the send of a message owes.
fn owed_of(
    alloc: Global,
    past: &[Stamped],
    stamped: &Stamped,
    sender: UserId,
    to: Destination,
    text: &Text,
) -> Result<Vec<Owed>, OutOfMemory>
    ensures { IfOk result (λ owed. owed.items ≡ map owed_kept (owed_of (occurrence past.now stamped.now) (record { past = past.now; sender = sender; to = to; text = text.now }))) }
{
    let heard = Heard {
        number: next_message(past),
        deal: next_deal(past),
        sender,
        to,
        mentioned: mentions(alloc, past, text.as_str())?,
        bots: bots(alloc, past)?,
    };
    let users = user_names(alloc, past)?;
    owed_to_all(alloc, past, &heard, &users)
}

/// What an event behind these owes: by user, mail before push.
fn owed_by(alloc: Global, past: &[Stamped], stamped: &Stamped) -> Result<Vec<Owed>, OutOfMemory>
    ensures { IfOk result (λ owed. owed.items ≡ map owed_kept (owed_by (occurrence past.now stamped.now))) }
{
    match &stamped.event {
        Event::Asked(
            Request::Send {
                sender,
                channel,
                topic,
                text,
            },
        ) => {
            let to = Destination::Channel {
                channel: *channel,
                topic: topic.copy()?,
            };
            owed_of(alloc, past, stamped, *sender, to, text)
        }
        Event::Asked(Request::Direct { sender, to, text }) => {
            let to = Destination::Direct { to: to.copy()? };
            owed_of(alloc, past, stamped, *sender, to, text)
        }
        _ => Ok(Vec::new(alloc)),
    }
}

/// The owed notices, in the order of the events that owe them.
pub fn notices(alloc: Global, journal: &[Stamped]) -> Result<Vec<Owed>, OutOfMemory>
    ensures { IfOk result (λ found. found.items ≡ map owed_kept (notices journal.now)) }
{
    let mut found = Vec::new(alloc);
    for i in 0..journal.len() {
        let owed = owed_by(alloc, &journal[..i], &journal[i])?;
        found.extend_from_slice(&owed)?;
    }
    Ok(found)
}

fn is_same_way(way: Way, other: Way) -> bool
    ensures { result ≡ same_way way other }
{
    match (way, other) {
        (Way::Mail, Way::Mail) => true,
        (Way::Push, Way::Push) => true,
        _ => false,
    }
}

/// Whether the notice is to the user, of the message, by the way.
fn is_of(notice: &Owed, user: UserId, message: MessageId, way: Way) -> bool
    ensures { result ≡ is_of_kept user message way notice.now }
{
    notice.user.0 == user.0 && notice.message.0 == message.0 && is_same_way(notice.way, way)
}

/// The notice of a user, a message and a way.
pub fn found(notices: &[Owed], user: UserId, message: MessageId, way: Way) -> Option<&Owed>
    ensures { option_copied result ≡ find (is_of_kept user message way) notices.now }
{
    notices
        .iter()
        .find(|notice| is_of(notice, user, message, way))
}
