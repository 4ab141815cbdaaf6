//! Whom a message notifies, and by which group.
ghost use Rattle.std.specs.Prelude.{◌≡◌, ◌++◌, ◌&&◌, true, ℕ, List, None, map, filter, option_map, option_to_list, IfOk, OnOk, if◌then◌else◌};
ghost use Rattle.std.specs.Option.{option_map_or};
ghost use Rattle.std.specs.List.{list_any, reduce};
ghost use Rattle.chat_model.specs.declared.event.Stamped.{Stamped};
ghost use Rattle.chat_model.specs.Triggers.{trigger_of};
ghost use Rattle.notice_ledger.specs.InOrder.{is_ascending};
ghost use Rattle.notice_ledger.specs.Past.Values.{is_one_of};
ghost use Rattle.chat_model.specs.declared.trigger.Way.TheVariants as WayOf;
ghost use Rattle.notice_ledger.specs.Past.Owed.{same_way};
ghost use Rattle.notice_ledger.specs.Past.Triggers.{mentions_of, is_named, is_mention};

use crate::facts::{Gathered, set_of};
use crate::sets::{is_in_one, is_in_set, size_of_set};
use crate::tables::{Message, Tables, Waiting, item_at};
use crate::user_set::UserSet;
use chat_model::{
    ChannelId, DealNo, Facts, GroupId, Mentions, MessageId, OutOfMemory, Stage, Text, Trigger,
    UserId, Way,
};
use mention_scan::{resolve, scan};
use notice_ledger::Destination;
use trigger_rules::trigger;

/// Whether the trigger is a mention.
fn is_mention(trigger: Trigger) -> bool
    ensures { result ≡ is_mention trigger }
{
    matches!(trigger, Trigger::Mention)
}

/// Whether a notice by this way is a push to a user who wants pushes while online.
fn pushes_online(facts: &Facts, way: Way) -> bool
    ensures { result ≡ (same_way way WayOf.Push && facts.now.settings.push_online) }
{
    matches!(way, Way::Push) && facts.settings.push_online
}

/// Whether the user is among these, which ascend.
fn is_among(users: &[UserId], user: UserId) -> bool
    ensures { is_ascending users.now ≡ true → result ≡ is_one_of users.now user }
{
    users.binary_search(&user).is_ok()
}

/// Whether the user is mentioned by name.
fn is_named(mentioned: &Mentions, user: UserId) -> bool
    ensures { (past : List Stamped) (text : List ℕ) → mentioned.now ≡ mentions_of past text → result ≡ is_named past text user }
{
    is_among(mentioned.users.as_slice(), user)
}

impl Tables {
    ghost use Rattle.notice_ledger.specs.Past.Journal.{occurrence};
    ghost use Rattle.notice_ledger.specs.Past.Values.{is_bot, is_member, member_count, settings, subscribed};
    ghost use Rattle.notice_ledger.specs.Past.Triggers.{goes_to, is_mentioned, smaller, smallest_named, came_by};
    ghost use Rattle.notice_ledger.specs.Past.Triggers.{trigger as trigger_at};
    ghost use Rattle.notice_ledger.specs.Past.Owed.{notice_of, owed_by};
    ghost use Rattle.book_tables.specs.Tables.{Holds, in_flight, send_of, sent_after, owed_user};
    ghost use Rattle.book_tables.specs.Gathered.{IsGathered, owed_there};

    pub(crate) fn is_bot(&self, user: UserId) -> bool
        ensures { (past : List Stamped) → Holds self.now past → result ≡ is_bot past user }
    {
        match item_at(&self.bots, user.0) {
            Some(bot) => *bot,
            None => false,
        }
    }

    fn is_member(&self, group: GroupId, user: UserId) -> bool
        ensures { (past : List Stamped) → Holds self.now past → result ≡ is_member past group user }
    {
        is_in_set(&self.members, group.0, user)
    }

    /// Whether the user is a member of one of these groups.
    fn is_in_some(&self, groups: &[GroupId], user: UserId) -> bool
        ensures { (past : List Stamped) → Holds self.now past → result ≡ list_any (λ g. is_member past g user) groups.now }
    {
        is_in_one(&self.members, groups, user)
    }

    fn member_count(&self, group: GroupId) -> usize
        ensures { (past : List Stamped) → Holds self.now past → result ≡ member_count past group }
    {
        size_of_set(&self.members, group.0)
    }

    /// What the text mentions.
    pub(crate) fn mentions(&self, text: &Text) -> Result<Mentions, OutOfMemory>
        ensures { IfOk result (λ mentioned. (past : List Stamped) → Holds self.now past → mentioned ≡ mentions_of past text.now) }
    {
        let alloc = self.alloc;
        let spans = scan(alloc, text.as_str())?;
        resolve(
            alloc,
            text.as_str(),
            spans.as_slice(),
            &self.names,
            &self.groups,
        )
    }

    /// Whether the user is mentioned, by name or by a group of the user.
    pub(crate) fn is_mentioned(&self, mentioned: &Mentions, user: UserId) -> bool
        ensures { (past : List Stamped) (text : List ℕ) → Holds self.now past → mentioned.now ≡ mentions_of past text → result ≡ is_mentioned past text user }
    {
        is_named(mentioned, user) || self.is_in_some(mentioned.groups.as_slice(), user)
    }

    /// Of two groups the one with fewer members, and at a tie the first.
    fn smaller(&self, first: Option<GroupId>, next: GroupId) -> GroupId
        ensures { (past : List Stamped) → Holds self.now past → result ≡ option_map_or (λ g. smaller past g next) first next }
    {
        match first {
            Some(first) if self.member_count(first) <= self.member_count(next) => first,
            _ => next,
        }
    }

    /// The smallest group of these of which the user is a member, at a tie the first.
    fn smallest(&self, groups: &[GroupId], user: UserId) -> Option<GroupId>
        ensures { (past : List Stamped) → Holds self.now past → result ≡ reduce (smaller past) (filter (λ g. is_member past g user) groups.now) }
    {
        let mut smallest = None;
        for group in groups {
            if self.is_member(*group, user) {
                smallest = Some(self.smaller(smallest, *group));
            }
        }
        smallest
    }

    /// The group by which a mention comes to the user, where the user is not mentioned by name.
    fn mention_via(&self, mentioned: &Mentions, user: UserId) -> Option<GroupId>
        ensures { (past : List Stamped) (text : List ℕ) → Holds self.now past → mentioned.now ≡ mentions_of past text → result ≡ (if is_named past text user then None else smallest_named past text user) }
    {
        if is_named(mentioned, user) {
            return None;
        }
        self.smallest(mentioned.groups.as_slice(), user)
    }

    /// The group by which a notice of this trigger comes to the user.
    fn via(&self, mentioned: &Mentions, user: UserId, trigger: Trigger) -> Option<GroupId>
        ensures { (past : List Stamped) (text : List ℕ) → Holds self.now past → mentioned.now ≡ mentions_of past text → result ≡ came_by past text user trigger }
    {
        if is_mention(trigger) {
            self.mention_via(mentioned, user)
        } else {
            None
        }
    }

    /// Adds the notice of the next message to the user by the way, if the facts trigger one.
    fn add_notice(
        &self,
        mentioned: &Mentions,
        facts: &Facts,
        user: UserId,
        way: Way,
        owed: &mut Vec<Waiting>,
    ) -> Result<(), OutOfMemory>
        ensures { (past : List Stamped) (at : ℕ) (message : Message) → Holds self.now past → mentioned.now ≡ mentions_of past message.text → trigger_of facts.now way ≡ trigger_at past (sent_after past message) message.text user way
            → facts.now.settings ≡ settings past user
            → OnOk result (owed.new.items ≡ owed.old.items ++ option_to_list (option_map in_flight (notice_of (occurrence past (send_of at message)) (sent_after past message) user way))) }
    {
        match trigger(facts, way) {
            Some(trigger) => {
                owed.push(Waiting {
                    user,
                    message: MessageId(self.messages.len() as u64 + 1),
                    way,
                    trigger,
                    via: self.via(mentioned, user, trigger),
                    deal: DealNo(self.messages.len() as u64),
                    online: pushes_online(facts, way),
                    stage: Stage::Flight,
                    barred: None,
                })?;
                Ok(())
            }
            None => Ok(()),
        }
    }

    /// Adds the notices that the next message owes a recipient, mail before push.
    fn add_both(
        &self,
        message: &Message,
        gathered: &Gathered,
        user: UserId,
        owed: &mut Vec<Waiting>,
    ) -> Result<(), OutOfMemory>
        ensures { (past : List Stamped) (at : ℕ) → Holds self.now past → IsGathered past message.now gathered.now → goes_to past message.now.to user ≡ true
            → OnOk result (owed.new.items ≡ owed.old.items ++ owed_user past at message.now user) }
    {
        let facts = self.facts(message, gathered, user);
        self.add_notice(&gathered.mentioned, &facts, user, Way::Mail, owed)?;
        self.add_notice(&gathered.mentioned, &facts, user, Way::Push, owed)?;
        Ok(())
    }

    /// Adds the notices that the next message owes one of its addressees. The sender isn't a recipient, and who isn't
    /// there is owed nothing.
    fn add_owed(
        &self,
        message: &Message,
        gathered: &Gathered,
        user: UserId,
        owed: &mut Vec<Waiting>,
    ) -> Result<(), OutOfMemory>
        ensures { (past : List Stamped) (at : ℕ) → Holds self.now past → IsGathered past message.now gathered.now → goes_to past message.now.to user ≡ true
            → OnOk result (owed.new.items ≡ owed.old.items ++ owed_there past at message.now user) }
    {
        if self.is_user(user) {
            self.add_both(message, gathered, user, owed)
        } else {
            Ok(())
        }
    }

    /// The notices that the next message owes its addressees: by user, mail before push.
    fn owed_to(
        &self,
        message: &Message,
        gathered: &Gathered,
        addressees: &UserSet,
    ) -> Result<Vec<Waiting>, OutOfMemory>
        ensures { IfOk result (λ owed. (past : List Stamped) (at : ℕ) → Holds self.now past → IsGathered past message.now gathered.now
            → ((u : UserId) → is_one_of addressees.now.users.items u ≡ goes_to past message.now.to u)
            → owed.items ≡ map in_flight (owed_by (occurrence past (send_of at message.now)))) }
    {
        let mut owed = Vec::new(self.alloc);
        for user in &addressees.users {
            self.add_owed(message, gathered, *user, &mut owed)?;
        }
        Ok(owed)
    }

    /// The subscribers of a channel, nobody where there is no such channel.
    fn subscribers_of(&self, channel: ChannelId) -> Result<UserSet, OutOfMemory>
        ensures { IfOk result (λ set. (past : List Stamped) (u : UserId) → Holds self.now past → is_one_of set.users.items u ≡ subscribed past u channel) }
    {
        match item_at(&self.subscribers, channel.0) {
            Some(subscribers) => subscribers.copy(),
            None => Ok(UserSet::new(self.alloc)),
        }
    }

    /// To whom a message goes now: the subscribers of its channel, or the users whom a direct one names.
    pub(crate) fn addressees(&self, to: &Destination) -> Result<UserSet, OutOfMemory>
        ensures { IfOk result (λ set. (past : List Stamped) (u : UserId) → Holds self.now past → is_one_of set.users.items u ≡ goes_to past to.now u) }
    {
        match to {
            Destination::Channel { channel, .. } => self.subscribers_of(*channel),
            Destination::Direct { to } => {
                let users = to.copy()?;
                Ok(set_of(users.into_vec()))
            }
        }
    }

    /// The notices that the next message owes those to whom it goes. Only they are looked at.
    pub(crate) fn owed(
        &self,
        message: &Message,
        addressees: &UserSet,
    ) -> Result<Vec<Waiting>, OutOfMemory>
        ensures { IfOk result (λ owed. (past : List Stamped) (at : ℕ) → Holds self.now past
            → ((u : UserId) → is_one_of addressees.now.users.items u ≡ goes_to past message.now.to u)
            → owed.items ≡ map in_flight (owed_by (occurrence past (send_of at message.now)))) }
    {
        let gathered = self.gather(message)?;
        let owed = self.owed_to(message, &gathered, addressees)?;
        Ok(owed)
    }
}
