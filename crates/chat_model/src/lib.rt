//! The words that every other crate speaks: ids, texts, requests, events, rows and outbox entries.
#![tactic(auto)]

mod ascending;
mod counts;
mod deal;
mod duplicate;
mod entry;
mod event;
mod facts;
mod failed;
mod ids;
mod list;
mod memory;
mod mentions;
mod moment;
mod number;
mod places;
mod policy;
mod push_item;
mod request;
mod row;
mod same;
mod settings;
#[cfg(test)]
mod tests;
mod text;
mod trigger;

pub use ascending::{ascending_groups, ascending_messages, ascending_users};
pub use counts::Counts;
pub use deal::{Deal, Outcome, QueueId, UserVerdict, Verdict};
pub use duplicate::{Duplicate, duplicate_all};
pub use entry::{Conversation, Entry, Item};
pub use event::{Event, Stamped};
pub use facts::Facts;
pub use failed::Failed;
pub use ids::{ChannelId, DealNo, EntryNo, GroupId, MessageId, UserId};
pub use list::List;
pub use memory::OutOfMemory;
pub use mentions::{GroupName, Mentions, UserName};
pub use moment::Moment;
pub use number::number_of;
pub use places::change_all;
pub use policy::{Policy, Specific, SpecificChange};
pub use push_item::PushItem;
pub use request::{Answer, Refusal, Request};
pub use row::{Cause, Row, RowChange, RowKey, Stage};
pub use same::Same;
pub use settings::{SettingChange, Settings};
pub use text::Text;
pub use trigger::{Trigger, Way};
