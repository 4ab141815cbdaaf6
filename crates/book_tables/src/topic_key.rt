//! A topic of a channel, as what users set is kept by it.
ghost use Rattle.std.specs.Prelude.{◌≡◌, ◌++◌, fold, OnOk, IfOk};
ghost use Rattle.std.specs.Cmp.{partial_equiv_from_equiv};
ghost use Rattle.std.specs.Hash as fed;
ghost use Rattle.book_tables.specs.TopicKeys.{same_topic, same_topic-equiv, lowered_writes, topic_writes, topic_writes-alike};

use chat_model::{ChannelId, OutOfMemory, Text};
use std::hash::{Hash, Hasher};

/// A topic of a channel. Topics of a channel that differ in the case of ASCII letters alone are one topic.
#[derive(Debug, Drop)]
pub struct TopicKey {
    pub channel: ChannelId,
    pub topic: Text,
}

impl TopicKey {
    /// The key of the topic of the channel.
    pub fn new(channel: ChannelId, topic: &Text) -> Result<TopicKey, OutOfMemory>
        ensures { IfOk result (λ key. key ≡ record { channel = channel; topic = topic.now }) }
    {
        Ok(TopicKey {
            channel,
            topic: topic.copy()?,
        })
    }
}

/// Hashes the text with its ASCII letters lowered.
fn hash_lowered<H: Hasher>(text: &str, state: &mut H)
    ensures { state.new ≡ fold H.write state.old (lowered_writes text.now) }
{
    let bytes = text.as_bytes();
    for byte in bytes {
        state.write_u8(byte.to_ascii_lowercase());
    }
}

impl PartialEq for TopicKey {
    ghost eq = { same_topic };

    ghost laws = { partial_equiv_from_equiv same_topic-equiv };

    fn eq(&self, other: &TopicKey) -> bool {
        let topic = self.topic.as_str();
        self.channel.0 == other.channel.0 && topic.eq_ignore_ascii_case(other.topic.as_str())
    }
}

impl Eq for TopicKey {
    ghost laws = { same_topic-equiv };
}

impl Hash for TopicKey {
    ghost hash_input = { topic_writes };

    ghost respects_eq = { topic_writes-alike.fed };

    fn hash<H: Hasher>(&self, state: &mut H) {
        state.write_u64(self.channel.0);
        hash_lowered(self.topic.as_str(), state);
    }
}
