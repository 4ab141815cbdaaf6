//! Which messages belong to one conversation.
ghost use Rattle.std.specs.Prelude.{◌≡◌};
ghost use Rattle.std.specs.List.{list_all};
ghost use Rattle.mail_batches.specs.Conversations.{has_user, same_conversation};

use chat_model::{Conversation, UserId};

/// Whether two conversations are the same: by the channel and the topic without ASCII case, or by the sender and the set
/// of users of a direct message.
pub fn is_same(conversation: &Conversation, other: &Conversation) -> bool
    ensures { result ≡ same_conversation conversation.now other.now }
{
    match (conversation, other) {
        (
            Conversation::Channel { channel, topic, .. },
            Conversation::Channel {
                channel: other_channel,
                topic: other_topic,
                ..
            },
        ) => {
            channel.0 == other_channel.0
                && topic.as_str().eq_ignore_ascii_case(other_topic.as_str())
        }
        (
            Conversation::Direct { users, sender },
            Conversation::Direct {
                users: other_users,
                sender: other_sender,
            },
        ) => {
            sender.0 == other_sender.0
                && are_among(users.as_slice(), other_users.as_slice())
                && are_among(other_users.as_slice(), users.as_slice())
        }
        _ => false,
    }
}

/// Whether each of the users is one of the others.
fn are_among(users: &[UserId], others: &[UserId]) -> bool
    ensures { result ≡ list_all (has_user others.now) users.now }
{
    users.iter().all(|user| is_among(*user, others))
}

/// Whether the user is one of the others.
fn is_among(user: UserId, others: &[UserId]) -> bool
    ensures { result ≡ has_user others.now user }
{
    others.iter().any(|other| other.0 == user.0)
}
