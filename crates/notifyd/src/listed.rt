//! The lists of numbers in a line.
ghost use Rattle.std.specs.Prelude.{◌≡◌, ℕ, List, [], is_some, IfOk, MatchOption, Some, None};
ghost use Rattle.std.specs.List.{list_all};
ghost use Rattle.chat_model.specs.Number.{is_number};
ghost use Rattle.notifyd.specs.Field.{list_of, numbers_of, parts_of};
ghost use Rattle.notifyd.specs.Listed.{users_of, messages_of};

use chat_model::{List, MessageId, OutOfMemory, UserId, number_of};
use std::alloc::Global;
use std::marker::Model;

/// The bytes of a list, which contracts see as its numbers, in its order and with its repeats.
#[derive(Drop)]
pub struct Listed<'a> {
    bytes: &'a [u8],
}

impl<'a> Model for Listed<'a> {
    ghost use Rattle.std.specs.Prelude.{◌≡◌, ℕ, List, [], true, is_some};
    ghost use Rattle.std.specs.Option.{unwrap_or};
    ghost use Rattle.notifyd.specs.Field.{list_of};

    ghost Value = { List ℕ };

    ghost view = { λ l. unwrap_or (list_of l.bytes.now) [] };

    ghost invariant = { λ l. is_some (list_of l.bytes.now) ≡ true };
}

impl<'a> Listed<'a> {
    /// The list that a word is, where it is one.
    pub fn of(word: &'a [u8]) -> Option<Listed<'a>>
        ensures { result ≡ list_of word.now }
    {
        if is_list(word) {
            Some(Listed { bytes: word })
        } else {
            None
        }
    }

    /// The list of at least one number that a word is, where it is one.
    pub fn of_numbers(word: &'a [u8]) -> Option<Listed<'a>>
        ensures { result ≡ numbers_of word.now }
    {
        if word == b"-".as_slice() {
            None
        } else {
            Listed::of(word)
        }
    }

    /// Takes the memory for a list of users.
    pub fn users(&self, alloc: Global) -> Result<List<UserId>, OutOfMemory>
        ensures { IfOk result (λ users. users ≡ users_of self.now) }
    {
        let word = self.bytes;
        if word == b"-".as_slice() {
            return Ok(List::new(alloc));
        }
        let users: Vec<UserId> = word
            .split(|byte| *byte == b',')
            .filter_map(|part| Some(UserId(number_of(part)?)))
            .collect(alloc)?;
        Ok(List::from(users))
    }

    /// Takes the memory for a list of messages.
    pub fn messages(&self, alloc: Global) -> Result<List<MessageId>, OutOfMemory>
        ensures { IfOk result (λ messages. messages ≡ messages_of self.now) }
    {
        let word = self.bytes;
        if word == b"-".as_slice() {
            return Ok(List::new(alloc));
        }
        let messages: Vec<MessageId> = word
            .split(|byte| *byte == b',')
            .filter_map(|part| Some(MessageId(number_of(part)?)))
            .collect(alloc)?;
        Ok(List::from(messages))
    }
}

#[tactic(auto, unfolding(crate::specs::Field::list_of))]
fn is_list(word: &[u8]) -> bool
    ensures { result ≡ is_some (list_of word.now) }
{
    word == b"-".as_slice() || are_numbers(word)
}

// Whether numbers alone stand between the commas.
fn are_numbers(word: &[u8]) -> bool
    ensures { result ≡ list_all is_number (parts_of word.now) }
{
    word.split(|byte| *byte == b',')
        .all(|part| number_of(part).is_some())
}
