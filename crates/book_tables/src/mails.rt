//! When mails are due.
ghost use Rattle.std.specs.Prelude.{◌≡◌, List, option_map};
ghost use Rattle.chat_model.specs.declared.event.Stamped.{Stamped};
ghost use Rattle.notice_ledger.specs.Due.{due, first_due};
ghost use Rattle.book_tables.specs.Tables.{found_due};

use crate::tables::Tables;
use chat_model::UserId;
use mail_batches::DueUser;

impl Tables {
    ghost use Rattle.book_tables.specs.Tables.{StandsFor};

    /// When the user's mails are due, in seconds since 1970-01-01T00:00:00Z. It takes no memory.
    pub fn due(&self, user: UserId) -> Option<u64>
        ensures { (j : List Stamped) → StandsFor self.now j → result ≡ due j user }
    {
        self.batches.due(user)
    }

    /// The user with the least due moment, ties by the lower number. It takes no memory.
    pub fn first_due(&self) -> Option<DueUser>
        ensures { (j : List Stamped) → StandsFor self.now j → option_map found_due result ≡ first_due j }
    {
        self.batches.first_due()
    }
}
