//! What becomes of a push at its turn.
ghost use Rattle.std.specs.Prelude.{◌≡◌};
ghost use Rattle.push_state.specs.Judged.{judged};

use chat_model::{Cause, Settings};

/// Whether a push is handed over at its turn, or dropped and why.
#[derive(Clone, Copy, Debug, PartialEq, Eq)]
pub enum Judged {
    Hand,
    Drop(Cause),
}

/// Judges a push by what bars it and by its user's settings. What bars it counts first; else it is dropped where the user
/// wants no pushes. It takes no memory.
pub fn judge(bar: Option<Cause>, settings: &Settings) -> Judged
    ensures { result ≡ judged bar settings.now }
{
    match bar {
        Some(cause) => Judged::Drop(cause),
        None if settings.push_mentions || settings.push_online => Judged::Hand,
        None => Judged::Drop(Cause::SwitchedOff),
    }
}
