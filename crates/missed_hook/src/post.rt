//! Where outcomes are sent to.
ghost use Rattle.std.specs.Prelude.{◌≡◌, List, [], ◌∷◌, ◌++◌, IfErr, OnOk, OnErr};
ghost use Rattle.chat_model.specs.declared.deal.Outcome.{Outcome};
ghost use Rattle.missed_hook.specs.Orderly.{IsOrderly};

use chat_model::Outcome;

/// The end of a pipe at which outcomes are sent.
pub trait Post {
    // the outcomes that were sent, the first one first
    ghost sent: { Self → List Outcome };

    // of these the outcomes that were taken from this same value
    ghost taken: { Self → List Outcome };

    /// Sends an outcome. Want of memory hands it back.
    fn post(&mut self, outcome: Outcome) -> Result<(), Outcome>
        requires orderly { IsOrderly (sent self.old ++ outcome ∷ []) }
        ensures ok { OnOk result (sent self.new ≡ sent self.old ++ outcome ∷ []) }
        ensures back { IfErr result (λ back. back ≡ outcome) }
        ensures err { OnErr result (sent self.new ≡ sent self.old) }
        ensures taken { taken self.new ≡ taken self.old };
}

/// A law: the front of an orderly list of outcomes is orderly.
pub fn front_is_orderly()
    ensures { (front rest : List Outcome) → IsOrderly (front ++ rest) → IsOrderly front }
{}
