//! Where outcomes are taken from.
ghost use Rattle.std.specs.Prelude.{List, Option, ◌≡◌, ◌++◌};
ghost use Rattle.std.specs.Option.{option_to_list};
ghost use Rattle.chat_model.specs.declared.deal.Outcome.{Outcome};

use chat_model::Outcome;

/// The end of a pipe at which outcomes are taken.
pub trait Take {
    // the outcomes that were taken, the first one first
    ghost taken: { Self → List Outcome };

    // what a take says of the pipe before, of its answer and of the pipe after
    ghost took: { Self → Option Outcome → Self → Type 0 };

    /// Takes the next outcome, if there is one.
    fn take(&mut self) -> Option<Outcome>
        ensures taken { taken self.new ≡ taken self.old ++ option_to_list result }
        ensures took { took self.old result self.new };
}
