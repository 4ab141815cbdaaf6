//! Laws of the definitions. Each is the contract of a function that does nothing.
ghost use Rattle.notice_ledger.specs.Conserved.{RowsConserve};
ghost use Rattle.notice_ledger.specs.Refusals.{RefusalIsLeast, RulesAscend};
ghost use Rattle.notice_ledger.specs.Rows.{RowsAreListed, RowsAscend};

/// The rows of every list of events ascend strictly by table and key, so no key stands twice.
pub fn rows_ascend()
    ensures { RowsAscend }
{}

/// The rows of every list of events are exactly what has a row, each once.
pub fn rows_are_listed()
    ensures { RowsAreListed }
{}

/// In the rows of every list of events no notice is lost and none is doubled.
pub fn rows_conserve()
    ensures { RowsConserve }
{}

/// The rules of a request stand in the order of their refusals' numbers.
pub fn rules_ascend()
    ensures { RulesAscend }
{}

/// A request is refused by the broken rule of the least number.
pub fn refusal_is_least()
    ensures { RefusalIsLeast }
{}
