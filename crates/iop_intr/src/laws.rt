//! Facts about the definitions that no call computes. Each is the contract of a function that does
//! nothing.

ghost use Rattle.iop_intr.specs.Laws.{DeliverableIsLowest, RaisedStaysRaised, LoweredStaysLowered, DeliveryChangesOneLine, ZeroDisables, ResultsEnableOrDisable, EachCallChangesOneLine, LinesArePutBack};

/// The line that is deliverable is raised, is enabled and has a handler, and no lower line is so.
/// None is deliverable only where no line is so.
pub fn deliverable_is_lowest()
    ensures { DeliverableIsLowest }
{}

/// To raise a line that is raised changes nothing.
pub fn raised_stays_raised()
    ensures { RaisedStaysRaised }
{}

/// To lower a line that is lowered changes nothing.
pub fn lowered_stays_lowered()
    ensures { LoweredStaysLowered }
{}

/// A line that was delivered is lowered and disabled, and keeps its handler. All other lines are as
/// they were.
pub fn delivery_changes_one_line()
    ensures { DeliveryChangesOneLine }
{}

/// After a handler that gave 0 its line is disabled.
pub fn zero_disables()
    ensures { ZeroDisables }
{}

/// After a handler that gave 0 its line is disabled, and after one that gave another number it is
/// enabled where it has a handler, else as it was. It stays raised or not and keeps its handler,
/// and all other lines are as they were.
pub fn results_enable_or_disable()
    ensures { ResultsEnableOrDisable }
{}

/// A call that answers `OK` changes its line alone, and only in what it is for: `register` gives it
/// the handler, `release` takes it away and disables the line, `enable` and `disable` do that. So
/// do `raise` and `lower`, of which one raises its line and the other lowers it.
pub fn each_call_changes_one_line()
    ensures { EachCallChangesOneLine }
{}

/// All lines put back as others are, whatever they were, are those others.
pub fn lines_are_put_back()
    ensures { LinesArePutBack }
{}
