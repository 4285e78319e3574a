//! Facts about the definitions that no call computes. Each is the contract of a function that does
//! nothing.

ghost use Rattle.irx_tables.specs.Laws.{TablesFollow, TablesAreAll};

/// What a search finds first, and then what the search from its end finds, are all tables. So the
/// calls of `imports`, the first from the range's own place and each other from the end of the
/// table before, give exactly the tables of the range.
pub fn tables_follow()
    ensures { TablesFollow }
{}

/// The tables of a range stand in order and apart. Each start of the range is that of a table,
/// stands inside one, or does not come before the bad one.
pub fn tables_are_all()
    ensures { TablesAreAll }
{}
