//! Facts about the definitions that no call computes. Each is the contract of a function that does
//! nothing.

ghost use Rattle.iop_cblock.specs.Laws.{UnlinkUndoes, PushesPlace, ChangesKeepOthers};

/// A node that is put into a list, at either end or in front of another, and is taken out again
/// leaves all lists as they were.
pub fn unlink_undoes()
    ensures { UnlinkUndoes }
{}

/// A node that is pushed stands in its list: the last of it where it was pushed to the back, and
/// the first of it where to the front. One that is put in front of another has that one behind it.
pub fn pushes_place()
    ensures { PushesPlace }
{}

/// A change of one node leaves all others in their lists, in their order.
pub fn changes_keep_others()
    ensures { ChangesKeepOthers }
{}
