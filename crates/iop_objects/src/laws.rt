//! Facts about the definitions that no call computes. Each is the contract of a function that does
//! nothing.

ghost use Rattle.iop_objects.specs.Laws.{ObjectsKeepApart, WaitersLeaveRoom, WaitersKeepOrder};
ghost use Rattle.iop_objects.specs.Restoring.{ObjectsAreRestored, ObjectsStayRestorable};

/// Each call changes the object of one id alone; what a wait, a take, a drop or a requeue changes
/// of it is its waiters. Ids rise, and that of an object that was deleted is never given again.
pub fn objects_keep_apart<A, W>()
    ensures { ObjectsKeepApart A W }
{}

/// Where no more threads live than can wait, and each waits once at most, there is room for one
/// that does not wait.
pub fn waiters_leave_room<A, W>()
    ensures { WaitersLeaveRoom A W }
{}

/// Where a thread waits no more the others keep their order. With another priority it waits behind
/// all others where they are chosen by priority, and else where it waited.
pub fn waiters_keep_order<A, W>()
    ensures { WaitersKeepOrder A W }
{}

/// The objects of a table in which no more threads wait than can, with those that wait for them, can
/// all be put back into a table of none, in their order, and so can its next id. That gives the table
/// again.
pub fn objects_are_restored<A, W>()
    ensures { ObjectsAreRestored A W }
{}

/// A table of none can be put back, and each call leaves one that can, of one that can: ids rise, and
/// no more threads wait than can, where there is room for each one that begins to.
pub fn objects_stay_restorable<A, W>()
    ensures { ObjectsStayRestorable A W }
{}
