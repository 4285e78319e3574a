//! Facts about the definitions that no call computes. Each is the contract of a function that does
//! nothing.

ghost use Rattle.iop_event.specs.Laws.{FlagsAreMet};
ghost use Rattle.iop_event.specs.Restoring.{EventFlagsAreRestored, EventFlagsStayRestorable};

/// The threads whose conditions hold, taken one after the other, are those that a walk over all of
/// them in order meets, each with the pattern as it then stands. After it no condition of a thread
/// that waits on holds. Bits that are set are added to the pattern; bits that are not in a mask are
/// cleared, and all others stay; all threads wait on.
pub fn flags_are_met()
    ensures { FlagsAreMet }
{}

/// The event flags of a table whose ids rise, with those that wait for them, can all be put back
/// into a table of none, in their order, and so can its next id. That gives the table again.
pub fn event_flags_are_restored()
    ensures { EventFlagsAreRestored }
{}

/// A table of none can be put back, and each call leaves one that can, of one that can, where there
/// is room for each thread that begins to wait, it asks for a bit, and none waits that is alone.
pub fn event_flags_stay_restorable()
    ensures { EventFlagsStayRestorable }
{}
