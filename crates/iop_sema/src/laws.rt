//! Facts about the definitions that no call computes. Each is the contract of a function that does
//! nothing.

ghost use Rattle.iop_sema.specs.Laws.{SemaphoresCount};
ghost use Rattle.iop_sema.specs.Restoring.{SemaphoresAreRestored, SemaphoresStayRestorable};

/// A signal wakes one thread where one waits, or raises the count by one where none waits and it
/// is below its most, and never both; it is refused exactly where none waits and the count is at
/// its most. One is taken exactly where the count is not 0, and lowers it by one. A count stays at
/// most its most. A semaphore that is made has the count that it is made with, and no thread waits
/// for it.
pub fn semaphores_count()
    ensures { SemaphoresCount }
{}

/// The semaphores of a table whose ids rise, with those that wait for them, can all be put back
/// into a table of none, in their order, and so can its next id. That gives the table again.
pub fn semaphores_are_restored()
    ensures { SemaphoresAreRestored }
{}

/// A table of none can be put back, and each call leaves one that can, of one that can, where there
/// is room for each thread that begins to wait.
pub fn semaphores_stay_restorable()
    ensures { SemaphoresStayRestorable }
{}
