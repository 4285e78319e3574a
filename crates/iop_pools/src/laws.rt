//! Facts about the definitions that no call computes. Each is the contract of a function that does
//! nothing.

ghost use Rattle.iop_pools.specs.BlockLaws.{BlocksAreUnits};
ghost use Rattle.iop_pools.specs.GivingLaws.{MemoryIsGiven};
ghost use Rattle.iop_pools.specs.Laws.{MemoryIsOut, PoolsAreApart, PoolsChangeOne};
ghost use Rattle.iop_pools.specs.MeetingLaws.{NextIsMet};
ghost use Rattle.iop_pools.specs.RegularLaws.{PoolsStayRegular};
ghost use Rattle.iop_pools.specs.RestoringLaws.{PoolsAreRestored};
ghost use Rattle.iop_pools.specs.TakingLaws.{MemoryIsTaken};

/// The ranges that are out of a pool are pairwise disjoint and inside of it. Memory that is taken
/// was free, and at the least place; none is taken exactly where none is free. What is given back
/// is free. So many bytes as the greatest free range has are free at one place, and more at none.
pub fn pools_are_apart()
    ensures { PoolsAreApart }
{}

/// Memory that is taken is out then, with all that was, and what is given back is not, with all
/// else that was; nothing else of the pool changes. Where none is taken, or none starts there,
/// nothing does. The bytes that are free and those that are out are all of the pool.
pub fn memory_is_out()
    ensures { MemoryIsOut }
{}

/// What is taken of a pool is at the place for its size, and is out then with all that was; nothing
/// else of the pool changes, and the same threads wait. Of a variable pool it is refused exactly
/// where the size is 0 or over the pool's, or has no place; of a fixed pool, of which one unit is
/// taken, where that has no place; and where no pool of the id is live. Nothing changes then.
pub fn memory_is_taken()
    ensures { MemoryIsTaken }
{}

/// A block of a fixed pool that is given back goes to the thread that is next among those that
/// wait, and stays out: the pool is as it was, and all others wait on. Where none waits it is out
/// no more. Memory of a variable pool that is given back is out no more, and the same threads wait.
/// All else that was out stays out, and nothing else of the pool changes. It is refused exactly
/// where none that is out starts at the address, or no pool of the id is live; nothing changes
/// then.
pub fn memory_is_given()
    ensures { MemoryIsGiven }
{}

/// What takes memory of a pool, gives it back or meets a thread changes that pool alone. A block
/// that is given back while a thread waits goes to it, and stays out.
pub fn pools_change_one()
    ensures { PoolsChangeOne }
{}

/// The thread that is met next is the one that is chosen, by priority or by arrival, among those
/// whose size fits. Memory for its size is taken then, and all others wait on, in their order. None
/// is met exactly where the size of none fits, or no pool of the id is live; nothing changes then.
pub fn next_is_met()
    ensures { NextIsMet }
{}

/// The pools of a table whose ids rise, each as one can stand, can all be put back into a table of
/// none: in their order, each with what was out of it, in the order of the places, and those that
/// waited for it, in the order of their arrival. So can its next id. That gives the table again.
pub fn pools_are_restored()
    ensures { PoolsAreRestored }
{}

/// Each range that is out of a fixed pool is one block: of a table of none it is so, and each call
/// keeps it.
pub fn blocks_are_units()
    ensures { BlocksAreUnits }
{}

/// Pools stand as ones can that are put back: of a table of none it is so, and each call keeps it,
/// of those that are made where one may be, and of threads that wait where they may. That a size is
/// rounded up changes neither where it fits nor how many bytes are taken for it.
pub fn pools_stay_regular()
    ensures { PoolsStayRegular }
{}
