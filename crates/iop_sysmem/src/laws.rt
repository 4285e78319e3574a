//! Facts about the definitions that no call computes. Each is the contract of a function that does
//! nothing.

ghost use Rattle.iop_sysmem.specs.Laws.{AllocationsTakePlaces, MostFreeIsMost, AllocationsAreFreed, BlocksArePutBack};

/// An allocation takes the least free place, the greatest, or the one that is named, as its mode
/// says, and none exactly where there is none.
pub fn allocations_take_places()
    ensures { AllocationsTakePlaces }
{}

/// So many bytes are free at one place as `max_free` tells, and nowhere more.
pub fn most_free_is_most()
    ensures { MostFreeIsMost }
{}

/// To free what an allocation took leaves the blocks as they were before it, in a RAM of up to 2^29
/// bytes, where each place is its own address.
pub fn allocations_are_freed()
    ensures { AllocationsAreFreed }
{}

/// The blocks behind the kernel's, put back in their order behind it, are all accepted, and give
/// the blocks again.
pub fn blocks_are_put_back()
    ensures { BlocksArePutBack }
{}
