//! Facts about the definitions that no call computes. Each is the contract of a function that does
//! nothing.

ghost use Rattle.iop_linker.specs.Laws.{LinkedStubsAreLive, LinkedMemoryIsSound};

/// After linking each new stub is live, and so is each one that was live before. There is no other.
pub fn linked_stubs_are_live()
    ensures { LinkedStubsAreLive }
{}

/// The memory that a successful linking leaves is sound: at each live stub, of before or new, stand
/// its jump and its index, and no two stubs overlap.
pub fn linked_memory_is_sound()
    ensures { LinkedMemoryIsSound }
{}
