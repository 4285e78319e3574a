/// What the guest did that stops the machine. An instruction that faults changes nothing and is not
/// counted.
#[derive(Clone, Copy, Debug, PartialEq, Eq)]
pub enum GuestFault {
    /// An address is outside RAM or not a multiple of the width read or written.
    Address,
    /// A signed sum or difference does not fit 32 bits.
    Overflow,
    /// The word is no instruction of the table.
    Reserved,
    /// A `break` instruction.
    Break,
    /// A branch or jump stands in a delay slot.
    BranchInSlot,
    /// A `syscall` whose code has no meaning at its place.
    Service,
}
