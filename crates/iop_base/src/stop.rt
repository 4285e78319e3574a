use crate::guest_fault::GuestFault;

/// Why a run of the machine ends.
#[derive(Clone, Copy, Debug, PartialEq, Eq)]
pub enum Stop {
    /// Nothing is left to do.
    Quiet,
    /// As many instructions as allowed were executed, and one more would be.
    Budget,
    /// A guest fault, and the address of the instruction that faulted.
    Fault(GuestFault, u32),
}
