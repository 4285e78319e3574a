//! Laws of whole machines in snapshots: each is the contract of a function that does nothing but
//! call that by whose contract it is proved.

ghost use Rattle.iop_saved_machine.specs.Laws.{MachinesAreLawful, MachinesAreRead, MachinesComeBack, MachinesTellWhatWasPut, PartsAreReadWhereBack};

use iop_saved_kernel::laws::{cores_are_read, cores_tell_what_was_put};

/// The parts of a machine are read as they were written, whatever follows, and nothing else is read
/// as them.
pub fn machines_are_lawful()
    ensures { MachinesAreLawful }
{}

/// A machine that can be put back comes back from its parts, the ready threads by their priorities.
pub fn machines_come_back()
    ensures { MachinesComeBack }
{}

/// Where parts were read and put back, what would be written of that machine are these parts, so a
/// file that was read is the one that would be written; its ready threads stand by their
/// priorities; it can be put back again; and what is still to be loaded and to come has room where
/// it is written.
pub fn machines_tell_what_was_put()
    ensures { MachinesTellWhatWasPut }
{
    cores_tell_what_was_put();
}

/// The parts of a machine that can be put back are read and put back again, where they have room in
/// what is written, and the processor, what threads and a handler keep, and the threads' priorities
/// are as at all times in the program. What was read and put back is so.
pub fn machines_are_read()
    ensures { MachinesAreRead }
{
    cores_are_read();
}

/// Parts can be read exactly where they have a spelling, their processors are steady, those that
/// are kept stand in no delay slot, and all of them can be put back.
pub fn parts_are_read_where_back()
    ensures { PartsAreReadWhereBack }
{}
