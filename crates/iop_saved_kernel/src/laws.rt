//! Laws of the kernel's part of a snapshot: each is the contract of a function that does nothing
//! but call those by whose contracts it is proved.

ghost use Rattle.iop_saved_kernel.specs.Laws.{CoresAreRead, CoresComeBack, CoresTellWhatWasPut, PartsAreLawful};

use iop_event::laws::event_flags_stay_restorable;
use iop_mbx::laws::mailboxes_stay_restorable;
use iop_pools::laws::pools_stay_regular;
use iop_sema::laws::semaphores_stay_restorable;
use iop_time::laws::numbers_rise;

/// Parts are read as they were written, whatever follows, and nothing else is read as them.
pub fn parts_are_lawful()
    ensures { PartsAreLawful }
{}

/// A kernel and its processor that can be put back come back from their parts, the ready threads by
/// their priorities.
pub fn cores_come_back()
    ensures { CoresComeBack }
{}

/// Where parts were read and put back, what would be written of that kernel and its processor are
/// these parts, so a file that was read is the one that would be written; its ready threads stand
/// by their priorities; and it can be put back again.
pub fn cores_tell_what_was_put()
    ensures { CoresTellWhatWasPut }
{
    semaphores_stay_restorable();
    event_flags_stay_restorable();
    mailboxes_stay_restorable();
    pools_stay_regular();
    numbers_rise();
}

/// The parts of a kernel and its processor that can be put back are read and put back again, where
/// they have room in what is written, and the processor, what threads and a handler keep, and the
/// threads' priorities are as at all times in the program. What was read and put back is so.
pub fn cores_are_read()
    ensures { CoresAreRead }
{}
