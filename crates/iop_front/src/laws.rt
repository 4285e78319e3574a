//! Facts about the definitions that no call computes. Each is the contract of a function that does
//! nothing but call those by whose contracts it is proved.

ghost use Rattle.iop_front.specs.Headline.{Headline};

use iop_machine::laws;

/// For all words that are a command whose run begins, and files of which none is too long and whose
/// script is good, the outcome that `iop_main` promises is that of one run: from the machine's
/// beginning with these modules and this script to its end. So it is of the files that a command
/// has read, also where the host's files do not tell what they are. In the run a module links
/// exactly where each of its import tables finds a registered library of its name and major
/// version, each live stub that is executed goes to its function, each switch runs the first ready
/// thread of the best priority, and the other laws of states and steps hold (`HoldsAfter`), but for
/// those on the kernel's area and on what a module begins with.
///
/// For all bytes that are a machine's snapshot, the outcome of a command that goes on from them is
/// that of the run from this machine. It stays a machine, and what is said of each state of a
/// machine holds in it (`HoldsIn`); the laws of runs from the beginning are not said of it.
pub fn headline()
    ensures { Headline }
{
    laws::events_change_their_lines();
    laws::next_coming_is_least();
    laws::restored_machines_are_machines();
    laws::running_threads_were_taken();
    laws::runs_are_awake();
    laws::runs_are_computed();
    laws::runs_are_counted();
    laws::runs_are_delivered();
    laws::runs_are_on_time();
    laws::runs_are_strict();
    laws::runs_begin_as_machines();
    laws::runs_end();
    laws::runs_keep_events();
    laws::runs_stay_machines();
    laws::runs_stay_sound();
    laws::runs_switch_by_dispatch();
    laws::runs_tell_stubs();
    laws::steps_keep_objects();
    laws::steps_take_their_events();
    laws::stubs_are_followed();
    laws::stubs_leave_with_their_line();
}
