//! Laws of runs that can be resumed: each is the contract of a function that does nothing but call
//! those by whose contracts it is proved.

ghost use Rattle.iop_resumable_runs.specs.Laws.{ResumableMachinesAreRead, RestoredMachinesAreResumable, RunsBeginResumable, RunsStayResumable, SnapshotsComeBack};

use iop_exec::laws::{loads_arrive, loads_begin};
use iop_saved_checks::laws::{agreeing_cores_are_sound, cores_in_runs_agree};
use iop_saved_machine::laws::{
    machines_are_lawful, machines_are_read, machines_come_back, machines_tell_what_was_put,
};
use iop_thread::laws::tables_stand_in_order;

/// A machine begins so that it can be resumed, where its modules can be left, its lists have room
/// in their counts, the script has one list of words at most for each module and each name, and
/// the names of modules are short.
pub fn runs_begin_resumable()
    ensures { RunsBeginResumable }
{}

/// And it stays so over each of its steps.
pub fn runs_stay_resumable()
    ensures { RunsStayResumable }
{
    loads_begin();
    loads_arrive();
}

/// What a snapshot has of such a machine can be put back, and its processor and its threads are as
/// they are read.
pub fn resumable_machines_are_read()
    ensures { ResumableMachinesAreRead }
{}

/// The snapshot of a machine whose run ended with its budget, where it was written, is one from which
/// that machine is put back, but that its ready threads stand by priority; and what stands for the
/// machine that was put back stands for that machine as it was. So a run that goes on from a snapshot
/// is the rest of one run.
pub fn snapshots_come_back()
    ensures { SnapshotsComeBack }
{
    machines_are_lawful();
    machines_come_back();
    machines_are_read();
    cores_in_runs_agree();
    tables_stand_in_order();
    runs_stay_resumable();
}

/// What is put back from the bytes of a snapshot can be resumed, too: its runs can be saved again.
pub fn restored_machines_are_resumable()
    ensures { RestoredMachinesAreResumable }
{
    machines_are_lawful();
    machines_tell_what_was_put();
    machines_are_read();
    agreeing_cores_are_sound();
}
