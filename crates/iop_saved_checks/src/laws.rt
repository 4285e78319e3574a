//! Laws of kernels that agree: each is the contract of a function that does nothing.

ghost use Rattle.iop_saved_checks.specs.Laws.{AgreeingCoresAreSound, AgreeingKernelsAreSound, CoresInRunsAgree, SoundKernelsAgree};

/// Where the tables of a kernel agree, each sound by itself, threads and those that wait are in
/// their places, no wait is overdue, another thread may run where none does, each that waits has a
/// place for what it is told, and no thread is to be dispatched.
pub fn agreeing_kernels_are_sound()
    ensures { AgreeingKernelsAreSound }
{}

/// The tables of each kernel that is so agree, where its pools are as they can be put back.
pub fn sound_kernels_agree()
    ensures { SoundKernelsAgree }
{}

/// Where a kernel and its processor can be put back and are steady, as all that was read and put
/// back is, and the tables agree, all holds of them that a run keeps.
pub fn agreeing_cores_are_sound()
    ensures { AgreeingCoresAreSound }
{}

/// The tables of a kernel that can be put back agree wherever a run stands in which no thread is to
/// be dispatched.
pub fn cores_in_runs_agree()
    ensures { CoresInRunsAgree }
{}
