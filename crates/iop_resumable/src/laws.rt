//! Laws of what can be put back: each is the contract of a function that does nothing.

ghost use Rattle.iop_resumable.specs.Laws.{BeginningIsRegular, CoresCanBeBack, KernelsStayMade, LinesStay, ObjectsStayRegular, ServicesStayRegular, StepsStayRegular};

/// Whatever is served, the objects of all kinds are as they can be put back again.
pub fn objects_stay_regular()
    ensures { ObjectsStayRegular }
{}

/// Whatever is served, the kernel is as it can be put back again, with its processor.
pub fn services_stay_regular()
    ensures { ServicesStayRegular }
{}

/// A kernel that is so, in which threads and those that wait are in their places, can be put back,
/// and read from what is written of it.
pub fn cores_can_be_back()
    ensures { CoresCanBeBack }
{}

/// At first a kernel is so.
pub fn beginning_is_regular()
    ensures { BeginningIsRegular }
{}

/// It stays so over deliveries, dispatches and all else that a machine does beside its services.
pub fn steps_stay_regular()
    ensures { StepsStayRegular }
{}

/// All interrupt lines stay, which deliveries ask for.
pub fn lines_stay()
    ensures { LinesStay }
{}

/// Threads and pools stay such as the calls of a guest make them, whatever a machine does.
pub fn kernels_stay_made()
    ensures { KernelsStayMade }
{}
