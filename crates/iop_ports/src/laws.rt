//! Facts about the definitions that no call computes. Each is the contract of a function that does
//! nothing.

ghost use Rattle.iop_ports.specs.Laws.{CreationsComeFirst};

/// Where a file is asked for, and a piece is sent behind it, the number of files asked for rises by
/// one, or stands at its last value, and the faults of both come behind that.
pub fn creations_come_first()
    ensures { CreationsComeFirst }
{}
