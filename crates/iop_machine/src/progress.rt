use iop_base::Stop;

/// How far a run got.
#[derive(Clone, Copy, Debug, PartialEq, Eq)]
pub(crate) enum Progress {
    /// It stops here.
    Stopped(Stop),
    /// Further, with so many instructions of its budget left.
    Advanced(u64),
}
