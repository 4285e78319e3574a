/// An interrupt line that is raised, or lowered.
#[derive(Clone, Copy, Debug, PartialEq, Eq)]
pub struct Raise {
    /// The moment, in ticks.
    pub at: u64,
    /// The number of the line.
    pub line: u8,
    /// Whether it is raised; else it is lowered.
    pub up: bool,
}
