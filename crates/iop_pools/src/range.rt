/// A range of a pool's memory that is out.
#[derive(Clone, Copy, Debug, Drop, PartialEq, Eq)]
pub struct Range {
    /// The address of its first byte.
    pub start: u32,
    /// How many bytes it has.
    pub size: u32,
}
