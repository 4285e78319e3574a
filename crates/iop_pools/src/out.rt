use crate::range::Range;

/// A range that is out, and the pool that it is of.
#[derive(Clone, Copy, Debug, Drop, PartialEq, Eq)]
pub struct Out {
    /// The id of the pool.
    pub pool: u32,
    /// The range.
    pub range: Range,
}
