/// What was read at the front of a text.
#[derive(Clone, Copy, Debug, PartialEq, Eq)]
pub(crate) struct Reading {
    /// The number, as two's complement.
    pub word: u32,
    /// How many bytes stand before the end of its last digit; 0 where no number was read.
    pub len: usize,
}

impl Reading {
    /// No number.
    pub(crate) const NOTHING: Self = Reading { word: 0, len: 0 };
}
