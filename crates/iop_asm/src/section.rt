/// A part of the image that statements fill.
#[derive(Clone, Copy, Debug, PartialEq, Eq)]
pub(crate) enum Section {
    /// Instructions and tables.
    Text,
    /// What follows the text.
    Data,
}

/// A table that has begun and not ended.
#[derive(Clone, Copy, Debug, PartialEq, Eq)]
pub(crate) enum OpenTable {
    /// An import table.
    Import,
    /// An export table.
    Export,
}
