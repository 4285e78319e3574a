use crate::cell::Cell;

/// What a line asks for.
#[derive(Drop)]
pub(crate) enum Statement<'a> {
    /// A label of this name stands here.
    Labels(&'a [u8]),
    /// The module's name.
    Names(&'a [u8]),
    /// The module's version.
    Versions(u16),
    /// The label where it is entered.
    Enters(&'a [u8]),
    /// How many zero bytes follow the data.
    Reserves(u32),
    /// What follows is text.
    BeginsText,
    /// What follows is data.
    BeginsData,
    /// An import table begins, with a library's name and version.
    BeginsImport([u8; 8], u16),
    /// An export table begins, with a library's name and version.
    BeginsExport([u8; 8], u16),
    /// The stub of a function, with its label and its index.
    Stubs(&'a [u8], u16),
    /// The import table ends.
    EndsImport,
    /// The export table ends.
    EndsExport,
    /// Words of the section.
    Fills(Vec<Cell<&'a [u8]>>),
}
