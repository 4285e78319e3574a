/// Why a file is not a module.
#[derive(Clone, Copy, Debug, PartialEq, Eq)]
pub struct Illegal {
    /// The first rule that is not met, from 1 on.
    pub rule: u8,
    /// The place in the file of the field that breaks it, or the site of a relocation entry.
    pub at: u32,
}
