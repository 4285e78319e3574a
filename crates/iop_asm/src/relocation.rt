/// A relocation entry of a unit.
#[derive(Clone, Copy, Debug, PartialEq, Eq)]
pub struct Relocation {
    /// The place of the word that changes, in bytes from the first of the text.
    pub site: u32,
    /// What it becomes: a type of the System V ABI's MIPS supplement, as `R_MIPS_32` of iop_base.
    pub kind: u8,
}
