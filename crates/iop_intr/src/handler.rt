/// The handler of an interrupt line.
#[derive(Clone, Copy, Debug, PartialEq, Eq, Drop)]
pub struct Handler {
    /// The guest address of its first instruction.
    pub address: u32,
    /// What it is handed in `$a0`.
    pub arg: u32,
    /// The `$gp` of the one who registered it.
    pub gp: u32,
}
