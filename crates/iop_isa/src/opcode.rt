/// What tells an instruction from the others (MIPS I).
#[derive(Clone, Copy, Debug, PartialEq, Eq)]
pub enum Opcode {
    /// The function, bits 0 to 5, where the opcode field, bits 26 to 31, is 0.
    Special(u32),
    /// The field `rt`, where the opcode field is 1.
    Regimm(u32),
    /// The opcode field, where it is neither.
    Primary(u32),
}
