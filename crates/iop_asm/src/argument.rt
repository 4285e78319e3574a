use crate::value::Value;
use iop_isa::Operand;

/// An operand of an instruction with its value.
#[derive(Clone, Copy)]
pub(crate) struct Argument<'a> {
    /// The operand.
    pub operand: Operand,
    /// What it says.
    pub value: Value<'a>,
}
