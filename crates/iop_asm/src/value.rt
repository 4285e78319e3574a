use crate::number::Number;
use crate::register_number::RegisterNumber;

/// What an operand says.
#[derive(Clone, Copy)]
pub(crate) enum Value<'a> {
    /// A number.
    Numeric(Number),
    /// The register of this number.
    Register(RegisterNumber),
    /// The label of this name.
    Symbol(&'a [u8]),
    /// `%hi` of the label of this name.
    High(&'a [u8]),
    /// `%lo` of the label of this name.
    Low(&'a [u8]),
}
