//! Whether the values of operands fit their fields.

ghost use Rattle.std.specs.Prelude.{◌≡◌};
ghost use Rattle.std.specs.List.{list_all};
ghost use Rattle.iop_asm.specs.Operands.{operand_fits, value_fits};
ghost use Rattle.iop_asm.specs.Values.{view, arguments};

use crate::argument::Argument;
use crate::value::Value;
use iop_isa::Operand;

/// Says whether the values of all these operands fit their fields.
pub(crate) fn all_fit(read: &[Argument<'_>]) -> bool
    ensures { result ≡ list_all operand_fits (arguments read.now) }
{
    read.iter().all(value_fits)
}

/// Says whether the value of an operand fits its field.
fn value_fits(argument: &Argument<'_>) -> bool
    ensures { result ≡ value_fits argument.now.operand (view argument.now.value) }
{
    let Value::Numeric(number) = argument.value else {
        return true;
    };
    match argument.operand {
        Operand::Sa => number.lies_within(0, 31),
        Operand::Code => number.lies_within(0, 0xF_FFFF),
        Operand::Signed => number.lies_within(0x8000, 0x7FFF),
        Operand::Bits => number.lies_within(0, 0xFFFF),
        _ => false,
    }
}
