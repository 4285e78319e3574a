ghost use Rattle.iop_base.specs.Numbers.{sign_extended};
ghost use Rattle.std.specs.Prelude.{◌≡◌};

/// Extends the sign of an immediate to a word.
///
/// By casts, which the loop over instructions executes measurably faster than the comparison of
/// `sign_extended`; that is for numbers whose type does not say that they have 16 bits.
pub fn signed_immediate(imm: u16) -> u32
    ensures { result ≡ sign_extended 16 imm }
{
    i32::from(imm.cast_signed()).cast_unsigned()
}
