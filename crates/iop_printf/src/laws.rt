//! Facts about the definitions that no call computes. Each is the contract of a function that does
//! nothing.

ghost use Rattle.iop_printf.specs.Laws.{TextsAreShort, PlainFormatsStay};
ghost use Rattle.iop_printf.specs.Laws.{ConversionsAreRead, WidthsAreExact, DigitsAreExact};
ghost use Rattle.iop_printf.specs.Laws.{FormatsGoOn, StackFollowsRegisters, NumbersReadBack};
ghost use Rattle.iop_printf.specs.Laws.{SignedAreWritten, HexDigitsAreWritten};

/// No text has more than 4,096 bytes.
pub fn texts_are_short()
    ensures { TextsAreShort }
{}

/// The text of a format without a `%` is the format, cut at 4,096 bytes.
pub fn plain_formats_stay()
    ensures { PlainFormatsStay }
{}

/// What stands before the first `%` of a format is printed as it stands, then the text of the
/// conversion that the `%` begins, then the text of what stands behind the conversion.
pub fn formats_go_on()
    ensures { FormatsGoOn }
{}

/// The words on the stack follow the registers: a text stays where the first of these words stands
/// in one more register, behind the others, and the stack begins one word later.
pub fn stack_follows_registers()
    ensures { StackFollowsRegisters }
{}

/// Flags, a width that does not begin with `0`, a `.` and a precision or neither, sizes and a letter
/// are read as the conversion of just these parts, whatever stands behind them. A width or a
/// precision is the value of its digits, at most 4,096.
pub fn conversions_are_read()
    ensures { ConversionsAreRead }
{}

/// What a letter prints of an argument has the width of its conversion, or is what it prints
/// without a width if that is longer. Spaces fill it up: behind it with `-`, else before it, but for
/// a number of which zeros fill the width.
pub fn widths_are_exact()
    ensures { WidthsAreExact }
{}

/// A number has as many digits as its precision, or as its numeral if that is longer. Zeros fill it
/// up behind its sign, also to its width with flag `0` and neither `-` nor a precision.
pub fn digits_are_exact()
    ensures { DigitsAreExact }
{}

/// The digits of a word are digits of its base, and have its value.
pub fn numbers_read_back()
    ensures { NumbersReadBack }
{}

/// The sign and the digits of a word as a signed number are the decimal text of its value in two's
/// complement.
pub fn signed_are_written()
    ensures { SignedAreWritten }
{}

/// Hexadecimal digits are of the case of their letter, and those of a pointer are eight of lower
/// case.
pub fn hex_digits_are_written()
    ensures { HexDigitsAreWritten }
{}
