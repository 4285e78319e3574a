//! Facts about the definitions that no call computes. Each is the contract of a function that does
//! nothing.

ghost use Rattle.iop_sysclib.specs.Laws.{FirstsAreFound, LengthsAreOfZeros};
ghost use Rattle.iop_sysclib.specs.Laws.{FirstsDecide, EqualStringsAreZero};
ghost use Rattle.iop_sysclib.specs.Laws.{FirstsOfRangesDecide, FirstsOfStringsDecide};
ghost use Rattle.iop_sysclib.specs.Laws.{FirstsOfFrontsDecide};
ghost use Rattle.iop_sysclib.specs.Laws.{EqualRangesAreZero, EqualFrontsAreZero};
ghost use Rattle.iop_sysclib.specs.Laws.{FirstsOfStringsAreFound, LastsOfStringsAreFound};
ghost use Rattle.iop_sysclib.specs.Laws.{NoneInRangesIsZero, NoneInStringsIsZero};
ghost use Rattle.iop_sysclib.specs.Laws.{StringsEndWithRam, StringsOutsideAreEmpty};
ghost use Rattle.iop_sysclib.specs.NumeralLaws.{NumeralsAreRead, DecimalsAreTold, OctalsAreTold};
ghost use Rattle.iop_sysclib.specs.NumeralLaws.{HexNumeralsAreRead, MagnitudesAreHeld};
ghost use Rattle.iop_sysclib.specs.NumeralLaws.{EndsAreLeft, NoBasesReadNothing};
ghost use Rattle.iop_sysclib.specs.NumeralLaws.{NoDigitsReadNothing};
ghost use Rattle.iop_sysclib.specs.WritingLaws.{WritesAreRead, RangesAreCopied, RangesAreFilled};
ghost use Rattle.iop_sysclib.specs.WritingLaws.{RangesAreCleared, StringsAreCopied};
ghost use Rattle.iop_sysclib.specs.WritingLaws.{StringsAreJoined, ShortStringsAreCopied};
ghost use Rattle.iop_sysclib.specs.WritingLaws.{FrontsAreCopied, TextsAreStored};
ghost use Rattle.iop_sysclib.specs.OutcomeLaws.{OutcomesAreTold};

/// `memchr` answers the address of the least index at which the byte stands.
pub fn firsts_are_found()
    ensures { FirstsAreFound }
{}

/// `strlen` answers the index of the first zero byte.
pub fn lengths_are_of_zeros()
    ensures { LengthsAreOfZeros }
{}

/// Bytes that are equal up to two of which one is less are less: the comparison is -1, and 1 the
/// other way round.
pub fn firsts_decide()
    ensures { FirstsDecide }
{}

/// `strcmp` answers 0 exactly where the strings are equal.
pub fn equal_strings_are_zero()
    ensures { EqualStringsAreZero }
{}

/// `memcmp` of two ranges that are equal up to two bytes of which one is less answers -1, and 1 the
/// other way round.
pub fn firsts_of_ranges_decide()
    ensures { FirstsOfRangesDecide }
{}

/// `strcmp` of two strings with their zero bytes that are equal up to two bytes of which one is
/// less answers -1, and 1 the other way round.
pub fn firsts_of_strings_decide()
    ensures { FirstsOfStringsDecide }
{}

/// `strncmp` of two strings whose fronts are equal up to two bytes of which one is less answers -1,
/// and 1 the other way round. The zero byte that ends a string may be in its front.
pub fn firsts_of_fronts_decide()
    ensures { FirstsOfFrontsDecide }
{}

/// `memcmp` answers 0 exactly where the bytes are equal.
pub fn equal_ranges_are_zero()
    ensures { EqualRangesAreZero }
{}

/// `strncmp` answers 0 exactly where the fronts of the strings with their zero bytes are equal.
pub fn equal_fronts_are_zero()
    ensures { EqualFrontsAreZero }
{}

/// `strchr` answers the address of the least index at which the byte stands in the string with its
/// zero byte.
pub fn firsts_of_strings_are_found()
    ensures { FirstsOfStringsAreFound }
{}

/// `strrchr` answers the address of the greatest such index.
pub fn lasts_of_strings_are_found()
    ensures { LastsOfStringsAreFound }
{}

/// `memchr` answers 0 where the byte stands nowhere in the range.
pub fn none_in_ranges_is_zero()
    ensures { NoneInRangesIsZero }
{}

/// `strchr` and `strrchr` answer 0 where the byte stands nowhere in the string with its zero byte.
pub fn none_in_strings_is_zero()
    ensures { NoneInStringsIsZero }
{}

/// `strlen` answers how many bytes stand up to RAM's end where none of them is zero.
pub fn strings_end_with_ram()
    ensures { StringsEndWithRam }
{}

/// `strlen` answers 0 outside RAM.
pub fn strings_outside_are_empty()
    ensures { StringsOutsideAreEmpty }
{}

/// `strtol` reads of white space, a sign or none, and digits of a base the number that they write,
/// held at -2^31 and 2^31 - 1, and tells where its digits end.
pub fn numerals_are_read()
    ensures { NumeralsAreRead }
{}

/// With base 0 `strtol` reads a number that does not begin with `0` as in base 10.
pub fn decimals_are_told()
    ensures { DecimalsAreTold }
{}

/// With base 0 `strtol` reads a number that begins with `0`, but not with a prefix of base 16, as in
/// base 8.
pub fn octals_are_told()
    ensures { OctalsAreTold }
{}

/// `strtol` reads with base 0 or 16 of a number with `0x` or `0X` the one that the digits behind it
/// write, and tells where they end.
pub fn hex_numerals_are_read()
    ensures { HexNumeralsAreRead }
{}

/// A number beyond 2^31 - 1 is held at 0x7FFFFFFF, and one below -2^31 at 0x80000000; every other
/// one is itself.
pub fn magnitudes_are_held()
    ensures { MagnitudesAreHeld }
{}

/// `strtol` leaves at `end` the address behind the last digit.
pub fn ends_are_left()
    ensures { EndsAreLeft }
{}

/// With a base that numbers do not have `strtol` answers 0 and leaves `at` at `end`.
pub fn no_bases_read_nothing()
    ensures { NoBasesReadNothing }
{}

/// Where no digit stands behind white space and a sign `strtol` answers 0 and leaves `at` at `end`.
pub fn no_digits_read_nothing()
    ensures { NoDigitsReadNothing }
{}

/// What a call writes reads back at its range, and every other byte of RAM is as it was.
pub fn writes_are_read()
    ensures { WritesAreRead }
{}

/// After `memcpy` and `memmove` the range at `to` is what the range at `from` was.
pub fn ranges_are_copied()
    ensures { RangesAreCopied }
{}

/// After `memset` each byte of the range is the low byte of the word.
pub fn ranges_are_filled()
    ensures { RangesAreFilled }
{}

/// After `bzero` each byte of the range is zero.
pub fn ranges_are_cleared()
    ensures { RangesAreCleared }
{}

/// After `strcpy` the string at `to` is the one that stood at `from`.
pub fn strings_are_copied()
    ensures { StringsAreCopied }
{}

/// After `strcat` the string at `to` is the one that stood there, and then the one that stood at
/// `from`.
pub fn strings_are_joined()
    ensures { StringsAreJoined }
{}

/// After `strncpy` of a string that is shorter than the limit the string at `to` is the one that
/// stood at `from`.
pub fn short_strings_are_copied()
    ensures { ShortStringsAreCopied }
{}

/// After `strncpy` the range at `to` is the string that stood at `from`, cut at the limit, or with
/// zeros up to it.
pub fn fronts_are_copied()
    ensures { FrontsAreCopied }
{}

/// After `sprintf` the bytes of the text and a zero stand at `to`.
pub fn texts_are_stored()
    ensures { TextsAreStored }
{}

/// Each service faults exactly where a range that it reads by its length or writes has a byte and is
/// not wholly in RAM, or the `end` of `strtol` is misaligned. Else it answers its word: those that
/// only look at memory write nothing, the others the range at `$a0`, `strcat` at the end of the
/// string there, and `strtol` the word at `end`, where that is not 0.
pub fn outcomes_are_told()
    ensures { OutcomesAreTold }
{}
