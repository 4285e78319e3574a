/// How a number is written.
#[derive(Clone, Copy, Debug, PartialEq, Eq)]
pub(crate) enum Notation {
    /// In decimal, as a signed number.
    Signed,
    /// In decimal.
    Unsigned,
    /// In octal.
    Octal,
    /// In hexadecimal, in lower case.
    LowerHex,
    /// In hexadecimal, in upper case.
    UpperHex,
    /// In eight hexadecimal digits, in lower case.
    Pointer,
}
