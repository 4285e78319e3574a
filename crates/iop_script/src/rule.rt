/// The rules that the lines of a script meet, in the order in which a line is held against them.
/// They are this project's own profile.
#[derive(Clone, Copy, Debug, PartialEq, Eq)]
pub enum Rule {
    /// The first line is `script 1` or `script 2`.
    FirstLine,
    /// Every other line is empty, begins with `#`, or has as its first field `at`, `args`, or in
    /// version 2 `for`.
    Keyword,
    /// An `at` line has four fields.
    FieldCount,
    /// The second field of an `at` line is a tick: a decimal number from 0 to 2^63 - 1, without a
    /// leading zero.
    Tick,
    /// The third field of an `at` line is `line`, or in version 2 `release`.
    Change,
    /// The fourth field of an `at` line is an interrupt line: a decimal number from 0 to 63,
    /// without a leading zero.
    InterruptLine,
    /// The tick of an `at` line is not less than that of the `at` line before it.
    TickOrder,
    /// An `args` or a `for` line has at most 2,048 bytes.
    LineLength,
    /// The second field of an `args` line is a module: a decimal number from 1 to 64, without a
    /// leading zero.
    Module,
    /// The second field of a `for` line is a name: bytes from 0x21 to 0x7E, one at least.
    Name,
    /// An `args` or a `for` line has at most 15 words behind its second field.
    WordCount,
    /// Such a word has bytes from 0x21 to 0x7E, one at least.
    WordBytes,
    /// No `args` line before has the same module.
    ModuleOnce,
    /// No `for` line before has the same name.
    NameOnce,
}
