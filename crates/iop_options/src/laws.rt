//! Facts about the definitions that no call computes. Each is the contract of a function that does
//! nothing.

ghost use Rattle.iop_options.specs.Laws.{CommandsMayBeWrittenOtherwise, SizesAreMebibytes};

/// A command may be written in more than one way. Behind good words, of which none is `--` and the
/// last is no option that waits for its value:
///
/// - an option with its value may stand in front of them;
/// - a value may be the next word, or stand in the option's word behind `=`;
/// - `--` may be left out where no module behind it begins with `-`.
pub fn commands_may_be_written_otherwise()
    ensures { CommandsMayBeWrittenOtherwise }
{}

/// The value of `--ram` is the number of MiB that memory has, and they are 2 where it is left out.
pub fn sizes_are_mebibytes()
    ensures { SizesAreMebibytes }
{}
