//! Facts about the definitions that no call computes. Each is the contract of a function that does
//! nothing.

ghost use Rattle.irx_build.specs.Laws.{FilesAreParsed, EntriesAreRead};
ghost use Rattle.irx_build.specs.Moving.{WordsMove};

/// The file of a unit that is not refused is an IRX file, and its parts are the unit's.
pub fn files_are_parsed()
    ensures { FilesAreParsed }
{}

/// The relocation entries of a file are read back as the unit's sites and types, in order.
pub fn entries_are_read()
    ensures { EntriesAreRead }
{}

/// A word that is assembled for address 0 and then relocated for a base is the word that is
/// assembled for the base: of an address, of a jump, and of the halves of an address.
pub fn words_move()
    ensures { WordsMove }
{}
