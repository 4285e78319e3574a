//! Laws of the forms, and of scripts that are short: each is the contract of a function that does
//! nothing.

ghost use Rattle.iop_saved_script.specs.Laws.{FormsAreLawful, FittingIsShort, ShortTextsGiveShortScripts};

/// What was spelled is read, whatever follows, and what was read is what is spelled: of events, of
/// words by a module's number and by its name, and of the modules that are left.
pub fn forms_are_lawful()
    ensures { FormsAreLawful }
{}

/// What has a spelling, as all that was read has, is short enough to be written.
pub fn fitting_is_short()
    ensures { FittingIsShort }
{}

/// The script of a text of fewer than 2^32 - 1 bytes is short enough to be written: each of its
/// lists, and each list of words in them, has fewer than 2^32 items, and each word and each name
/// fewer than 2^32 bytes.
pub fn short_texts_give_short_scripts()
    ensures { ShortTextsGiveShortScripts }
{}
