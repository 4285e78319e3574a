//! Laws of the forms: each is the contract of a function that does nothing.

ghost use Rattle.iop_saved_tables.specs.Laws.{FormsAreLawful, TablesArePutBack, TablesTellWhatWasPut};

/// What was spelled is read, whatever follows, and what was read is what is spelled: of alarms,
/// delays, interrupt lines, blocks, libraries and stubs that a table takes.
pub fn forms_are_lawful()
    ensures { FormsAreLawful }
{}

/// To put alarms, delays, blocks, libraries or stubs back one after the other is what the crate of
/// their table says of it.
pub fn tables_are_put_back()
    ensures { TablesArePutBack }
{}

/// What was put back one after the other, alarms, delays, libraries and stubs, stands in that order
/// behind that which stood there; and blocks, the kernel's first, are all that are then used.
pub fn tables_tell_what_was_put()
    ensures { TablesTellWhatWasPut }
{}
