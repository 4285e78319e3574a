//! Laws of saved objects: each is the contract of a function that does nothing.

ghost use Rattle.std.specs.Prelude.{ℕ, Option};
ghost use Rattle.iop_saved_objects.specs.Laws.{FormsAreLawful, TablesComeBack, TablesTellWhatWasPut};

/// What was spelled is read, whatever follows, and what was read is what is spelled: of semaphores,
/// event flags, mailboxes and pools that a table takes, where threads have some priorities.
pub fn forms_are_lawful()
    ensures { (priorities : ℕ → Option ℕ) → FormsAreLawful priorities }
{}

/// What was saved of a table that can be restored, in which each thread waits with the priority
/// that it has, can be put back into a table of none, and so can its next id. That gives the table
/// again.
pub fn tables_come_back()
    ensures { (priorities : ℕ → Option ℕ) → TablesComeBack priorities }
{}

/// Where a list of semaphores, event flags, mailboxes or pools was put back into a table of none,
/// what would be saved of that table is the list, and each thread waits in it with the priority
/// that it has. So a file that was read is the one that would be written.
pub fn tables_tell_what_was_put()
    ensures { (priorities : ℕ → Option ℕ) → TablesTellWhatWasPut priorities }
{}
