//! Laws of the forms: each is the contract of a function that does nothing.

ghost use Rattle.iop_saved_threads.specs.Laws.{FormsAreLawful, ThreadsArePutBack, ThreadsTellWhatWasPut};

/// What was spelled is read, whatever follows, and what was read is what is spelled: of processors,
/// of those that a thread keeps, of threads, of lists of threads that may be live together, and of
/// ready ones.
pub fn forms_are_lawful()
    ensures { FormsAreLawful }
{}

/// To put threads back one after the other, and then the ready ones, is what iop_thread says of it.
pub fn threads_are_put_back()
    ensures { ThreadsArePutBack }
{}

/// Where threads, and then ready ones, were put back into a table of none, they are its threads and
/// its ready ones, in the order in which both are written; and it is the thread in the state of
/// running that runs, or none does.
pub fn threads_tell_what_was_put()
    ensures { ThreadsTellWhatWasPut }
{}
