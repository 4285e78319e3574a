//! Facts about the definitions that no call computes. Each is the contract of a function that does
//! nothing.

ghost use Rattle.iop_mbx.specs.Laws.{MailboxesKeep};
ghost use Rattle.iop_mbx.specs.Restoring.{MailboxesAreRestored, MailboxesStayRestorable};

/// A message is sent exactly where there is room, and is queued behind all others with its
/// priority. One is received exactly where there is one; all others stay. By arrival it is the
/// first of them, by priority the first among those of the least number. A waiter that is taken is
/// the next one, and the mailbox stays as it was.
pub fn mailboxes_keep()
    ensures { MailboxesKeep }
{}

/// The mailboxes of a table whose ids rise, with those that wait for them and with their messages,
/// can all be put back into a table of none, in their order, and so can its next id. That gives the
/// table again.
pub fn mailboxes_are_restored()
    ensures { MailboxesAreRestored }
{}

/// A table of none can be put back, and each call leaves one that can, of one that can, where there
/// is room for each thread that begins to wait, and each message has a priority that it can have.
pub fn mailboxes_stay_restorable()
    ensures { MailboxesStayRestorable }
{}
