//! Facts about the definitions that no call computes. Each is the contract of a function that does
//! nothing.

ghost use Rattle.iop_ready.specs.Laws.{ReadyListsAgree, QueuesHoldOneList};

/// Two lists that stand for one another have the same best thread, and stand for one another after
/// every change. So each implementation of the ready list may be replaced by any other.
pub fn ready_lists_agree()
    ensures { ReadyListsAgree }
{}

/// The lists that queues hold stand for one another, and queues that hold one of them hold each for
/// which it stands. So they stand for a list as a plain list does.
pub fn queues_hold_one_list()
    ensures { QueuesHoldOneList }
{}
