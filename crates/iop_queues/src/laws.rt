//! Facts about the definitions that no call computes. Each is the contract of a function that does
//! nothing.

ghost use Rattle.iop_queues.specs.Laws.{QueuesAreChosen};

/// By priority the first item among those of the least number is chosen, as the ready list chooses.
/// The order of a queue is that of the choices, one after the other: none is lost, and items of one
/// priority come in order of their arrival.
pub fn queues_are_chosen<T>()
    ensures { QueuesAreChosen T }
{}
