//! Facts about the definitions that no call computes. Each is the contract of a function that does
//! nothing.

ghost use Rattle.iop_thread.specs.Laws.{OperationsKeepPlaces, OperationsKeepStraight, OperationsKeepSteady, OperationsKeepSleepers, DispatchIsStrict};
ghost use Rattle.iop_thread.specs.Waits.{OperationsMoveWaits};
ghost use Rattle.iop_thread.specs.Changes.{OperationsChangeOne};
ghost use Rattle.iop_thread.specs.Waking.{WakingEndsOneWait};
ghost use Rattle.iop_thread.specs.FirstRegisters.{FirstRegistersAreRead};
ghost use Rattle.iop_thread.specs.Reading.{ThreadsAreReadInOrder};
ghost use Rattle.iop_thread.specs.Ordering.{ReadyThreadsAreReadInOrder, ThreadsAreRestored, TablesStandInOrder};

/// Each thread that is ready is once in the ready list, which has no other, and the one that runs
/// is in the state of running. The ids of the live threads rise, from the loader's on, and are below
/// the next one; no more are live than can. So it is at first, and after each operation.
pub fn operations_keep_places()
    ensures { OperationsKeepPlaces }
{}

/// Outside a delay slot the next instruction of each thread is the one behind: at first, and after
/// each operation.
pub fn operations_keep_straight()
    ensures { OperationsKeepStraight }
{}

/// What each thread keeps is straight and has 32 registers, 0 in register 0 and nothing pending for
/// it, and one that waits has nothing pending at all: at first, and after each operation, if none
/// begins to wait with something pending.
pub fn operations_keep_steady()
    ensures { OperationsKeepSteady }
{}

/// A thread that sleeps has no wakeups: at first, and after each operation, if none sleeps while it
/// has one.
pub fn operations_keep_sleepers()
    ensures { OperationsKeepSleepers }
{}

/// Which threads are live after each operation, what each waits for, and which one runs. A thread
/// waits from the call that blocks it until it is woken or terminated; a wakeup ends sleep alone.
pub fn operations_move_waits()
    ensures { OperationsMoveWaits }
{}

/// Each operation changes one thread, or none: what it becomes, where it stands among the ready
/// ones, and that all others, the rest of the ready list and the next id stay. A creation takes the
/// next id; no id is given again.
pub fn operations_change_one()
    ensures { OperationsChangeOne }
{}

/// A wait that ends: the thread is ready behind all others, or suspended alone, with the answer in
/// `$v0`; all others, which one runs and the next id stay. A wakeup ends sleep so, with the answer
/// 0.
pub fn waking_ends_one_wait()
    ensures { WakingEndsOneWait }
{}

/// A thread that is started begins at its entry with its argument in `$a0`, its `$gp`, `$sp` 16
/// bytes below its stack's end, the thread's return in `$ra`, zero in all other registers, and
/// nothing pending.
pub fn first_registers_are_read()
    ensures { FirstRegistersAreRead }
{}

/// The thread that is dispatched is the first of the best priority, and better than the one that
/// ran. Where none is dispatched, no ready thread is better than the one that runs.
pub fn dispatch_is_strict()
    ensures { DispatchIsStrict }
{}

/// Where ids rise, the thread of the least id above another is the first one above it. So from 0 on
/// each live thread is found, once, in the order of ids.
pub fn threads_are_read_in_order()
    ensures { ThreadsAreReadInOrder }
{}

/// The ready threads of each priority are found, from place 0 on, in order of their arrival. So of
/// one priority after the other all that are ready are found, each once, in order, if the priority
/// of each is one that can be.
pub fn ready_threads_are_read_in_order()
    ensures { ReadyThreadsAreReadInOrder }
{}

/// All that stands in a placed table whose ready list is in order can be put back into one of no
/// thread: the threads, then the ready list, which of them runs, and the next id. That gives the
/// table again. Where all that stands in a table can be put back, it is such a table.
pub fn threads_are_restored()
    ensures { ThreadsAreRestored }
{}

/// A table beside the kernel's ready list stands for threads in order exactly where it stands for
/// them as they are: the queues keep the order within a priority alone. The priorities of the ready
/// threads are then ones that can be.
pub fn tables_stand_in_order()
    ensures { TablesStandInOrder }
{}
