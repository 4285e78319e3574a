//! Facts about the definitions that no call computes. Each is the contract of a function that does
//! nothing.

ghost use Rattle.iop_kernel.specs.Callers.{CallersGoOn};
ghost use Rattle.iop_kernel_laws.specs.CodeLaws.{CodesStayApart};
ghost use Rattle.iop_kernel.specs.DeliveryLaws.{DeliveriesAreInOrder};
ghost use Rattle.iop_kernel_laws.specs.HandlerLaws.{HandlersBeginWith, ResultsAreGiven};
ghost use Rattle.iop_kernel_laws.specs.InterruptRequests.{InterruptRequestsAreServed};
ghost use Rattle.iop_kernel.specs.Laws.{ServicesKeep, LibrariesFaultAtAddresses, DispatchesAreStrict};
ghost use Rattle.iop_kernel_laws.specs.LibraryNames.{LibrariesAreNamed};
ghost use Rattle.iop_kernel_laws.specs.LibraryRequests.{LibraryRequestsAreServed};
ghost use Rattle.iop_kernel_laws.specs.MakerLaws.{MadeAsGiven};
ghost use Rattle.iop_kernel_laws.specs.ObjectRequests.{ObjectRequestsAreServed};
ghost use Rattle.iop_kernel_laws.specs.PoolLaws.{PoolsAreMade, PoolRequestsAreServed, PoolsWriteNothing, VariablePoolStatusIsRead, FixedPoolStatusIsRead};
ghost use Rattle.iop_kernel_laws.specs.StatusLaws.{StatusIsRead, SemaphoreStatusIsRead, FlagStatusIsRead, MailboxStatusIsRead};
ghost use Rattle.iop_kernel_laws.specs.SwitchLaws.{DispatchesAloneSwitch};
ghost use Rattle.iop_kernel_laws.specs.ThreadRequests.{ThreadRequestsAreServed};
ghost use Rattle.iop_kernel_laws.specs.TimeLaws.{SystemTimeIsRead, TicksAreRead, SecondsAreRead};
ghost use Rattle.iop_kernel_laws.specs.WaitingLaws.{WaitsBeginSo, WaitsBeginWhere};
ghost use Rattle.iop_kernel_laws.specs.WakingLaws.{DeletionsWakeAll, WaitsEndSo};
ghost use Rattle.iop_kernel_laws.specs.WordLaws.{WordsAreRead};

/// What holds of the kernel at all times is kept by each service that a thread or a handler calls
/// while nothing is pending of a load, as behind a `syscall`. That threads and waiters stand where
/// they belong, and that no wait is overdue, is kept by each. After it a thread runs on exactly
/// where `Resume` says so, with a word in `$v0` and otherwise the registers of its call. After
/// `Switch` none runs, and the one that called waits, or is ready, or has ended, which the loader's
/// thread never does; the loader's thread alone returns from a module, and a fault changes nothing.
/// A handler goes on after `Resume`, with a word in `$v0`, and has returned after `Switch`. A
/// service takes no time and one number at most; it stores ranges of bytes inside RAM, and tells of
/// each live stub that they meet. What is out of a pool stays inside of it, and no two ranges meet.
pub fn services_keep()
    ensures { ServicesKeep }
{}

/// Whatever a `syscall` calls, the return of a thread, a handler or a module among it: what is
/// known of an object changes by the services of its own library alone, interrupt lines by
/// intrman's, alarms and delays by thbase's, both also by a handler's return; threads by those of
/// threads and of what they wait for, and by the return of a thread or a module. No service begins
/// or ends a handler. Whether interrupts are on changes by the services of intrman and thbase and
/// by returns, whether dispatch is enabled by those of thbase and by the return of a thread or a
/// module; libraries by loadcore's, blocks by sysmem's, thbase's and those of pools. Services of
/// loadcore, sysmem, stdio and sysclib leave the kernel as it was, and those of the first three
/// write nothing; those of intrman change nothing of it but whether interrupts are on, and their
/// lines; returns write nothing, and time does not pass.
pub fn codes_stay_apart()
    ensures { CodesStayApart }
{}

/// A call of a library, by a thread or by a handler, faults at a bad address alone: a service that
/// waits or ends its caller is listed for threads, and a number that is not listed answers.
pub fn libraries_fault_at_addresses()
    ensures { LibrariesFaultAtAddresses }
{}

/// Whatever the code of a `syscall`, who calls goes on, or the `syscall` faults, but for the return
/// of a thread or a module while no handler runs, that of a handler while one does, and ten
/// services where their rows allow them: two end a thread, one gives way to others of a priority,
/// and seven wait.
pub fn callers_go_on()
    ensures { CallersGoOn }
{}

/// Each delivery is one of the lowest line that can be delivered, else of the alarm or the delay
/// that comes next. It is made with interrupts on, while no handler runs, and never between a
/// branch of the thread that runs and its slot. Where none is to be made, though it may be, no line
/// can be delivered, and no alarm and no delay has come.
pub fn deliveries_are_in_order()
    ensures { DeliveriesAreInOrder }
{}

/// The handler of a line or of an alarm begins at its address with its argument in `$a0`, the `$gp`
/// of who registered it, the handlers' stack in `$sp`, the handlers' return in `$ra`, and zero in
/// all other registers. Nothing is pending of a load.
pub fn handlers_begin_with()
    ensures { HandlersBeginWith }
{}

/// RegisterIntrHandler registers for its line the handler and its argument, and SetAlarm sets an
/// alarm after the ticks that its two words say, with its handler and argument; both have the `$gp`
/// of who called. CreateThread makes a thread with that `$gp` as its five words ask, wherever they
/// can be met, and no other comes by it. CreateSema, CreateEventFlag and CreateMbx make an object
/// of what their words say, each in its place.
pub fn made_as_given()
    ensures { MadeAsGiven }
{}

/// CreateVpl and CreateFpl make a pool of what their words say, each in its place, on a block of
/// its own, of which nothing is out.
pub fn pools_are_made()
    ensures { PoolsAreMade }
{}

/// Each service of thbase that makes nothing and does not wait does with its words what their
/// places say: on which thread it works, what it answers, and that nothing else changes.
/// DeleteThread and ExitDeleteThread free the thread's stack. For ChangeThreadPriority and
/// CancelWakeupThread 0 names the caller; StartThread and DeleteThread refuse 0 and the loader's
/// thread, all others 0 and the caller, and TerminateThread the loader's thread, too.
pub fn thread_requests_are_served()
    ensures { ThreadRequestsAreServed }
{}

/// Each service of intrman that registers no handler does with its words what their places say: on
/// which line it works, whether interrupts are on then, and what it answers.
pub fn interrupt_requests_are_served()
    ensures { InterruptRequestsAreServed }
{}

/// SetEventFlag adds the bits of its second argument, of which those stay that no waiter clears;
/// ClearEventFlag leaves those of its second argument alone, and PollEventFlag tests those of its
/// second argument by its third. Where no thread waits, SendMbx queues its second argument, with
/// the byte behind the message's first word as its priority where the mailbox looks at it.
pub fn object_requests_are_served()
    ensures { ObjectRequestsAreServed }
{}

/// AllocateVpl, pAllocateVpl, AllocateFpl and pAllocateFpl take memory of the pool of the id, for
/// the size of their second argument where it is a variable one. FreeVpl and FreeFpl refuse an
/// address at which nothing is out, and a block for which no thread waits is free then. DeleteVpl
/// and DeleteFpl free the block that begins at the pool's base, and answer 0. Each service of pools
/// that is refused answers the code alone, and nothing else changes: also where no live pool has
/// the id, where the words of a new pool are not good, and where there is no room for one more pool
/// or no block for its memory.
pub fn pool_requests_are_served()
    ensures { PoolRequestsAreServed }
{}

/// Each service of pools but ReferVplStatus and ReferFplStatus leaves memory as it was, and gives
/// no line: no word in a pool's memory keeps its books.
pub fn pools_write_nothing()
    ensures { PoolsWriteNothing }
{}

/// The number of each library is that of its name, by which modules import it.
pub fn libraries_are_named()
    ensures { LibrariesAreNamed }
{}

/// Each service of loadcore, sysmem, stdio and sysclib, and the return of a module or of its
/// thread, does with its words what their places say, and answers so. AllocSysMemory takes a mode,
/// a size and an address; printf and Kprintf print the text of their first argument with those
/// behind it; a service of sysclib stores what its outcome says, and faults where it has none.
pub fn library_requests_are_served()
    ensures { LibraryRequestsAreServed }
{}

/// A handler that returns 0 disables its line, or removes its alarm. One that returns another word
/// enables its line where it still has a handler, or sets its alarm again so many ticks after its
/// old moment, with its number. Where its line has no handler any more another word changes
/// nothing, and where its alarm was cancelled no word does. All other lines, alarms and delays are
/// as they were.
pub fn results_are_given()
    ensures { ResultsAreGiven }
{}

/// Each dispatch takes the first ready thread of the best priority. Where none is to be made, no
/// ready thread is better than the one that runs.
pub fn dispatches_are_strict()
    ensures { DispatchesAreStrict }
{}

/// No service and no delivery lets a thread run that did not run before it, or gives a `run` line:
/// that a dispatch does alone.
pub fn dispatches_alone_switch()
    ensures { DispatchesAloneSwitch }
{}

/// The words that ReferThreadStatus writes are those of the thread that is named, each in its
/// place.
pub fn status_is_read()
    ensures { StatusIsRead }
{}

/// The words that ReferSemaStatus writes are those of the semaphore of the id, each in its place.
pub fn semaphore_status_is_read()
    ensures { SemaphoreStatusIsRead }
{}

/// The words that ReferEventFlagStatus writes are those of the event flag of the id, each in its
/// place.
pub fn flag_status_is_read()
    ensures { FlagStatusIsRead }
{}

/// The words that ReferMbxStatus writes are those of the mailbox of the id, each in its place.
pub fn mailbox_status_is_read()
    ensures { MailboxStatusIsRead }
{}

/// The words that ReferVplStatus writes are those of the variable pool of the id, each in its
/// place.
pub fn variable_pool_status_is_read()
    ensures { VariablePoolStatusIsRead }
{}

/// The words that ReferFplStatus writes are those of the fixed pool of the id, each in its place.
pub fn fixed_pool_status_is_read()
    ensures { FixedPoolStatusIsRead }
{}

/// The two words that GetSystemTime writes are the moment.
pub fn system_time_is_read()
    ensures { SystemTimeIsRead }
{}

/// The two words that USec2SysClock writes are the ticks of its microseconds.
pub fn ticks_are_read()
    ensures { TicksAreRead }
{}

/// The words that SysClock2USec writes are the whole seconds of its time and the microseconds that
/// are left, each in its place.
pub fn seconds_are_read()
    ensures { SecondsAreRead }
{}

/// The pattern that WaitEventFlag and PollEventFlag write where they answer 0, those that
/// SetEventFlag writes for the threads that it wakes, the number of its line that DisableIntr
/// writes, and the word of CpuSuspendIntr, 1 where interrupts were on, are read in memory at the
/// place for each. Where WaitEventFlag and PollEventFlag answer 0 the flag is left with no bit if
/// the mode clears it, else as it was.
pub fn words_are_read()
    ensures { WordsAreRead }
{}

/// Where DeleteSema, DeleteEventFlag, DeleteMbx, DeleteVpl or DeleteFpl deletes a live object, all
/// threads that wait for it are woken with `OBJECT_DELETED`, in the order in which they would be
/// chosen. None waits for it any more, and it is no longer live.
pub fn deletions_wake_all()
    ensures { DeletionsWakeAll }
{}

/// How the waits of threads begin, where a call does not go on: SleepThread, DelayThread, WaitSema,
/// WaitEventFlag, ReceiveMbx, AllocateVpl and AllocateFpl leave their caller waiting with the
/// registers of its call, for what the arguments name: until the moment behind its microseconds, or
/// behind all others that wait for the object, with its priority and what it asks for.
/// RotateThreadReadyQueue leaves it ready behind all others, with 0 in `$v0`. Nothing else of a
/// thread changes, and none runs.
pub fn waits_begin_so()
    ensures { WaitsBeginSo }
{}

/// A live thread that calls waits, or gives way, where another one may run: SleepThread where it
/// has no wakeup, DelayThread however short the delay is, RotateThreadReadyQueue for 0 and its own
/// priority, WaitSema where the count is 0, WaitEventFlag where some bits are asked for, no other
/// thread is in the way and the condition does not hold, ReceiveMbx where there is no message,
/// AllocateVpl where a size that the pool has fits nowhere, and AllocateFpl where no block is free.
pub fn waits_begin_where()
    ensures { WaitsBeginWhere }
{}

/// How the waits of threads end: SignalSema and SendMbx wake the first in order of those that wait,
/// SetEventFlag all whose conditions its bits meet, in their order, WakeupThread one that sleeps,
/// and a delay that comes due its thread, each with 0, and ReleaseWaitThread one with
/// `WAIT_RELEASED`. FreeFpl wakes the first in order with the address of the block, and FreeVpl,
/// one after the other, each whose size then fits, with the address of its memory. A thread that is
/// woken is ready behind all others, or suspended alone, with the answer in `$v0`; nothing else of
/// it and of all other threads changes.
pub fn waits_end_so()
    ensures { WaitsEndSo }
{}
