//! Facts about the definitions that no call computes. Each is the contract of a function that does
//! nothing.

ghost use Rattle.iop_machine.specs.ArgumentLaws.{ArgumentsAreRead, ModulesBeginWith, WordsAreOfModules};
ghost use Rattle.iop_machine.specs.AreaLaws.{KernelAreaIsRead, BootingKeepsKernel};
ghost use Rattle.iop_machine.specs.EventLaws.{StepsTakeTheirEvents, EventsChangeTheirLines, NextComingIsLeast};
ghost use Rattle.iop_machine.specs.ObjectLaws.{StepsKeepObjects};
ghost use Rattle.iop_machine.specs.SwitchLaws.{RunsSwitchByDispatch, RunningThreadsWereTaken};
ghost use Rattle.iop_machine.specs.Laws.{StepsCompose, RunsCompose, RunsAreDetermined, OverStays, RunsBeginAsMachines, RunsStayMachines, RunsEnd, RunsAreComputed, RunsStaySound, RunsAreStrict, RunsAreOnTime, RunsAreAwake, RunsKeepEvents, RunsAreCounted, RunsAreDelivered};
ghost use Rattle.iop_machine.specs.Registers.{RegistersAreForgotten};
ghost use Rattle.iop_machine.specs.RestoringLaws.{RestoredMachinesAreMachines};
ghost use Rattle.iop_machine.specs.StubLaws.{StubsReachTheirFunctions, StubsLeaveWithTheirLine, RunsKeepStubs, RunsTellStubs, StubsAreFollowed};

use iop_saved_checks::laws::agreeing_cores_are_sound;
use iop_saved_machine::laws::{machines_are_lawful, machines_are_read, machines_tell_what_was_put};

/// The steps of a run are those of its first part, and then those of the rest.
pub fn steps_compose()
    ensures { StepsCompose }
{}

/// A run by `n` instructions and then one by `m` is one by `n + m`.
pub fn runs_compose()
    ensures { RunsCompose }
{}

/// A run has one end.
pub fn runs_are_determined()
    ensures { RunsAreDetermined }
{}

/// A machine that is stopped stays as it is.
pub fn over_stays()
    ensures { OverStays }
{}

/// A machine of either size, with any modules and with events in the order of their ticks, begins
/// as one.
pub fn runs_begin_as_machines()
    ensures { RunsBeginAsMachines }
{}

/// Each step leaves a machine what a machine is, so that what is said of one run can be said of the
/// next.
pub fn runs_stay_machines()
    ensures { RunsStayMachines }
{}

/// Each run ends: besides one step for each event of the script it takes at most `most_between` and
/// one before the first instruction, between each two, and behind the last. They boot it, deliver
/// what is due, dispatch threads, go on to the next moment, and find that nothing is left.
pub fn runs_end()
    ensures { RunsEnd }
{}

/// A run is a function of the machine and of how many instructions it may execute.
pub fn runs_are_computed()
    ensures { RunsAreComputed }
{}

/// A live stub that is executed goes to its function, after the instruction in its delay slot. In a
/// delay slot itself it faults.
pub fn stubs_reach_their_functions()
    ensures { StubsReachTheirFunctions }
{}

/// The kernel's area is read as it is meant, whatever else stands in memory: where the registry has
/// the table of a library of the kernel, an export table stands with its name, version 1.1 and 64
/// functions. Each function is a call of the kernel with its own code, and so is each return.
pub fn kernel_area_is_read()
    ensures { KernelAreaIsRead }
{}

/// The first step, which boots, leaves the kernel's area so.
pub fn booting_keeps_kernel()
    ensures { BootingKeepsKernel }
{}

/// A module's words are read as they are meant from the argument block: the address of each, a word
/// 0 behind the last address, each word with a zero byte behind it, and zeros up to the block's
/// end.
pub fn arguments_are_read()
    ensures { ArgumentsAreRead }
{}

/// The words that a script has for a module are those of its number, also where there are none;
/// else those of its name, else none.
pub fn words_are_of_modules()
    ensures { WordsAreOfModules }
{}

/// A call forgets the registers that nobody has, and no others: where a thread runs it forgets
/// nothing, and where a handler is active nothing of the processor.
pub fn registers_are_forgotten()
    ensures { RegistersAreForgotten }
{}

/// A module begins at its entry with the number of its words in `$a0`, where their addresses stand
/// in `$a1`, its `$gp`, the loader's stack in `$sp`, the module's return in `$ra`, and zero in all
/// other registers. Nothing is pending of a load.
pub fn modules_begin_with()
    ensures { ModulesBeginWith }
{}

/// In each state that the machine reaches from its beginning memory is sound, the blocks are those
/// of that memory, each live stub is one that a linking has bound on the way, threads stand where
/// their states say, no wait is overdue, and outside a delay slot the next instruction of each is
/// the one behind. What is pending of a load is for a register but 0, and nothing is pending where
/// a thread waits. No two ranges of memory that are out of a pool meet, and all are inside of it.
pub fn runs_stay_sound()
    ensures { RunsStaySound }
{}

/// A stub that was live, or that a step binds, is live after the step, or the step's pieces have
/// its line.
pub fn stubs_leave_with_their_line()
    ensures { StubsLeaveWithTheirLine }
{}

/// A stub that was live before some steps, or was bound in them, is live after them, or the pieces
/// of these steps have its line.
pub fn runs_tell_stubs()
    ensures { RunsTellStubs }
{}

/// A stub that is live after some steps was live before them, or was bound in them.
pub fn runs_keep_stubs()
    ensures { RunsKeepStubs }
{}

/// In each state that a run reaches, a live stub that a thread or a handler executes goes to its
/// function: its second word is executed, which changes nothing, and then the instruction at the
/// function. The memory is that of before, and so are the registers, with what was pending of a
/// load at the stub written. No service is called and nothing is delivered or dispatched in
/// between. In a delay slot the stub faults.
pub fn stubs_are_followed()
    ensures { StubsAreFollowed }
{}

/// In each state that a run reaches, a step that delivers or dispatches leaves the kernel and the
/// processor as the delivery or the dispatch does, and tells its line alone. A dispatch takes the
/// first ready thread of the best priority, and nothing is to be delivered then; and no thread
/// executes an instruction while a better one is ready and may run.
pub fn runs_are_strict()
    ensures { RunsAreStrict }
{}

/// In each state that a run reaches, a thread that runs behind the next step ran before it, or the
/// step dispatches it and tells its `run` line; and a step that dispatches none gives no such line.
pub fn runs_switch_by_dispatch()
    ensures { RunsSwitchByDispatch }
{}

/// Each thread that runs in a state of a run was dispatched by one of the steps before it, and has
/// run since then.
pub fn running_threads_were_taken()
    ensures { RunningThreadsWereTaken }
{}

/// Where a thread executes an instruction, outside a delay slot and while interrupts are on, no
/// alarm and no delay has come that was not delivered.
pub fn runs_are_on_time()
    ensures { RunsAreOnTime }
{}

/// In each state that a run reaches, nothing executes only while interrupts are on and dispatch is
/// enabled. Unless something is delivered or dispatched, the step then lets the clock go on to what
/// comes next, which is later than now and below 2^63, and where nothing comes all is quiet.
pub fn runs_are_awake()
    ensures { RunsAreAwake }
{}

/// In each state that a run reaches, the events that are still to come are those of the script, but
/// for those that were due: none of a later tick is taken, and none that is due is left by a step.
pub fn runs_keep_events()
    ensures { RunsKeepEvents }
{}

/// Each step behind the first, which boots, takes the script's events that are due, and no others:
/// since the clock does not go back, each event is taken by one step alone.
pub fn steps_take_their_events()
    ensures { StepsTakeTheirEvents }
{}

/// The events that are due raise or lower their interrupt lines, as the last of each line says, and
/// change nothing else.
pub fn events_change_their_lines()
    ensures { EventsChangeTheirLines }
{}

/// What comes next, where nothing executes, is the least tick or moment of all that are still to
/// come; nothing comes next only where none is.
pub fn next_coming_is_least()
    ensures { NextComingIsLeast }
{}

/// A step that calls no service of a kind's library leaves what is known of each object of that
/// kind, and makes and deletes none: of the threads that wait, it takes some out or moves them.
pub fn steps_keep_objects()
    ensures { StepsKeepObjects }
{}

/// In each state that a run reaches, the count of each live semaphore is its first count, and one
/// more for each call so far that signalled it where no thread waited, and one less for each that
/// took one; and it is at most the semaphore's most.
pub fn runs_are_counted()
    ensures { RunsAreCounted }
{}

/// In each state that a run reaches, what the calls so far have sent to a live mailbox was received
/// from it or is queued in it, each message as often. Where messages are taken in order of their
/// arrival, those that were received are the first that were sent, in that order. A message was
/// received where memory got it: it is the word that stands, after the call, at the place of the
/// caller or of the thread that the call woke.
pub fn runs_are_delivered()
    ensures { RunsAreDelivered }
{}

/// What was put back from the bytes of a snapshot is a machine, and its snapshot has these bytes.
pub fn restored_machines_are_machines()
    ensures { RestoredMachinesAreMachines }
{
    machines_are_lawful();
    machines_tell_what_was_put();
    machines_are_read();
    agreeing_cores_are_sound();
}
