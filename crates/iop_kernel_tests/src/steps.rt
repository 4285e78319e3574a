//! Steps of a test, each with what is wanted of it.

ghost use Rattle.std.specs.Prelude.{◌+◌, ◌≤◌};
ghost use Rattle.iop_ready.specs.KernelReady.{KernelStands};
ghost use Rattle.iop_kernel.specs.Standing.{IsSound};

use crate::world::World;
use iop_base::Line;
use iop_kernel::After;
use std::process::Abort;

/// What a step does, and what is wanted of it.
#[derive(Clone, Copy)]
pub(crate) enum Step {
    /// Dispatches: this thread runs then.
    Runs(u32),
    /// Dispatches: nothing is to be done.
    Stays,
    /// Asks for a thread by its words: the caller goes on with this word.
    Create([u32; 5], i32),
    /// Asks for a semaphore by its words: the caller goes on with this word.
    CreateSema([u32; 4], i32),
    /// Calls a service with two arguments: the caller goes on with this word.
    Call(u32, u32, u32, i32),
    /// Calls a service with one argument: the caller does not go on.
    Waits(u32, u32),
    /// Looks at the last line of the trace.
    Told(Line),
    /// Looks at the word at an address.
    Word(u32, u32),
    /// Looks at `$v0`.
    Answer(i32),
}

/// Takes a step.
fn take(rt: &impl Abort, world: &mut World, step: Step)
    requires sound { IsSound KernelStands world.old.kernel }
    requires few { world.old.kernel.timers.next ≤ world.old.calls + 1 }
    ensures sound { IsSound KernelStands world.new.kernel }
    ensures few { world.new.kernel.timers.next ≤ world.new.calls + 1 }
{
    match step {
        Step::Runs(thread) => assert_eq!(rt; world.dispatch(), (true, Some(Line::Run(thread)))),
        Step::Stays => assert!(rt; !world.dispatch().0),
        Step::Create(words, wanted) => {
            assert_eq!(rt; world.create(rt, words), (After::Resume, wanted));
        }
        Step::CreateSema(words, wanted) => {
            assert_eq!(rt; world.create_sema(rt, words), (After::Resume, wanted));
        }
        Step::Call(code, first, second, wanted) => {
            assert_eq!(rt;
                world.call(rt, code, first, second),
                (After::Resume, wanted)
            );
        }
        Step::Waits(code, first) => {
            assert_eq!(rt; world.call(rt, code, first, 0).0, After::Switch);
        }
        Step::Told(line) => assert_eq!(rt; world.lines.line, Some(line)),
        Step::Word(at, wanted) => assert_eq!(rt; world.guest.ram().load32(at), Ok(wanted)),
        Step::Answer(wanted) => assert_eq!(rt; world.cpu.regs[2].cast_signed(), wanted),
    }
}

/// Takes steps, one after the other.
pub(crate) fn take_all(rt: &impl Abort, world: &mut World, steps: &[Step])
    requires sound { IsSound KernelStands world.old.kernel }
    requires few { world.old.kernel.timers.next ≤ world.old.calls + 1 }
    ensures sound { IsSound KernelStands world.new.kernel }
    ensures few { world.new.kernel.timers.next ≤ world.new.calls + 1 }
{
    for step in steps {
        take(rt, world, *step);
    }
}
