//! A machine that is saved and put back.

ghost use Rattle.std.specs.Prelude.{IfOk};
ghost use Rattle.iop_machine.specs.Standing.{IsSoundMachine};

use crate::tests::{TRACE_OF_TWO, loads_it_twice, run_by};
use iop_base::{Stop, WriteFault};
use iop_machine::Machine;
use iop_ports::MemSink;
use iop_snapshot::SnapFault;
use std::alloc::{AllocError, Global};
use std::process::Abort;
use std::test::Fail;

/// How many bytes a sink has room for: the file of a machine of 2 MiB.
const ROOM: u32 = 0x21_0000;

/// What machines give.
#[derive(Drop)]
struct Given {
    console: MemSink,
    trace: MemSink,
}

/// Makes sinks for what machines give.
fn nothing_given(alloc: Global) -> Result<Given, AllocError> {
    let console = MemSink::new(alloc, 100, Vec::new(alloc))?;
    let trace = MemSink::new(alloc, 200, Vec::new(alloc))?;
    Ok(Given { console, trace })
}

/// What is compared of a machine that came back.
#[derive(Drop)]
struct Back {
    is_resumable: bool,
    moment: u64,
    /// The file in which it is saved again.
    file: MemSink,
}

/// Puts a machine back from its file.
fn restored(alloc: Global, file: &[u8]) -> Result<Machine, SnapFault>
    ensures { IfOk result IsSoundMachine }
{
    Machine::restore(alloc, file)
}

/// Saves a machine to a sink.
fn save_to(machine: &Machine, sink: &mut MemSink) -> Result<(), WriteFault>
    requires { IsSoundMachine machine.now }
{
    machine.save(sink)
}

/// Makes the file in which a machine is saved.
fn saved(alloc: Global, machine: &Machine) -> Result<MemSink, AllocError>
    requires { IsSoundMachine machine.now }
{
    let mut sink = MemSink::new(alloc, ROOM, Vec::new(alloc))?;
    // Where it fails the file is another.
    let _ = save_to(machine, &mut sink);
    Ok(sink)
}

/// Runs a machine by so many instructions, and compares why it stops, and the moment behind them.
fn run_giving(
    rt: &impl Abort,
    machine: &mut Machine,
    given: &mut Given,
    budget: u8,
    want: (Stop, u64),
)
    requires { IsSoundMachine machine.old }
    ensures { IsSoundMachine machine.new }
{
    run_by(
        rt,
        machine,
        &mut given.console,
        &mut given.trace,
        budget,
        want,
    );
}

/// Makes the file of a machine that loads a module twice, and has run by 3 instructions.
fn saved_after_three(
    rt: &impl Abort,
    alloc: Global,
    given: &mut Given,
) -> Result<MemSink, AllocError> {
    let mut machine = loads_it_twice(alloc)?;
    run_giving(rt, &mut machine, given, 3, (Stop::Budget, 3));
    saved(alloc, &machine)
}

/// Looks at a machine that came back, and runs it to its end.
fn goes_on(
    rt: &impl Abort,
    alloc: Global,
    machine: &mut Machine,
    given: &mut Given,
) -> Result<Back, SnapFault>
    requires { IsSoundMachine machine.old }
{
    let back = Back {
        is_resumable: machine.resumable(),
        moment: machine.now(),
        file: saved(alloc, machine)?,
    };
    run_giving(rt, machine, given, 100, (Stop::Quiet, 6));
    Ok(back)
}

/// Puts a machine back from its file, looks at it, and runs it to its end.
fn back_from(
    rt: &impl Abort,
    alloc: Global,
    file: &[u8],
    given: &mut Given,
) -> Result<Back, SnapFault> {
    let mut machine = restored(alloc, file)?;
    goes_on(rt, alloc, &mut machine, given)
}

#[test]
fn a_machine_goes_on_from_its_file(rt: HostRuntime) -> Result<(), Fail> {
    let alloc = rt.alloc();
    let mut given = nothing_given(alloc)?;
    let saved = saved_after_three(&rt, alloc, &mut given)?;
    let back = back_from(&rt, alloc, saved.bytes(), &mut given)?;
    assert_eq!(rt; back.is_resumable, true);
    assert_eq!(rt; back.moment, 3);
    assert_eq!(rt; back.file.bytes() == saved.bytes(), true);
    // All that is given, before it was saved and behind that, is as if it had not been saved.
    assert_eq!(rt; given.trace.bytes(), TRACE_OF_TWO);
    assert_eq!(rt; given.console.bytes().len(), 0);
    Ok(())
}

/// Says whether no machine is put back from a file, since it is bad.
fn is_bad(rt: &impl Abort, alloc: Global, file: &[u8]) -> Result<bool, AllocError> {
    let mut given = nothing_given(alloc)?;
    let back = back_from(rt, alloc, file, &mut given);
    Ok(matches!(back, Err(SnapFault::Bad)))
}

/// Makes the file with one byte more.
fn longer(alloc: Global, file: &[u8]) -> Result<Vec<u8>, Fail> {
    let mut longer = file.to_vec(alloc)?;
    longer.push(0)?;
    Ok(longer)
}

#[test]
fn other_files_are_bad(rt: HostRuntime) -> Result<(), Fail> {
    let alloc = rt.alloc();
    let saved = saved_after_three(&rt, alloc, &mut nothing_given(alloc)?)?;
    let file = saved.bytes();
    let cut = &file[..file.len().saturating_sub(1)];
    assert_eq!(rt; is_bad(&rt, alloc, cut)?, true);
    assert_eq!(rt; is_bad(&rt, alloc, &longer(alloc, file)?)?, true);
    assert_eq!(rt; is_bad(&rt, alloc, &[])?, true);
    Ok(())
}
