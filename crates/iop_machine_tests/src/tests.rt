ghost use Rattle.std.specs.Prelude.{◌≡◌, ◌≤◌, IfOk, [], ◌∷◌, length};
ghost use Rattle.iop_machine.specs.Standing.{IsSoundMachine};

use iop_base::Stop;
use iop_machine::{Machine, Module};
use iop_ports::MemSink;
use iop_script::{Args, Script, Word};
use std::alloc::{AllocError, Global};
use std::process::Abort;
use std::test::Fail;

/// The file of a module that returns 0 at once.
const PLAIN_FILE: [u8; 152] = [
    0x7F, 0x45, 0x4C, 0x46, 0x01, 0x01, 0x01, 0x00, 0x00, 0x00, 0x00, 0x00, 0x00, 0x00, 0x00, 0x00,
    0x80, 0xFF, 0x08, 0x00, 0x01, 0x00, 0x00, 0x00, 0x00, 0x00, 0x00, 0x00, 0x34, 0x00, 0x00, 0x00,
    0x00, 0x00, 0x00, 0x00, 0x00, 0x00, 0x00, 0x00, 0x34, 0x00, 0x20, 0x00, 0x02, 0x00, 0x28, 0x00,
    0x00, 0x00, 0x00, 0x00, 0x80, 0x00, 0x00, 0x70, 0x74, 0x00, 0x00, 0x00, 0x00, 0x00, 0x00, 0x00,
    0x00, 0x00, 0x00, 0x00, 0x1C, 0x00, 0x00, 0x00, 0x1C, 0x00, 0x00, 0x00, 0x04, 0x00, 0x00, 0x00,
    0x04, 0x00, 0x00, 0x00, 0x01, 0x00, 0x00, 0x00, 0x90, 0x00, 0x00, 0x00, 0x00, 0x00, 0x00, 0x00,
    0x00, 0x00, 0x00, 0x00, 0x08, 0x00, 0x00, 0x00, 0x08, 0x00, 0x00, 0x00, 0x07, 0x00, 0x00, 0x00,
    0x10, 0x00, 0x00, 0x00, 0xFF, 0xFF, 0xFF, 0xFF, 0x00, 0x00, 0x00, 0x00, 0x00, 0x00, 0x00, 0x00,
    0x08, 0x00, 0x00, 0x00, 0x00, 0x00, 0x00, 0x00, 0x00, 0x00, 0x00, 0x00, 0x01, 0x01, 0x74, 0x00,
    0x08, 0x00, 0xE0, 0x03, 0x21, 0x10, 0x00, 0x00,
];

/// The trace of a machine that loads it twice.
pub(crate) const TRACE_OF_TWO: &[u8] =
    b"0 load 1 ok 00010000 00000008\n0 run 1\n2 result 1 0 resident\n\
    2 load 2 ok 00010100 00000008\n5 result 2 0 resident\n";

/// Makes that module, by the name of `m.irx`.
fn plain_module(alloc: Global) -> Result<Module, AllocError>
    ensures name { IfOk result (λ made. length made.name ≤ 5) }
    ensures file { IfOk result (λ made. length made.file ≤ 152) }
{
    Ok(Module {
        name: String::from_str(alloc, "m.irx")?,
        file: PLAIN_FILE.to_vec(alloc)?,
    })
}

/// Makes a script with words for the first module: `a` and `bc`.
fn words_for_first(alloc: Global) -> Result<Script, AllocError>
    ensures events { IfOk result (λ script. script.events ≡ []) }
    ensures args { IfOk result (λ script.
        script.args ≡ record { number = 1; words = (97 ∷ []) ∷ (98 ∷ 99 ∷ []) ∷ [] } ∷ []) }
    ensures named { IfOk result (λ script. script.named ≡ []) }
{
    let first = Word {
        bytes: b"a".to_vec(alloc)?,
    };
    let second = Word {
        bytes: b"bc".to_vec(alloc)?,
    };
    let args = Args {
        module: 1,
        words: vec![in alloc; first, second]?,
    };
    Ok(Script {
        events: Vec::new(alloc),
        args: vec![in alloc; args]?,
        named: Vec::new(alloc),
    })
}

/// Makes a machine that loads that module twice.
pub(crate) fn loads_it_twice(alloc: Global) -> Result<Machine, AllocError>
    ensures { IfOk result IsSoundMachine }
{
    let first = plain_module(alloc)?;
    let second = plain_module(alloc)?;
    let modules = vec![in alloc; first, second]?;
    Machine::new(alloc, 0x20_0000, modules, words_for_first(alloc)?)
}

/// Runs it by so many instructions, and compares why it stops, and the moment behind them.
pub(crate) fn run_by(
    rt: &impl Abort,
    machine: &mut Machine,
    console: &mut MemSink,
    trace: &mut MemSink,
    budget: u8,
    want: (Stop, u64),
)
    requires { IsSoundMachine machine.old }
    ensures { IsSoundMachine machine.new }
{
    // So there is time for the budget.
    assert!(rt; machine.now() <= 100);
    assert_eq!(rt; machine.run(u64::from(budget), console, trace), Ok(want.0));
    assert_eq!(rt; machine.now(), want.1);
}

/// Runs that machine by 0, 3, 100 and once more 100 instructions, and compares the words that each
/// module is handed, and the trace.
fn run_in_parts(rt: &impl Abort, alloc: Global, machine: &mut Machine) -> Result<(), Fail>
    requires { IsSoundMachine machine.old }
{
    let mut console = MemSink::new(alloc, 100, Vec::new(alloc))?;
    let mut trace = MemSink::new(alloc, 200, Vec::new(alloc))?;
    run_by(rt, machine, &mut console, &mut trace, 0, (Stop::Budget, 0));
    let arguments = b"\x10\x20\0\0\x16\x20\0\0\x18\x20\0\0\0\0\0\0m.irx\0a\0bc\0".as_slice();
    assert_eq!(rt; machine.window(0x2000, 27), Some(arguments));
    run_by(rt, machine, &mut console, &mut trace, 3, (Stop::Budget, 3));
    run_by(rt, machine, &mut console, &mut trace, 100, (Stop::Quiet, 6));
    run_by(rt, machine, &mut console, &mut trace, 100, (Stop::Quiet, 6));
    assert_eq!(rt; machine.ready().bits(), 0);
    let arguments = b"\x08\x20\0\0\0\0\0\0m.irx\0\0".as_slice();
    assert_eq!(rt; machine.window(0x2000, 15), Some(arguments));
    assert_eq!(rt; machine.window(0x1F_FFF8, 9), None);
    assert_eq!(rt; trace.bytes(), TRACE_OF_TWO);
    Ok(())
}

#[test]
fn runs_in_parts(rt: HostRuntime) -> Result<(), Fail> {
    let alloc: Global = rt.alloc();
    let mut machine = loads_it_twice(alloc)?;
    run_in_parts(&rt, alloc, &mut machine)
}

/// The file of the module `order.irx` of the case `run_order`, which makes four threads.
const ORDER_FILE: &str =
    "7f454c4601010100000000000000000080ff0800010000005c00000034000000300200000000000034002000\
    0200280002000000800000707400000000000000000000002000000020000000040000000400000001000000\
    94000000000000000000000004010000040100000700000010000000ffffffff5c00000000000000c8000000\
    3c0000000000000001016f72646572000000e041000000000101000074686261736500000800e00304000024\
    0800e003060000240800e003180000240800e0031900002400000000000000002188e0030500000c00000000\
    212040000700000c0000000008002002000000002180e0030000043c0f00000cc80084240000043c0f00000c\
    dc0084240000043c0f00000cdc0084240000043c0f00000cf000842408000002211000002180e0030900000c\
    0000000008000002000000002180e0030b00000c0500042408000002000000000800e0030000000000000002\
    00000000ac00000000020000140000000000000200000000c000000000020000140000000000000200000000\
    98000000000200000a00000040000000040000004c0000000400000060000000050000006400000004000000\
    68000000060000006c000000050000007000000004000000740000000600000078000000050000007c000000\
    040000008000000006000000840000000500000088000000040000008c000000060000009c00000004000000\
    b000000004000000d000000002000000e400000002000000f800000002000000000000000000000000000000\
    0000000000000000000000000000000000000000000000000000000000000000090000000000000000000000\
    980100009800000000000000000000000400000008000000";

/// Makes a machine that loads the module of a file.
fn loads_it(alloc: Global, file: Vec<u8>) -> Result<Machine, AllocError>
    requires { length file.items ≤ 1000 }
    ensures { IfOk result IsSoundMachine }
{
    let name = String::from_str(alloc, "m.irx")?;
    let modules = vec![in alloc; Module { name, file }]?;
    let script = Script {
        events: Vec::new(alloc),
        args: Vec::new(alloc),
        named: Vec::new(alloc),
    };
    Machine::new(alloc, 0x20_0000, modules, script)
}

/// Runs it to its end, behind which no thread is ready.
fn run_to_its_end(rt: &impl Abort, alloc: Global, machine: &mut Machine) -> Result<(), Fail>
    requires { IsSoundMachine machine.old }
{
    let mut console = MemSink::new(alloc, 100, Vec::new(alloc))?;
    let mut trace = MemSink::new(alloc, 10_000, Vec::new(alloc))?;
    run_by(
        rt,
        machine,
        &mut console,
        &mut trace,
        200,
        (Stop::Quiet, 116),
    );
    assert_eq!(rt; machine.ready().bits(), 0);
    Ok(())
}

#[test]
fn no_thread_is_ready_at_the_end(rt: HostRuntime) -> Result<(), Fail> {
    let alloc: Global = rt.alloc();
    let file = hex::decode(alloc, ORDER_FILE)?;
    assert!(rt; file.len() <= 1000);
    let mut machine = loads_it(alloc, file)?;
    run_to_its_end(&rt, alloc, &mut machine)
}
