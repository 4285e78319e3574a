//! The way from a command's words to its answer.

ghost use Rattle.std.specs.Prelude.{◌≡◌, ◌≤◌, Some, None, All, map, string_bytes, length};
ghost use Rattle.iop_script.specs.declared.statements.TheConstants.{MOST_MODULES};
ghost use Rattle.iop_front.specs.Answers.{outside, Answers};
ghost use Rattle.iop_saved_script.specs.Sizes.{ScriptIsShort};
ghost use Rattle.iop_script.specs.Laws.{CanRun};
ghost use Rattle.iop_options.specs.Commands.{Command, command_of};
ghost use Rattle.iop_front.specs.Inputs.{IsShort};
ghost use Rattle.iop_front.specs.Keeping.{IsUncalled, written};
ghost use Rattle.iop_front.specs.Outcome.{Meets, outcome_of_modules};

use crate::inputs::{Inputs, read_inputs};
use crate::modules_to_load::modules_to_load;
use crate::refusing::{
    refuse, refuse_bad_script, refuse_bad_snapshot, refuse_too_long, refuse_too_long_snapshot,
    refuse_unread,
};
use crate::running::run_to_end;
use crate::snapshots::restore;
use crate::status::Status;
use crate::unread::Unread;
use crate::unrestored::Unrestored;
use iop_machine::Machine;
use iop_options::{Options, WordFault, parse_options};
use iop_ports::{Files, Keep, Sink};
use std::alloc::Global;

/// Runs the modules of a command, one after the other, as its options and its script say.
fn run_modules<K: Keep, C: Sink, T: Sink>(
    alloc: Global,
    options: &Options,
    inputs: Inputs,
    keep: &mut K,
    console: &mut C,
    trace: &mut T,
) -> Status
    requires runs { CanRun inputs.script }
    requires short_script { ScriptIsShort inputs.script }
    requires few { length inputs.modules.items ≤ MOST_MODULES }
    requires short { All IsShort inputs.modules.items }
    ensures meets { Meets (outcome_of_modules options.now inputs.script inputs.modules.items) result
        (written K.told C.told T.told keep.old console.old trace.old)
        (written K.told C.told T.told keep.new console.new trace.new) }
    ensures uncalled { IsUncalled options.now.save result keep.old keep.new }
{
    let Inputs { script, modules } = inputs;
    let Ok(modules) = modules_to_load(alloc, options.generate, modules) else {
        return Status::NoMemory;
    };
    match Machine::new(alloc, options.ram.bytes(), modules, script) {
        Ok(mut machine) => run_to_end(&mut machine, options, keep, console, trace),
        Err(_) => Status::NoMemory,
    }
}

/// Goes on from the file of a snapshot, or writes why not. Answers the command's status.
fn go_on<F: Files, K: Keep, C: Sink, T: Sink>(
    alloc: Global,
    options: &Options,
    name: &str,
    files: &mut F,
    keep: &mut K,
    console: &mut C,
    trace: &mut T,
) -> Status
    requires { options.now.restore ≡ Some name.now }
    ensures answers { Answers (Some options.now) result
        (outside F.told F.faults K.told C.told T.told files.old keep.old console.old trace.old)
        (outside F.told F.faults K.told C.told T.told files.new keep.new console.new trace.new) }
    ensures uncalled { IsUncalled options.now.save result keep.old keep.new }
{
    match restore(alloc, name, files) {
        Ok(mut machine) => run_to_end(&mut machine, options, keep, console, trace),
        Err(Unrestored::Unreadable) => refuse_unread(name, trace),
        Err(Unrestored::TooLong) => refuse_too_long_snapshot(name, trace),
        Err(Unrestored::Bad) => refuse_bad_snapshot(name, trace),
        Err(Unrestored::NoMemory) => Status::NoMemory,
    }
}

/// Reads the files of a command whose run begins, and runs it, or writes why not. Answers its
/// status.
fn begin<F: Files, K: Keep, C: Sink, T: Sink>(
    alloc: Global,
    options: &Options,
    files: &mut F,
    keep: &mut K,
    console: &mut C,
    trace: &mut T,
) -> Status
    requires { options.now.restore ≡ None }
    ensures answers { Answers (Some options.now) result
        (outside F.told F.faults K.told C.told T.told files.old keep.old console.old trace.old)
        (outside F.told F.faults K.told C.told T.told files.new keep.new console.new trace.new) }
    ensures uncalled { IsUncalled options.now.save result keep.old keep.new }
{
    match read_inputs(alloc, options, files) {
        Ok(inputs) => run_modules(alloc, options, inputs, keep, console, trace),
        Err(Unread::Unreadable(name)) => refuse_unread(name, trace),
        Err(Unread::TooLong(name)) => refuse_too_long(name, trace),
        Err(Unread::BadScript(number)) => refuse_bad_script(number, trace),
        Err(Unread::NoMemory) => Status::NoMemory,
    }
}

/// Answers for a command: goes on from its snapshot, if it names one, or begins.
fn answer_command<F: Files, K: Keep, C: Sink, T: Sink>(
    alloc: Global,
    options: &Options,
    files: &mut F,
    keep: &mut K,
    console: &mut C,
    trace: &mut T,
) -> Status
    ensures answers { Answers (Some options.now) result
        (outside F.told F.faults K.told C.told T.told files.old keep.old console.old trace.old)
        (outside F.told F.faults K.told C.told T.told files.new keep.new console.new trace.new) }
    ensures uncalled { IsUncalled options.now.save result keep.old keep.new }
{
    match &options.restore {
        Some(name) => go_on(alloc, options, name.as_str(), files, keep, console, trace),
        None => begin(alloc, options, files, keep, console, trace),
    }
}

/// Reads the words of a command, and answers for it: `BadWords` where they are none.
pub(crate) fn answer<F: Files, K: Keep, C: Sink, T: Sink>(
    alloc: Global,
    words: &[String],
    files: &mut F,
    keep: &mut K,
    console: &mut C,
    trace: &mut T,
) -> Status
    ensures answers { Answers (command_of (map string_bytes words.now)) result
        (outside F.told F.faults K.told C.told T.told files.old keep.old console.old trace.old)
        (outside F.told F.faults K.told C.told T.told files.new keep.new console.new trace.new) }
    ensures untouched { command_of (map string_bytes words.now) ≡ None → files.new ≡ files.old }
    ensures unkept { command_of (map string_bytes words.now) ≡ None → keep.new ≡ keep.old }
    ensures uncalled { (command : Command) → command_of (map string_bytes words.now) ≡ Some command
        → IsUncalled command.save result keep.old keep.new }
{
    match parse_options(alloc, words) {
        Ok(options) => answer_command(alloc, &options, files, keep, console, trace),
        Err(WordFault::Bad) => refuse(Status::BadWords, b"iop: bad words\n", trace),
        Err(WordFault::Memory) => Status::NoMemory,
    }
}
