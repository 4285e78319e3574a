//! What a command whose run begins reads before the machine is made: its script and its modules.

ghost use Rattle.std.specs.Prelude.{◌≡◌, ◌≤◌, Some, [], ◌∷◌, All, IfOk, MatchResult, length, option_to_list};
ghost use Rattle.iop_script.specs.declared.statements.TheConstants.{MOST_MODULES};
ghost use Rattle.iop_saved_script.specs.Sizes.{ScriptIsShort};
ghost use Rattle.iop_script.specs.Laws.{CanRun};
ghost use Rattle.iop_script.specs.Reading.{empty_script};
ghost use Rattle.iop_front.specs.Inputs.{seen, HasScript, HasInputs, HasStopped, IsShort};
ghost use Rattle.iop_front.specs.Outcome.{read_limit};
ghost use Rattle.iop_front.specs.Named.{AsScript, kind_by, inputs_of};

use crate::modules::{read_buffer, read_modules};
use crate::reading::read_whole;
use crate::unread::Unread;
use crate::words::ModuleWords;
use iop_machine::Module;
use iop_options::Options;
use iop_ports::Files;
use iop_saved_script::laws::short_texts_give_short_scripts;
use iop_script::{Script, parse};
use std::alloc::Global;

/// What a command has read.
#[derive(Debug, Drop)]
pub(crate) struct Inputs {
    pub(crate) script: Script,
    pub(crate) modules: Vec<Module>,
}

/// The script of a command that names none.
fn no_script(alloc: Global) -> Script
    ensures script { result ≡ empty_script }
    ensures runs { CanRun result }
    ensures short { ScriptIsShort result }
{
    Script {
        events: Vec::new(alloc),
        args: Vec::new(alloc),
        named: Vec::new(alloc),
    }
}

/// Reads the script of a file through a buffer of `READ_LIMIT` bytes.
fn read_script<'a, F: Files>(
    alloc: Global,
    name: &'a str,
    buffer: &mut [u8],
    files: &mut F,
) -> Result<Script, Unread<'a>>
    requires { length buffer.old ≡ read_limit }
    ensures read { MatchResult result
        (λ script. HasScript (Some name.now) script
        (seen F.told F.faults files.old) (seen F.told F.faults files.new))
        (λ unread. HasStopped AsScript (name.now ∷ []) unread
        (seen F.told F.faults files.old) (seen F.told F.faults files.new)) }
    ensures runs { IfOk result CanRun }
    ensures short { IfOk result ScriptIsShort }
    ensures buffer { length buffer.new ≡ read_limit }
{
    let len = read_whole(name, buffer, files)?;
    short_texts_give_short_scripts();
    Ok(parse(alloc, &buffer[..len])?)
}

/// Reads the script of a command, if it names one; else the script says nothing.
fn read_script_of<'a, F: Files>(
    alloc: Global,
    options: &'a Options,
    buffer: &mut [u8],
    files: &mut F,
) -> Result<Script, Unread<'a>>
    requires { length buffer.old ≡ read_limit }
    ensures read { let named = options.now.script in
        MatchResult result
        (λ script. HasScript named script
        (seen F.told F.faults files.old) (seen F.told F.faults files.new))
        (λ unread. HasStopped (kind_by named) (option_to_list named) unread
        (seen F.told F.faults files.old) (seen F.told F.faults files.new)) }
    ensures runs { IfOk result CanRun }
    ensures short { IfOk result ScriptIsShort }
    ensures buffer { length buffer.new ≡ read_limit }
{
    match &options.script {
        Some(name) => read_script(alloc, name.as_str(), buffer, files),
        None => Ok(no_script(alloc)),
    }
}

/// Reads what a command whose run begins names: first its script, and then its modules, in order.
/// The first file that cannot be read or is too long, or a bad line of the script, decides, and no
/// later file is opened. Where memory is wanting, no further file is opened.
#[inline(never)]
pub(crate) fn read_inputs<'a, F: Files>(
    alloc: Global,
    options: &'a Options,
    files: &mut F,
) -> Result<Inputs, Unread<'a>>
    ensures read { MatchResult result
        (λ inputs. HasInputs options.now inputs.script inputs.modules.items
        (seen F.told F.faults files.old) (seen F.told F.faults files.new))
        (λ unread. HasStopped (kind_by options.now.script) (inputs_of options.now) unread
        (seen F.told F.faults files.old) (seen F.told F.faults files.new)) }
    ensures runs { IfOk result (λ inputs. CanRun inputs.script) }
    ensures short_script { IfOk result (λ inputs. ScriptIsShort inputs.script) }
    ensures few { IfOk result (λ inputs. length inputs.modules.items ≤ MOST_MODULES) }
    ensures short { IfOk result (λ inputs. All IsShort inputs.modules.items) }
{
    let mut buffer = read_buffer(alloc)?;
    let script = read_script_of(alloc, options, &mut buffer, files)?;
    let modules = read_modules(alloc, ModuleWords::of(options), &mut buffer, files)?;
    Ok(Inputs { script, modules })
}
