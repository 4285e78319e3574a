//! The modules that a command names, read from their files.

ghost use Rattle.std.specs.Prelude.{◌≡◌, ◌≤◌, [], ◌∷◌, All, IfOk, MatchResult, length, map, string_bytes};
ghost use Rattle.iop_script.specs.declared.statements.TheConstants.{MOST_MODULES};
ghost use Rattle.iop_front.specs.Inputs.{seen, HasTaken, HasStopped, IsShort};
ghost use Rattle.iop_front.specs.Outcome.{read_limit};
ghost use Rattle.iop_front.specs.Named.{AsModule};

use crate::reading::read_whole;
use crate::unread::Unread;
use crate::words::{ModuleWord, ModuleWords};
use iop_machine::Module;
use iop_modload::LONGEST_FILE;
use iop_ports::Files;
use std::alloc::{AllocError, Global};

/// How many bytes of a file are read at most: one more than a file may have shows that it is too
/// long.
const READ_LIMIT: usize = LONGEST_FILE as usize + 1;

/// Makes a buffer of `READ_LIMIT` zero bytes.
pub(crate) fn read_buffer(alloc: Global) -> Result<Vec<u8>, AllocError>
    ensures { IfOk result (λ buffer. length buffer.items ≡ read_limit) }
{
    vec![in alloc; 0; READ_LIMIT]
}

/// Makes a module of a word and of the bytes of its file.
fn module_of(alloc: Global, word: ModuleWord<'_>, file: &[u8]) -> Result<Module, AllocError>
    ensures { IfOk result (λ made.
        made ≡ record { name = word.entry.text.now; file = file.now }) }
{
    let mut bytes = Vec::new(alloc);
    bytes.extend_from_slice(file)?;
    Ok(Module {
        name: String::from_str(alloc, word.text)?,
        file: bytes,
    })
}

/// Reads the module of a word through a buffer of `READ_LIMIT` bytes.
fn read_module<'a, F: Files>(
    alloc: Global,
    word: ModuleWord<'a>,
    buffer: &mut [u8],
    files: &mut F,
) -> Result<Module, Unread<'a>>
    requires { length buffer.old ≡ read_limit }
    ensures read { MatchResult result
        (λ read. HasTaken AsModule (word.entry.text.now ∷ []) (read ∷ [])
        (seen F.told F.faults files.old) (seen F.told F.faults files.new))
        (λ unread. HasStopped AsModule (word.entry.text.now ∷ []) unread
        (seen F.told F.faults files.old) (seen F.told F.faults files.new)) }
    ensures short { IfOk result IsShort }
{
    let len = read_whole(word.text, buffer, files)?;
    Ok(module_of(alloc, word, &buffer[..len])?)
}

/// Reads the modules that these words name, in order, through a buffer of `READ_LIMIT` bytes. The
/// first that cannot be read or is too long decides, and no later file is opened. Where memory is
/// wanting, no further file is opened.
pub(crate) fn read_modules<'a, F: Files>(
    alloc: Global,
    words: ModuleWords<'a>,
    buffer: &mut [u8],
    files: &mut F,
) -> Result<Vec<Module>, Unread<'a>>
    requires { length buffer.old ≡ read_limit }
    ensures read { MatchResult result
        (λ modules. HasTaken AsModule (map string_bytes words.entry.texts.now) modules.items
        (seen F.told F.faults files.old) (seen F.told F.faults files.new))
        (λ unread. HasStopped AsModule (map string_bytes words.entry.texts.now) unread
        (seen F.told F.faults files.old) (seen F.told F.faults files.new)) }
    ensures few { IfOk result (λ modules. length modules.items ≤ MOST_MODULES) }
    ensures short { IfOk result (λ modules. All IsShort modules.items) }
{
    let mut modules = Vec::with_capacity(alloc, words.texts.len())?;
    for text in words.texts {
        let word = ModuleWord {
            text: text.as_str(),
        };
        let module = read_module(alloc, word, buffer, files)?;
        modules.push(module).unwrap();
    }
    Ok(modules)
}
