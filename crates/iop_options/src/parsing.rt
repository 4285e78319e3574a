//! The way from the words to what they choose.

ghost use Rattle.std.specs.Prelude.{map, string_bytes};
ghost use Rattle.iop_options.specs.Answers.{Gives};
ghost use Rattle.iop_options.specs.Commands.{command_of};
ghost use Rattle.iop_options.specs.Matched.{command_matched};

use crate::command::matches_of;
use crate::copies::{copied, copied_all};
use crate::fault::WordFault;
use crate::modules::{has_one_source, is_unmixed};
use crate::names::{script_of, snapshot_of};
use crate::options::Options;
use crate::values::{budget_of, dump_of, ram_of, workers_of};
use clap::ArgMatches;
use std::alloc::Global;

/// Reads the values of options. Answers `Bad` where the matches are no command.
fn options_of(alloc: Global, matches: &ArgMatches) -> Result<Options, WordFault>
    ensures { Gives result (command_matched matches.now) }
{
    let restore = matches.get_str("restore");
    let script = matches.get_str("script");
    let ram = matches.get_str("ram");
    if !is_unmixed(restore, script, ram) {
        return Err(WordFault::Bad);
    }
    let ram = ram_of(ram).ok_or(WordFault::Bad)?;
    let budget = budget_of(matches.get_str("budget")).ok_or(WordFault::Bad)?;
    let script = script_of(script).ok_or(WordFault::Bad)?;
    let dump = dump_of(ram, matches.get_str("dump")).ok_or(WordFault::Bad)?;
    let generate = workers_of(matches.get_str("generate")).ok_or(WordFault::Bad)?;
    let save = snapshot_of(matches.get_str("save")).ok_or(WordFault::Bad)?;
    let restore = snapshot_of(restore).ok_or(WordFault::Bad)?;
    let modules = matches.get_strs("module").unwrap_or(&[]);
    if !has_one_source(generate, restore, modules) {
        return Err(WordFault::Bad);
    }
    Ok(Options {
        budget,
        script: copied(alloc, script)?,
        dump,
        ram,
        generate,
        save: copied(alloc, save)?,
        restore: copied(alloc, restore)?,
        modules: copied_all(alloc, modules)?,
    })
}

/// Reads the words of the command, without the program's name:
///
/// `[--budget N] [--script FILE] [--dump FROM:LEN] [--ram M] [--generate N] [--save FILE]
/// [--restore FILE] MODULE...`
///
/// - Options and modules stand in any order, each option at most once. Its value is the next word,
///   or stands behind `=`. All words behind `--` are modules.
/// - A word that begins with `-`, other than `-` alone, is no value, nor, before `--`, a module.
/// - `--budget` is decimal, at most `MOST_BUDGET`, and `DEFAULT_BUDGET` where it is left out.
///   Numbers may have leading zeros.
/// - `--script` is a name of one byte at least.
/// - `--dump` has two hexadecimal numbers of 1 to 8 digits: a range of 1 to `LONGEST_DUMP` bytes
///   that lies wholly inside RAM of the size that `--ram` says, wherever that stands.
/// - `--ram` is `2` or `8`, in MiB, and 2 where it is left out.
/// - `--generate` is decimal, 1 to `MOST_WORKERS`.
/// - `--save` and `--restore` are names of 1 to `LONGEST_WORD` bytes. Beside `--restore` neither
///   `--script` nor `--ram` stands.
/// - There is exactly one of modules, `--generate` and `--restore`. The modules are 1 to
///   `MOST_MODULES`, each of 1 to `LONGEST_WORD` bytes.
///
/// Answers `Bad` exactly where the words are no command. Or it answers `Memory`, which stands for
/// want of host memory.
#[tactic(auto, unfolding(crate::specs::Commands::command_of))]
pub fn parse_options(alloc: Global, words: &[String]) -> Result<Options, WordFault>
    ensures { Gives result (command_of (map string_bytes words.now)) }
{
    let matches = matches_of(alloc, words)?;
    options_of(alloc, &matches)
}
