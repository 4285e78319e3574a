//! The command as `clap` reads it.

ghost use Rattle.std.specs.Prelude.{◌≡◌, ◌≢◌, IfOk, None, option_and_then, map, string_bytes, false};
ghost use Rattle.clap.specs.Words.{app_of, rule_of, kind_of};
ghost use Rattle.clap.specs.declared.error.kind.ErrorKind.TheVariants.{OutOfMemory};
ghost use Rattle.iop_options.specs.Parts.{parts_from, unless_repeated};
ghost use Rattle.iop_options.specs.Matched.{FindsParts, iop_app, option_rule, file_rule};

use crate::fault::WordFault;
use clap::error::ErrorKind;
use clap::{Arg, ArgAction, ArgMatches, Command, Error};
use std::alloc::{AllocError, Global};

/// An option that has one value, with its name as its id.
fn value_option<'a>(alloc: Global, name: &'a str) -> Arg<'a>
    ensures rule { rule_of result ≡ option_rule name.entry.now }
    ensures local { result.global ≡ false }
{
    Arg::new(alloc, name).long(name).action(ArgAction::Set)
}

/// The words that name modules.
fn module_words<'a>(alloc: Global) -> Arg<'a>
    ensures rule { rule_of result ≡ file_rule }
    ensures local { result.global ≡ false }
{
    Arg::new(alloc, "module").action(ArgAction::Append)
}

/// The command: seven options, each of one value, and any number of modules.
fn iop_command<'a>(alloc: Global) -> Result<Command<'a>, AllocError>
    ensures { IfOk result (λ command. app_of command ≡ iop_app) }
{
    Command::new(alloc, "iop")
        .no_binary_name(true)
        .disable_help_flag(true)
        .arg(value_option(alloc, "budget"))?
        .arg(value_option(alloc, "script"))?
        .arg(value_option(alloc, "dump"))?
        .arg(value_option(alloc, "ram"))?
        .arg(value_option(alloc, "generate"))?
        .arg(value_option(alloc, "save"))?
        .arg(value_option(alloc, "restore"))?
        .arg(module_words(alloc))
}

/// What an error of `clap` says of the words.
fn fault_of(error: &Error) -> WordFault
    ensures bad { result ≡ WordFault.Bad → kind_of error.now ≢ OutOfMemory }
    ensures memory { result ≡ WordFault.Memory → kind_of error.now ≡ OutOfMemory }
{
    match error.kind() {
        ErrorKind::OutOfMemory => WordFault::Memory,
        _ => WordFault::Bad,
    }
}

/// Finds the values of the options, and the modules, that words give. Answers `Bad` where they are
/// no words of the command, as where an option stands twice.
pub(crate) fn matches_of<'a>(
    alloc: Global,
    words: &'a [String],
) -> Result<ArgMatches<'a>, WordFault>
    ensures { FindsParts result
        (option_and_then unless_repeated (parts_from None (map string_bytes words.entry.now))) }
{
    let command = iop_command(alloc)?;
    match command.try_get_matches_from(words) {
        Ok(matches) => Ok(matches),
        Err(error) => Err(fault_of(&error)),
    }
}
