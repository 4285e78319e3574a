use crate::command::{ADDRESS, AS, CHECK, FILE, IMAGE, INFO, LIST, OUTPUT, RAW, SCRIPT, SOURCE};
use crate::numbers::{FIRST_BASE, number_of};
use anyhow::{Context, Result, bail};
use clap::ArgMatches;

/// What the words of the command ask for.
#[derive(Clone, Copy)]
pub(crate) enum Action<'m, 'a> {
    /// To write the IRX file of a module's source.
    Assemble {
        /// The name of the source.
        source: &'a str,
        /// The name of the file that is written; else it is standard output.
        output: Option<&'a str>,
    },
    /// To tell of each file whether it is a module.
    Check {
        /// The names of the files.
        files: &'m [&'a str],
    },
    /// To write the image of a module.
    Image {
        /// The name of the module's file.
        file: &'a str,
        /// The address that the image is relocated for.
        base: u32,
        /// The name of the file that is written; else it is standard output.
        output: Option<&'a str>,
    },
    /// To tell what a module says of itself.
    Info {
        /// The name of the module's file.
        file: &'a str,
    },
    /// To list the text of a module.
    List {
        /// The name of the module's file.
        file: &'a str,
    },
    /// To list the words of a raw file.
    ListWords {
        /// The name of the file.
        file: &'a str,
    },
    /// To tell what a script says, or which line of it is bad.
    Script {
        /// The name of the script's file.
        file: &'a str,
    },
}

/// Finds what the words ask for.
pub(crate) fn action_of<'m, 'a>(matches: &'m ArgMatches<'a>) -> Result<Action<'m, 'a>> {
    let (verb, values) = matches.subcommand().context("there is no command")?;
    match verb {
        AS => Ok(Action::Assemble {
            source: value_of(values, SOURCE)?,
            output: values.get_str(OUTPUT),
        }),
        CHECK => Ok(Action::Check {
            files: values.get_strs(FILE).unwrap_or(&[]),
        }),
        IMAGE => Ok(Action::Image {
            file: value_of(values, FILE)?,
            base: base_of(values)?,
            output: values.get_str(OUTPUT),
        }),
        INFO => Ok(Action::Info {
            file: value_of(values, FILE)?,
        }),
        LIST => list_action(values),
        SCRIPT => Ok(Action::Script {
            file: value_of(values, FILE)?,
        }),
        _ => bail!("{verb} is no command"),
    }
}

/// Finds what is to be listed.
fn list_action<'m, 'a>(values: &'m ArgMatches<'a>) -> Result<Action<'m, 'a>> {
    let file = value_of(values, FILE)?;
    if values.get_flag(RAW) {
        Ok(Action::ListWords { file })
    } else {
        Ok(Action::List { file })
    }
}

/// Gives the value of an argument that the command requires.
fn value_of<'a>(values: &ArgMatches<'a>, id: &str) -> Result<&'a str> {
    values
        .get_str(id)
        .context(format_args!("{id} has no value"))
}

/// Reads the address that the words give, or takes the one where the first module is loaded.
fn base_of(values: &ArgMatches<'_>) -> Result<u32> {
    match values.get_str(ADDRESS) {
        Some(text) => number_of(text).context(format_args!("{text} is no address")),
        None => Ok(FIRST_BASE),
    }
}
