//! The command as `clap` reads it.

use clap::{Arg, ArgAction, Command};
use std::alloc::{AllocError, Global};

/// The word to make the file of a module.
pub(crate) const AS: &str = "as";

/// The word to tell whether files are modules.
pub(crate) const CHECK: &str = "check";

/// The word to write the image of a module.
pub(crate) const IMAGE: &str = "image";

/// The word to tell what a module says of itself.
pub(crate) const INFO: &str = "info";

/// The word to list a module's text.
pub(crate) const LIST: &str = "list";

/// The word to tell what a script says.
pub(crate) const SCRIPT: &str = "script";

/// The id of the address of an image.
pub(crate) const ADDRESS: &str = "ADDRESS";

/// The id of a file, or of several.
pub(crate) const FILE: &str = "FILE";

/// The id of the option that names what is written.
pub(crate) const OUTPUT: &str = "output";

/// The id of the flag for files that are no modules.
pub(crate) const RAW: &str = "raw";

/// The id of a module's source.
pub(crate) const SOURCE: &str = "SOURCE";

/// Makes an argument that has to be there.
fn required<'a>(alloc: Global, id: &'a str, help: &'a str) -> Arg<'a> {
    Arg::new(alloc, id)
        .required(true)
        .action(ArgAction::Set)
        .help(help)
}

/// Makes the option that names the file which is written.
fn output<'a>(alloc: Global) -> Arg<'a> {
    Arg::new(alloc, OUTPUT)
        .short('o')
        .long(OUTPUT)
        .value_name("FILE")
        .action(ArgAction::Set)
        .help("Write to this file, not to standard output")
}

/// Makes the command `irx as`.
fn as_command<'a>(alloc: Global) -> Result<Command<'a>, AllocError> {
    Command::new(alloc, AS)
        .about("Assemble a source, and write the module's file")
        .arg(required(alloc, SOURCE, "The source of a module"))?
        .arg(output(alloc))
}

/// Makes the command `irx check`.
fn check_command<'a>(alloc: Global) -> Result<Command<'a>, AllocError> {
    let files = Arg::new(alloc, FILE)
        .required(true)
        .num_args(1..)
        .action(ArgAction::Append)
        .help("The files that are checked");
    Command::new(alloc, CHECK)
        .about("Tell of each file whether it is a module, or which rule it breaks")
        .arg(files)
}

/// Makes the command `irx image`.
fn image_command<'a>(alloc: Global) -> Result<Command<'a>, AllocError> {
    let address = Arg::new(alloc, ADDRESS).action(ArgAction::Set).help(
        "Where it is to stand, decimal or 0x and hexadecimal; 0x10000 if left out",
    );
    Command::new(alloc, IMAGE)
        .about("Write a module's image as bytes, relocated for an address")
        .arg(required(alloc, FILE, "The file of a module"))?
        .arg(address)?
        .arg(output(alloc))
}

/// Makes the command `irx info`.
fn info_command<'a>(alloc: Global) -> Result<Command<'a>, AllocError> {
    Command::new(alloc, INFO)
        .about("Tell a module's name, sizes, libraries and relocation entries")
        .arg(required(alloc, FILE, "The file of a module"))
}

/// Makes the command `irx list`.
fn list_command<'a>(alloc: Global) -> Result<Command<'a>, AllocError> {
    let raw = Arg::new(alloc, RAW)
        .long(RAW)
        .action(ArgAction::SetTrue)
        .help("List each word of any file, from 0x10000 on");
    Command::new(alloc, LIST)
        .about("List a module's text: tables, instructions, relocation entries")
        .arg(required(alloc, FILE, "The file of a module"))?
        .arg(raw)
}

/// Makes the command `irx script`.
fn script_command<'a>(alloc: Global) -> Result<Command<'a>, AllocError> {
    Command::new(alloc, SCRIPT)
        .about("Tell what a script says, or which line of it is bad")
        .arg(required(alloc, FILE, "The file of a script"))
}

/// Makes the command with its six words.
pub(crate) fn irx_command<'a>(alloc: Global) -> Result<Command<'a>, AllocError> {
    Command::new(alloc, "irx")
        .bin_name("irx")?
        .about("Makes and examines module files (IRX) of the PlayStation 2's I/O processor")
        .subcommand_required(true)
        .arg_required_else_help(true)
        .subcommand(as_command(alloc)?)?
        .subcommand(check_command(alloc)?)?
        .subcommand(info_command(alloc)?)?
        .subcommand(list_command(alloc)?)?
        .subcommand(image_command(alloc)?)?
        .subcommand(script_command(alloc)?)
}
