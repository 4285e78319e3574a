//! The program `irx`: a tool for the files of modules. It makes one of a source (`as`), tells
//! whether files are modules (`check`) and what one says of itself (`info`), lists its text
//! (`list`), and relocates its image (`image`). Of a script it tells what it says, or which line is
//! bad (`script`). `docs/FORMATS.md` has what each command writes.
//!
//! Where it cannot, it writes a line to standard error and ends with status 1; `check` ends with
//! status 2 there, since 1 is its answer of a file that is no module. `script` ends with status 2
//! for a file that is no script. Where the words are no command, the tool writes how they are to be,
//! and ends with status 2.
#![tactic(auto)]

mod action;
mod command;
mod files;
mod making;
mod numbers;
mod scripts;
mod viewing;

use action::{Action, action_of};
use anyhow::Result;
use command::irx_command;
use making::{write_image, write_module};
use scripts::check_script;
use std::env;
use std::process::ExitCode;
use viewing::{check_files, list_module, list_words, write_info};

/// Does what the words ask for.
fn perform(rt: &HostRuntime, action: Action<'_, '_>) -> Result<ExitCode> {
    match action {
        Action::Assemble { source, output } => write_module(rt, source, output)?,
        Action::Check { files } => return check_files(rt, files),
        Action::Image { file, base, output } => write_image(rt, file, base, output)?,
        Action::Info { file } => write_info(rt, file)?,
        Action::List { file } => list_module(rt, file)?,
        Action::ListWords { file } => list_words(rt, file)?,
        Action::Script { file } => return check_script(rt, file),
    }
    Ok(ExitCode::SUCCESS)
}

fn main(rt: HostRuntime) -> Result<ExitCode> {
    let alloc = rt.alloc();
    let words: Vec<String> = env::args(&rt)?.collect(alloc)?;
    match irx_command(alloc)?.try_get_matches_from(words.as_slice()) {
        Ok(matches) => perform(&rt, action_of(&matches)?),
        Err(error) => {
            error.print(&rt)?;
            Ok(ExitCode::from(if error.use_stderr() { 2 } else { 0 }))
        }
    }
}
