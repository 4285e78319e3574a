use crate::dump_range::DumpRange;
use crate::ram_size::RamSize;
use std::marker::Model;

/// What the words of a command choose. Either it names modules, or it generates one, or it goes on
/// from a snapshot.
#[derive(Debug, Drop)]
pub struct Options {
    /// How many instructions the run may execute: at most `MOST_BUDGET`.
    pub budget: u64,
    /// The name of the script's file, if there is one: a byte at least. None beside `restore`.
    pub script: Option<String>,
    /// The range that is dumped at the end, if there is one: wholly inside RAM of the size `ram`.
    pub dump: Option<DumpRange>,
    /// How much memory the machine has: 2 MiB beside `restore`, where the snapshot decides it.
    pub ram: RamSize,
    /// How many workers the generated module has, if one is generated: 1 to `MOST_WORKERS`.
    pub generate: Option<u32>,
    /// The name of the file that a snapshot is written to, if one is: 1 to `LONGEST_WORD` bytes.
    pub save: Option<String>,
    /// The name of the snapshot's file that the run goes on from, if it does: 1 to `LONGEST_WORD`
    /// bytes. None where a module is generated.
    pub restore: Option<String>,
    /// The names of the modules' files, in order: 1 to `MOST_MODULES`, each of 1 to `LONGEST_WORD`
    /// bytes. None where a module is generated, or beside `restore`.
    pub modules: Vec<String>,
}

impl Model for Options {
    ghost use Rattle.iop_options.specs.Commands.{Command, IsCommand};

    ghost Value = { Command };

    ghost use Rattle.iop_options.specs.Held.{command_held};

    ghost view = { command_held };

    ghost invariant = { λ o. IsCommand (command_held o) };
}
