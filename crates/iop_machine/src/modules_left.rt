//! The modules that were not loaded yet.

ghost use Rattle.std.specs.Prelude.{◌≡◌, ◌+◌, ◌≤◌, [], All, IfSome, option_map, unwrap_or, drop, length};
ghost use Rattle.std.specs.List.{slice_get};
ghost use Rattle.iop_script.specs.Scripts.{words_of_number, words_of_name, words_for};
ghost use Rattle.iop_machine.specs.Modules.{modules_from, modules_of, without_first, HasRoom};
ghost use Rattle.iop_machine.specs.ModulesLeft.{module_of, ArgsHaveCounts, NamedHaveCounts, FilesHaveCounts};
ghost use Rattle.iop_script.specs.declared.statements.TheConstants.{MOST_MODULES};

use iop_saved_script::Module;
use iop_script::{Args, Named, Word};
use std::marker::Model;

/// A module that is to be loaded, with the words that it is handed.
#[derive(Clone, Copy, Debug)]
pub(crate) struct Next<'a> {
    /// Its number, from 1 on.
    pub number: u32,
    /// Its own word of the command line, which is handed first.
    pub name: &'a str,
    /// The words of the script behind it.
    pub words: &'a [Word],
    /// The bytes of its file.
    pub file: &'a [u8],
}

/// The modules of a machine that were not loaded yet, in order.
#[derive(Drop)]
pub(crate) struct ModulesLeft {
    modules: Vec<Module>,
    args: Vec<Args>,
    named: Vec<Named>,
    /// The number of the first of `modules`.
    first_number: u32,
    /// How many modules were taken.
    taken: usize,
}

impl Model for ModulesLeft {
    ghost use Rattle.iop_machine.specs.Modules.{ModulesLeft as Left};
    ghost use Rattle.iop_machine.specs.ModulesLeft.{modules_left, AreLeft};

    ghost Value = { Left };

    ghost view = { modules_left };

    ghost invariant = { AreLeft };
}

/// Finds the words that the script has for a module's name: none where it has no line for it.
fn words_of_name<'a>(named: &'a [Named], name: &[u8]) -> &'a [Word]
    ensures { result.now ≡ unwrap_or (words_of_name named.now name.now) [] }
{
    match named.iter().find(|named| named.name.as_slice() == name) {
        Some(named) => &named.words,
        None => &[],
    }
}

/// Finds the words that the script has for a module's number: others where it has no line for it.
fn words_of_number<'a>(args: &'a [Args], number: u32, others: &'a [Word]) -> &'a [Word]
    ensures { result.now ≡ unwrap_or (words_of_number args.now number) others.now }
{
    match args.iter().find(|args| args.module == number) {
        Some(args) => &args.words,
        None => others,
    }
}

/// Finds the words that the script has for a module: those of its number, else those of its name,
/// else none.
pub(crate) fn words_for<'a>(
    args: &'a [Args],
    named: &'a [Named],
    number: u32,
    name: &[u8],
) -> &'a [Word]
    ensures { result.now ≡ words_for args.now named.now number name.now }
{
    words_of_number(args, number, words_of_name(named, name))
}

impl ModulesLeft {
    /// Makes them of modules, whose numbers begin at this one, and of the words that the script has
    /// for modules, by their numbers and by their names.
    pub(crate) fn new(
        first_number: u32,
        modules: Vec<Module>,
        args: Vec<Args>,
        named: Vec<Named>,
    ) -> Self
        requires room { All HasRoom
            (modules_from args.items named.items first_number modules.items) }
        requires args { ArgsHaveCounts args.items }
        requires named { NamedHaveCounts named.items }
        requires number { 1 ≤ first_number }
        requires few { first_number + length modules.items ≤ MOST_MODULES + 1 }
        ensures { result ≡ record {
          args = args.items;
          named = named.items;
          next = first_number;
          files = modules.items;
        } }
    {
        ModulesLeft {
            modules,
            args,
            named,
            first_number,
            taken: 0,
        }
    }

    /// Lends the words that the script has for modules by their numbers.
    pub(crate) fn words_by_number(&self) -> &[Args]
        ensures words { result.now ≡ self.now.args }
        ensures short { ArgsHaveCounts result.now }
    {
        &self.args
    }

    /// Lends the words that the script has for modules by their names.
    pub(crate) fn words_by_name(&self) -> &[Named]
        ensures words { result.now ≡ self.now.named }
        ensures short { NamedHaveCounts result.now }
    {
        &self.named
    }

    /// Tells the number of the module that is loaded next, from 1 on. No module that is left has
    /// one behind `MOST_MODULES`.
    pub(crate) fn next_number(&self) -> u32
        ensures number { result ≡ self.now.next }
        ensures some { 1 ≤ result }
        ensures few { result + length self.now.files ≤ MOST_MODULES + 1 }
    {
        self.first_number + self.taken as u32
    }

    /// Lends the modules that are left, in order.
    pub(crate) fn files(&self) -> &[Module]
        ensures files { result.now ≡ self.now.files }
        ensures short { FilesHaveCounts result.now }
        ensures room { All HasRoom (modules_of self.now) }
    {
        &self.modules[self.taken..]
    }

    /// Lends the module that is loaded next.
    pub(crate) fn first(&self) -> Option<Next<'_>>
        ensures module { option_map module_of result ≡ slice_get (modules_of self.now) 0 }
        ensures room { IfSome result (λ next. HasRoom (module_of next)) }
    {
        let module = self.files().first()?;
        let number = self.next_number();
        let by_number = self.words_by_number();
        let words = words_for(
            by_number,
            self.words_by_name(),
            number,
            module.name.as_bytes(),
        );
        Some(Next {
            number,
            name: module.name.as_str(),
            words,
            file: &module.file,
        })
    }

    /// Takes the next module out.
    pub(crate) fn take_first(&mut self)
        ensures taken { self.new ≡ without_first self.old }
        ensures rest { modules_of self.new ≡ drop 1 (modules_of self.old) }
    {
        if self.taken < self.modules.len() {
            self.taken += 1;
        }
    }
}
