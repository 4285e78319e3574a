ghost use Rattle.std.specs.Prelude.{◌≡◌, ◌%◌, None, Some, IfOk, IfErr, IfSome, OnOk, MatchOption, length, [], ◌∷◌, slice_index_or};
ghost use Rattle.irx_elf.specs.Rules.{section_rules, first_unmet, TellsUnmet};
ghost use Rattle.irx_elf.specs.Parts.{lists_of};

use crate::irx_file::IrxFile;
use crate::section_table::SectionTable;
use iop_base::Illegal;
use std::marker::Model;

/// The relocation entries of an IRX file, lent from its bytes: a list for each section header of
/// type 9 (`SHT_REL`), in order. An entry has 8 bytes, the words `r_offset` and `r_info` (ELF TIS
/// 1.2).
#[derive(Drop)]
pub struct Relocations<'a> {
    table: SectionTable<'a>,
}

impl<'a> Model for Relocations<'a> {
    ghost use Rattle.std.specs.Prelude.{◌≡◌, ℕ, None, List};
    ghost use Rattle.irx_elf.specs.Rules.{section_rules, first_unmet};
    ghost use Rattle.irx_elf.specs.Parts.{lists_of};

    ghost Value = { List (List ℕ) };

    ghost view = { λ lists. lists_of lists.table.file.bytes.now };

    ghost invariant = { λ lists. first_unmet (section_rules lists.table.file.bytes.now) ≡ None };
}

impl<'a> Relocations<'a> {
    /// Reads the section headers of a file: rules 11 and 12.
    #[tactic(auto, unfolding(crate::specs::Rules::section_rules))]
    pub(crate) fn read(file: &IrxFile<'a>) -> Result<Self, Illegal>
        ensures unmet { TellsUnmet (section_rules file.now.bytes.now) result }
        ensures lists { IfOk result (λ lists. lists ≡ lists_of file.now.bytes.now) }
    {
        let table = SectionTable::new(file).ok_or(Illegal { rule: 11, at: 46 })?;
        table.check()?;
        Ok(Relocations { table })
    }

    /// Lends the same lists once more.
    pub(crate) fn again(&self) -> Relocations<'a>
        ensures { result ≡ self.now }
    {
        Relocations { table: self.table }
    }

    /// Counts the lists, of which there are at most 65,535.
    pub fn sections(&self) -> u32
        ensures { result ≡ length self.now }
    {
        self.table.count_relocations()
    }

    /// Gives all lists, to be walked in order.
    pub fn lists(&self) -> Lists<'a>
        ensures { result ≡ self.now }
    {
        Lists {
            table: self.table,
            number: 0,
        }
    }

    /// Lends the entries of list `k`, 8 bytes each. None are given past the lists, and where they
    /// are not applied: where `sh_info` is not 0 and names a section without the flag `SHF_ALLOC`.
    ///
    /// Each call goes over the section headers from the first on, while a walk over `lists` goes
    /// over them once for all lists.
    pub fn list(&self, k: u32) -> &'a [u8]
        ensures entries { result.now ≡ slice_index_or self.now k [] }
        ensures whole { length result.now % 8 ≡ 0 }
    {
        match self.table.find_relocations(k) {
            Some(section) => self.table.list(&section),
            None => &[],
        }
    }
}

/// The lists of relocation entries that are still to be given, in order.
#[derive(Drop)]
pub struct Lists<'a> {
    table: SectionTable<'a>,
    /// The number of the section header that comes next.
    number: u32,
}

impl<'a> Model for Lists<'a> {
    ghost use Rattle.std.specs.Prelude.{◌≡◌, ℕ, None, List};
    ghost use Rattle.irx_elf.specs.Rules.{section_rules, first_unmet};
    ghost use Rattle.irx_elf.specs.Parts.{lists_from};

    ghost Value = { List (List ℕ) };

    ghost view = { λ lists. lists_from lists.table.file.bytes.now lists.number };

    ghost invariant = { λ lists. first_unmet (section_rules lists.table.file.bytes.now) ≡ None };
}

impl<'a> Lists<'a> {
    /// Gives the next list, with the entries that `Relocations::list` lends; `None` behind the
    /// last. A whole walk goes over the section headers once, and looks again at those that an
    /// `sh_info` names.
    pub fn next(&mut self) -> Option<&'a [u8]>
        ensures next { MatchOption result ((self.old ≡ []) × (self.new ≡ []))
            (λ list. self.old ≡ list.now ∷ self.new) }
        ensures whole { IfSome result (λ list. length list.now % 8 ≡ 0) }
    {
        let table = self.table;
        while self.number < table.count() {
            let section = table.section(self.number);
            self.number += 1;
            if section.is_relocations() {
                return Some(table.list(&section));
            }
        }
        None
    }
}
