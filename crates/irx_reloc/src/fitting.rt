ghost use Rattle.std.specs.Prelude.{◌≡◌, Some, None, IfOk, MatchResult};
ghost use Rattle.irx_reloc.specs.Entries.{entries_of, all_entries};
ghost use Rattle.irx_reloc.specs.Fitting.{is_site, broken_rule, section_misfit, misfit, fitting_entries};
ghost use Rattle.irx_reloc.specs.Walking.{pair_of};

use crate::entry::Entry;
use crate::kind::Kind;
use crate::low_halves::low_behind;
use iop_base::Illegal;
use irx_elf::Relocations;
use std::marker::Model;

/// The rule that the word at an entry's site lies in the image, at a multiple of 4.
const SITE_RULE: u8 = 13;

/// The rule that an entry has one of the five types.
const TYPE_RULE: u8 = 14;

/// The rule that a HI16 has a later LO16 in its section.
const PAIR_RULE: u8 = 15;

/// The relocation entries of a module, which fit an image of a length.
#[derive(Drop)]
pub struct Checked<'a> {
    image_length: u32,
    relocations: Relocations<'a>,
}

impl<'a> Model for Checked<'a> {
    ghost use Rattle.std.specs.Prelude.{◌≡◌, None};
    ghost use Rattle.irx_reloc.specs.Entries.{all_entries};
    ghost use Rattle.irx_reloc.specs.Fitting.{FittingEntries, misfit};

    ghost Value = { FittingEntries };

    ghost view = { λ checked. record {
      image_length = checked.image_length;
      sections = all_entries checked.relocations;
    } };

    ghost invariant = { λ checked.
        misfit checked.image_length (all_entries checked.relocations) ≡ None };
}

impl<'a> Checked<'a> {
    /// Tells the length of an image that they fit, in bytes.
    pub fn image_length(&self) -> u32
        ensures { result ≡ self.now.image_length }
    {
        self.image_length
    }

    /// Lends the sections of entries.
    pub(crate) fn relocations(&self) -> &Relocations<'a>
        ensures sections { all_entries result.now ≡ self.now.sections }
        ensures fits { misfit self.now.image_length self.now.sections ≡ None }
    {
        &self.relocations
    }
}

/// Tells whether a word at this place lies in the image, at a multiple of 4.
fn is_site(length: u32, site: u32) -> bool
    ensures { result ≡ is_site length site }
{
    site % 4 == 0 && u64::from(site) + 4 <= u64::from(length)
}

/// Finds the first rule that an entry breaks. `has_low` says whether a LO16 comes later in its
/// section.
#[tactic(auto, unfolding(crate::specs::Fitting::broken_rule))]
fn broken_rule(length: u32, entry: Entry, has_low: bool) -> Option<u8>
    ensures { result ≡ broken_rule length (pair_of entry) has_low }
{
    match entry.kind {
        Kind::Nothing => None,
        _ if !is_site(length, entry.site) => Some(SITE_RULE),
        Kind::Other(_) => Some(TYPE_RULE),
        Kind::High if !has_low => Some(PAIR_RULE),
        _ => None,
    }
}

/// Finds the first entry of a section that breaks a rule.
fn section_misfit(length: u32, section: &[u8]) -> Option<Illegal>
    ensures { result ≡ section_misfit length (entries_of section.now) }
{
    let count = Entry::count(section);
    let mut next_low = 0;
    for index in 0..count {
        let entry = Entry::read(section, index);
        next_low = low_behind(section, index, next_low);
        if let Some(rule) = broken_rule(length, entry, next_low < count) {
            return Some(Illegal {
                rule,
                at: entry.site,
            });
        }
    }
    None
}

/// Finds the first entry of all sections that breaks a rule.
fn misfit(length: u32, relocations: &Relocations<'_>) -> Option<Illegal>
    ensures { result ≡ misfit length (all_entries relocations.now) }
{
    let mut lists = relocations.lists();
    while let Some(section) = lists.next() {
        if let Some(illegal) = section_misfit(length, section) {
            return Some(illegal);
        }
    }
    None
}

/// Checks that the relocation entries of a module fit an image of `length` bytes.
///
/// `Illegal` exactly where an entry breaks a rule, with the first rule that the first such entry
/// breaks, in order of section and of entry, and with its site, a place in the image, as `at`:
/// - 13: the site is a multiple of 4, and its four bytes lie in the image.
/// - 14: the type is R_MIPS_NONE (0), R_MIPS_32 (2), R_MIPS_26 (4), R_MIPS_HI16 (5) or R_MIPS_LO16
///   (6).
/// - 15: behind a HI16 stands a LO16 in its section.
///
/// The site of an entry of type 0 is not looked at. The types are those of the System V ABI's MIPS
/// supplement, the rules this project's profile. It costs one look at each entry, and one more in
/// search of the LO16 entries, however many HI16 there are.
pub fn check<'a>(length: u32, relocations: Relocations<'a>) -> Result<Checked<'a>, Illegal>
    ensures checked { IfOk result (λ checked.
        checked ≡ fitting_entries length (all_entries relocations.entry)) }
    ensures misfit { let found = misfit length (all_entries relocations.entry) in
        MatchResult result (λ checked. found ≡ None) (λ illegal. found ≡ Some illegal) }
{
    match misfit(length, &relocations) {
        Some(illegal) => Err(illegal),
        None => Ok(Checked {
            image_length: length,
            relocations,
        }),
    }
}
