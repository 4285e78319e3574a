//! What a line begins with.

ghost use Rattle.std.specs.Option.{option_copied};
ghost use Rattle.std.specs.Prelude.{◌≡◌, option_map};
ghost use Rattle.iop_asm.specs.StatementFields.{keyword};
ghost use Rattle.iop_asm.specs.Statements.{directive_of, keyword_of, label_of};

use crate::directive::Directive;
use crate::keyword::Keyword;
use crate::texts::{before, symbol_of};
use iop_base::before_zero;
use iop_isa::mnemonic_of;

/// The words of the directives, each of eight bytes and filled up with zeros.
pub(crate) const DIRECTIVES: [([u8; 8], Directive); 13] = [
    (*b".name\0\0\0", Directive::Name),
    (*b".version", Directive::Version),
    (*b".entry\0\0", Directive::Entry),
    (*b".bss\0\0\0\0", Directive::Bss),
    (*b".text\0\0\0", Directive::Text),
    (*b".data\0\0\0", Directive::Data),
    (*b".import\0", Directive::Import),
    (*b".fn\0\0\0\0\0", Directive::Function),
    (*b".endi\0\0\0", Directive::EndImport),
    (*b".export\0", Directive::Export),
    (*b".ende\0\0\0", Directive::EndExport),
    (*b".word\0\0\0", Directive::Word),
    (*b".asciz\0\0", Directive::String),
];

/// Gives the name of a label: the colon behind it taken off. None where the word is no label.
#[tactic(auto, unfolding(crate::specs::Statements::label_of))]
pub(crate) fn label_of(word: &[u8]) -> Option<&[u8]>
    ensures { option_copied result ≡ label_of word.now }
{
    symbol_of(before(b":", word)?)
}

/// Gives the directive of a word. None where the word is no directive.
#[tactic(auto, unfolding(crate::specs::Statements::directive_of))]
pub(crate) fn directive_of(word: &[u8]) -> Option<Directive>
    ensures { result ≡ directive_of word.now }
{
    let entry = DIRECTIVES
        .iter()
        .find(|entry| before_zero(&entry.0) == word);
    Some(entry?.1)
}

/// Reads the word that a line begins with. None where it begins with no word of the language.
#[tactic(auto, unfolding(crate::specs::Statements::keyword_of))]
pub(crate) fn keyword_of(word: &[u8]) -> Option<Keyword<'_>>
    ensures { option_map keyword result ≡ keyword_of word.now }
{
    if let Some(name) = label_of(word) {
        return Some(Keyword::Label(name));
    }
    if let Some(directive) = directive_of(word) {
        return Some(Keyword::Directive(directive));
    }
    if word == b"nop".as_slice() {
        return Some(Keyword::Nop);
    }
    Some(Keyword::Mnemonic(mnemonic_of(word)?))
}
