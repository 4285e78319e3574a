use crate::directive::Directive;
use iop_isa::Mnemonic;

/// What a line begins with.
#[derive(Clone, Copy)]
pub(crate) enum Keyword<'a> {
    /// A label, by its name.
    Label(&'a [u8]),
    /// A directive.
    Directive(Directive),
    /// The name of an instruction.
    Mnemonic(Mnemonic),
    /// The word 0.
    Nop,
}
