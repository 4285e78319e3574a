ghost use Rattle.std.specs.Prelude.{◌≡◌, ◌≤◌, All, length, map, string_bytes};
ghost use Rattle.iop_options.specs.declared.limits.TheConstants.{LONGEST_WORD};
ghost use Rattle.iop_script.specs.declared.statements.TheConstants.{MOST_MODULES};

use iop_options::Options;

/// The word of a command that names a module's file.
#[derive(Clone, Copy, Debug)]
pub(crate) struct ModuleWord<'a> {
    pub(crate) text: &'a str,
    ghost short: { length text.now ≤ LONGEST_WORD },
}

/// The words of a command that name modules' files.
#[derive(Clone, Copy, Debug)]
pub(crate) struct ModuleWords<'a> {
    pub(crate) texts: &'a [String],
    ghost few: { length texts.now ≤ MOST_MODULES },
    ghost short: { All (λ text. length (string_bytes text) ≤ LONGEST_WORD) texts.now },
}

impl<'a> ModuleWords<'a> {
    /// Lends the words of a command; there are none where a module is generated.
    pub(crate) fn of(options: &'a Options) -> Self
        ensures { map string_bytes result.texts.now ≡ options.now.modules }
    {
        ModuleWords {
            texts: &options.modules,
        }
    }
}
