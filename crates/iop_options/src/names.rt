//! The names of files that the words give.

ghost use Rattle.std.specs.Prelude.{◌≡◌, option_map};
ghost use Rattle.std.specs.Option.{option_copied};
ghost use Rattle.iop_options.specs.Commands.{if_given};
ghost use Rattle.iop_options.specs.Values.{is_short_name, script_of, snapshot_of};

use crate::limits::LONGEST_WORD;

/// Tells whether a text is a name of 1 to `LONGEST_WORD` bytes.
pub(crate) fn is_short_name(text: &str) -> bool
    ensures { result ≡ is_short_name text.now }
{
    1 <= text.len() && text.len() <= LONGEST_WORD
}

/// Reads the name of a script's file, which is not empty.
pub(crate) fn script_of(value: Option<&str>) -> Option<Option<&str>>
    ensures { option_map option_copied result ≡ if_given script_of (option_copied value.entry) }
{
    match value {
        None => Some(None),
        Some(text) => (!text.is_empty()).then_some(Some(text)),
    }
}

/// Reads the name of a snapshot's file, of 1 to `LONGEST_WORD` bytes.
pub(crate) fn snapshot_of(value: Option<&str>) -> Option<Option<&str>>
    ensures { option_map option_copied result ≡ if_given snapshot_of (option_copied value.entry) }
{
    match value {
        None => Some(None),
        Some(text) => is_short_name(text).then_some(Some(text)),
    }
}
