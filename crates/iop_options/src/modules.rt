//! The words that name modules, and what may stand in their place.

ghost use Rattle.std.specs.Prelude.{◌≡◌, ◌&&◌, nat_le, length, map};
ghost use Rattle.std.specs.List.{list_all};
ghost use Rattle.std.specs.Option.{option_copied};
ghost use Rattle.iop_options.specs.Commands.{has_one_source, is_unmixed};
ghost use Rattle.iop_options.specs.Values.{is_short_name};

use crate::names::is_short_name;
use iop_script::MOST_MODULES;

/// Tells whether each word names a module: it has 1 to `LONGEST_WORD` bytes.
fn is_each_module(words: &[&str]) -> bool
    ensures { result ≡ list_all (λ word. is_short_name word.now) words.now }
{
    words.iter().all(|word| is_short_name(word))
}

/// Tells whether words name modules: each does, and they are 1 to `MOST_MODULES`.
fn are_modules(words: &[&str]) -> bool
    ensures { result ≡ (nat_le 1 (length words.now) && nat_le (length words.now) MOST_MODULES
        && list_all (λ word. is_short_name word.now) words.now) }
{
    1 <= words.len() && words.len() <= MOST_MODULES as usize && is_each_module(words)
}

/// Tells whether a command has one thing to run: modules, or a generated one, or what a snapshot
/// holds.
pub(crate) fn has_one_source(workers: Option<u32>, restore: Option<&str>, words: &[&str]) -> bool
    ensures { result ≡ has_one_source workers (option_copied restore.entry)
        (map (λ word. word.now) words.now) }
{
    match (workers, restore) {
        (None, None) => are_modules(words),
        (None, Some(_)) | (Some(_), None) => words.is_empty(),
        (Some(_), Some(_)) => false,
    }
}

/// Tells whether neither `--script` nor `--ram` stands beside `--restore`.
pub(crate) fn is_unmixed(restore: Option<&str>, script: Option<&str>, ram: Option<&str>) -> bool
    ensures { result ≡ is_unmixed (option_copied restore.entry) (option_copied script.entry)
        (option_copied ram.entry) }
{
    match restore {
        None => true,
        Some(_) => script.is_none() && ram.is_none(),
    }
}
