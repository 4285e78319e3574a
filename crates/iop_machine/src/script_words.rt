//! Whether the words for modules, and the names of those that are left, can be those of a machine
//! that was put back.

ghost use Rattle.std.specs.Prelude.{◌≡◌};
ghost use Rattle.std.specs.List.{list_all};
ghost use Rattle.iop_machine.specs.ScriptWords.{has_name, has_number, has_short_name, names_differ, numbers_differ, words_may_stand};
ghost use Rattle.iop_saved_machine.specs.Restored.{loading_parts};

use iop_saved_machine::Loading;
use iop_saved_script::Module;
use iop_script::{Args, Named};

/// The most bytes that the name of a module has.
pub(crate) const LONGEST_NAME: usize = 255;

/// Says whether there is one list of words at most for each number of a module and each name, and
/// no module that is left has a name that is too long.
pub(crate) fn words_may_stand(loading: &Loading) -> bool
    ensures { result ≡ words_may_stand (loading_parts loading.now) }
{
    numbers_differ(&loading.args)
        && names_differ(&loading.named)
        && have_short_names(&loading.modules)
}

/// Says whether the name of each of these modules is not too long.
fn have_short_names(modules: &[Module]) -> bool
    ensures { result ≡ list_all has_short_name modules.now }
{
    modules.iter().all(has_short_name)
}

/// Says whether the name of a module is not too long.
fn has_short_name(module: &Module) -> bool
    ensures { result ≡ has_short_name module.now }
{
    module.name.as_bytes().len() <= LONGEST_NAME
}

/// Says whether no two lists of words are for one number.
fn numbers_differ(args: &[Args]) -> bool
    ensures { result ≡ numbers_differ args.now }
{
    for (place, first) in args.iter().enumerate() {
        if has_number(&args[place + 1..], first.module) {
            return false;
        }
    }
    true
}

/// Says whether some of these words are for the module of a number.
fn has_number(args: &[Args], number: u32) -> bool
    ensures { result ≡ has_number number args.now }
{
    args.iter().any(|args| args.module == number)
}

/// Says whether no two lists of words are for one name.
fn names_differ(named: &[Named]) -> bool
    ensures { result ≡ names_differ named.now }
{
    for (place, first) in named.iter().enumerate() {
        if has_name(&named[place + 1..], &first.name) {
            return false;
        }
    }
    true
}

/// Says whether some of these words are for a name.
fn has_name(named: &[Named], name: &[u8]) -> bool
    ensures { result ≡ has_name name.now named.now }
{
    named.iter().any(|named| named.name.as_slice() == name)
}
