//! Whether a machine that was put back from a snapshot can go on.

ghost use Rattle.std.specs.Prelude.{◌≡◌, ℕ, ◌+◌, ◌<◌, ◌≤◌, nat_le, ◌∷◌, length, MatchOption};
ghost use Rattle.std.specs.List.{list_all};
ghost use Rattle.iop_kernel.specs.Standing.{Holds};
ghost use Rattle.iop_kernel.specs.System.{Kernel as State};
ghost use Rattle.iop_machine.specs.Modules.{modules_from, strings};
ghost use Rattle.iop_machine.specs.declared.arguments.TheConstants.{MOST_WORD_BYTES};
ghost use Rattle.iop_machine.specs.Restoring.{may_have_taken, may_come, may_come_behind, has_room, left_in, may_be_left, may_go_on};
ghost use Rattle.iop_ready.specs.KernelReady.{KernelStands};
ghost use Rattle.iop_saved_machine.specs.Back.{MachineState};
ghost use Rattle.iop_saved_machine.specs.Restored.{HoldsMachine, loading_parts};
ghost use Rattle.iop_script.specs.Scripts.{words_for};
ghost use Rattle.iop_script.specs.declared.statements.TheConstants.{MOST_MODULES};

use crate::arguments::{MOST_WORD_BYTES, MOST_WORDS};
use crate::modules_left::words_for;
use crate::restored_loader::loader_may_go_on;
use crate::script_words::words_may_stand;
use crate::snapshots::SAVABLE_MOMENTS;
use iop_intr::IRQ_LINES;
use iop_kernel::Kernel;
use iop_modload::LONGEST_FILE;
use iop_ready::{KernelReady, Ready};
use iop_saved_checks::agrees;
use iop_saved_machine::{Loading, RestoredMachine};
use iop_saved_script::Module;
use iop_script::{Args, MOST_MODULES, Named, Raise, Word};
use iop_time::NEVER;

/// Says whether a machine that was put back can go on: its tables agree, and alarms and delays took
/// instructions; events can come, and modules can be left; its moment is one at which machines are
/// saved; no two lists of words are for one module; and its loader can go on.
pub(crate) fn may_go_on(made: &RestoredMachine<KernelReady>) -> bool
    ensures { (m : MachineState) → HoldsMachine KernelStands made.now m → result ≡ may_go_on m }
{
    agrees(&made.core.kernel, &made.guest)
        && may_have_taken(&made.core.kernel)
        && events_may_come(&made.loading.events)
        && may_be_left(&made.loading)
        && made.core.kernel.now() < SAVABLE_MOMENTS
        && words_may_stand(&made.loading)
        && loader_may_go_on(made)
}

/// Says whether each alarm and each delay can have taken an instruction.
fn may_have_taken<R: Ready>(kernel: &Kernel<R>) -> bool
    ensures { (k : State) → Holds R.stands kernel.now k → result ≡ may_have_taken k }
{
    kernel.timers.next_number() <= kernel.clock.saturating_add(1)
}

/// Says whether events can come, each not before the one in front of it.
fn events_may_come(events: &[Raise]) -> bool
    ensures { result ≡ may_come_behind 0 events.now }
{
    let mut last = 0;
    for event in events {
        if !may_come(event, last) {
            return false;
        }
        last = event.at;
    }
    true
}

/// Says whether an event can come, which is not before a moment.
fn may_come(event: &Raise, last: u64) -> bool
    ensures { result ≡ may_come last event.now }
{
    last <= event.at && event.at < NEVER && usize::from(event.line) < IRQ_LINES
}

/// Says whether these can be the modules that are left: their numbers are some, and each has room.
fn may_be_left(loading: &Loading) -> bool
    ensures { result ≡ may_be_left (left_in (loading_parts loading.now)) }
{
    loading.next >= 1
        && loading.modules.len() as u64 <= MOST_MODULES
        && u64::from(loading.next) + loading.modules.len() as u64 <= MOST_MODULES + 1
        && all_have_room(
            &loading.args,
            &loading.named,
            loading.next,
            &loading.modules,
        )
}

/// Says whether all modules have room, whose numbers begin at this one.
fn all_have_room(args: &[Args], named: &[Named], first: u32, modules: &[Module]) -> bool
    requires { first + length modules.now ≤ MOST_MODULES + 1 }
    ensures { result ≡ list_all has_room (modules_from args.now named.now first modules.now) }
{
    let mut number = first;
    for module in modules {
        let words = words_for(args, named, number, module.name.as_bytes());
        if !has_room(module, words) {
            return false;
        }
        number += 1;
    }
    true
}

/// Says whether the file of a module is not too long, and its words have room in the argument
/// block: its name and these.
fn has_room(module: &Module, words: &[Word]) -> bool
    ensures { (number : ℕ) → result ≡ has_room (record {
      number = number;
      words = module.now.name ∷ words.now;
      file = module.now.file;
    }) }
{
    module.file.len() <= LONGEST_FILE as usize
        && words.len() < MOST_WORDS
        && have_room(module.name.as_bytes(), words)
}

/// Says whether the argument block has room for the bytes of a word, and of these words behind it,
/// each with a zero byte.
fn have_room(first: &[u8], words: &[Word]) -> bool
    ensures { result ≡ nat_le (length (strings (first.now ∷ words.now))) MOST_WORD_BYTES }
{
    let Some(mut left) = room_behind(first, MOST_WORD_BYTES) else {
        return false;
    };
    for word in words {
        let Some(rest) = room_behind(&word.bytes, left) else {
            return false;
        };
        left = rest;
    }
    true
}

/// Tells how many of so many bytes are left behind a word and a zero byte. None exactly where these
/// are more.
fn room_behind(word: &[u8], room: usize) -> Option<usize>
    ensures { MatchOption result (room < length word.now + 1)
        (λ left. left + (length word.now + 1) ≡ room) }
{
    room.checked_sub(word.len())?.checked_sub(1)
}
