//! Places of words that a service reads or writes.

ghost use Rattle.std.specs.Prelude.{◌≡◌, ◌+◌, ◌*◌, ◌%◌, ◌^◌, ◌<◌, ◌≤◌, IfSome, length};
ghost use Rattle.iop_kernel.specs.Boards.{optional_place, place_of_word, word_in};
ghost use Rattle.iop_base.specs.Places.{IsRamSize};
ghost use Rattle.iop_kernel.specs.System.{words_place};

use iop_ram::physical;
use iop_stubs::Guest;
use irx_tables::word;

/// Finds the physical place of so many words. None exactly where the address is not a multiple of
/// 4, or they are not wholly in RAM.
pub(crate) fn words_place(guest: &Guest, at: u32, count: u32) -> Option<u32>
    requires few { 4 * count < 2 ^ 32 }
    ensures place { result ≡ words_place guest.now at count }
    ensures aligned { IfSome result (λ place. place % 4 ≡ 0) }
    ensures inside { IfSome result (λ place. place + 4 * count ≤ length guest.now.ram) }
    ensures sized { IsRamSize (length guest.now.ram) }
{
    let ram = guest.ram();
    if at % 4 != 0 || !ram.contains(at, 4 * count) {
        return None;
    }
    physical(at, ram.size())
}

/// Finds the physical place of a word. None exactly where the address is 0 or no multiple of 4, or
/// the word is not wholly in RAM.
pub(crate) fn place_of_word(guest: &Guest, at: u32) -> Option<u32>
    ensures place { result ≡ place_of_word guest.now at }
    ensures inside { IfSome result (λ place. place + 4 ≤ length guest.now.ram) }
    ensures sized { IsRamSize (length guest.now.ram) }
{
    let place = words_place(guest, at, 1);
    if at == 0 { None } else { place }
}

/// Finds the physical place of a word, where the address 0 stands for none. None exactly where the
/// address is another and not a multiple of 4, or the word is not wholly in RAM.
pub(crate) fn optional_place(guest: &Guest, at: u32) -> Option<Option<u32>>
    ensures place { result ≡ optional_place guest.now at }
    ensures inside { IfSome result
        (λ place. IfSome place (λ place. place + 4 ≤ length guest.now.ram)) }
    ensures sized { IsRamSize (length guest.now.ram) }
{
    let place = words_place(guest, at, 1);
    if at == 0 {
        return Some(None);
    }
    place.map(Some)
}

/// Reads word `index` of those that stand at a physical place, a multiple of 4, where it lies in
/// RAM.
#[tactic(auto, unfolding(iop_base::specs::Numbers::word_at))]
pub(crate) fn word_in(guest: &Guest, place: u32, index: u32) -> u32
    requires aligned { place % 4 ≡ 0 }
    requires inside { place + 4 * index + 4 ≤ length guest.now.ram }
    requires sized { IsRamSize (length guest.now.ram) }
    ensures { result ≡ word_in guest.now place index }
{
    word(guest.ram(), place + 4 * index)
}
