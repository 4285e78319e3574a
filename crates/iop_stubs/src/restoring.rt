//! How a stub is put back.

ghost use Rattle.std.specs.Prelude.{◌≡◌, ◌+◌, ◌%◌, ◌^◌, ◌≤◌, if◌then◌else◌, length};
ghost use Rattle.iop_base.specs.Numbers.{number_at};
ghost use Rattle.iop_stubs.specs.Binding.{IsSound};
ghost use Rattle.iop_stubs.specs.Restoring.{is_bound, stub_may_follow, with_last_stub};

use crate::guest_memory::Guest;
use crate::live_stub::Stub;
use iop_base::STUB_INDEX;
use iop_ram::Ram;

impl Guest {
    /// Puts a stub back behind those that are live: RAM has its two words already. Of them the
    /// last alone is compared with it.
    ///
    /// False, and no change, exactly where `Stub::MOST_LIVE` are live, where a live stub ends
    /// behind its place, where its place or its target is not a multiple of 4, where its 8 bytes
    /// are not in RAM or its target is not below 2^28, or where RAM does not have the jump to its
    /// target at its place and `STUB_INDEX` + its index behind it.
    pub fn put_back(&mut self, stub: Stub) -> bool
        ensures may { result ≡ stub_may_follow self.old stub }
        ensures put { self.new ≡ if result then with_last_stub self.old stub else self.old }
        ensures was_sound { IsSound self.old }
        ensures sound { IsSound self.new }
    {
        if !self.may_follow(stub) {
            return false;
        }
        self.live.insert(stub);
        true
    }

    /// Tells whether a stub may be put back.
    fn may_follow(&self, stub: Stub) -> bool
        ensures { result ≡ stub_may_follow self.now stub }
    {
        self.live.has_room_behind(stub.at) && is_bound(&self.ram, stub)
    }
}

/// Reads a word.
fn load_word(ram: &Ram, place: u32) -> u32
    requires aligned { place % 4 ≡ 0 }
    requires inside { place + 4 ≤ length ram.now }
    requires sized { length ram.now ≤ 2 ^ 29 }
    ensures { result ≡ number_at ram.now place 4 }
{
    ram.load32(place).unwrap()
}

/// Tells whether a stub's two words in RAM are the jump to its target and its index.
fn is_bound(ram: &Ram, stub: Stub) -> bool
    ensures { result ≡ is_bound ram.now stub }
{
    if !stub.is_placed(ram.size()) {
        return false;
    }
    load_word(ram, stub.at) == Stub::JUMP_WORD + stub.target / 4
        && load_word(ram, stub.at + 4) == STUB_INDEX + u32::from(stub.index)
}
