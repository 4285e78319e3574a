ghost use Rattle.std.specs.Prelude.{◌≡◌, Bool};
ghost use Rattle.iop_event.specs.WakeConditions.{holds, pattern_after};

/// The bit of a mode that asks for one of the bits, and not for all (ps2sdk: thevent.h, `WEF_OR`).
pub const EITHER: u32 = 1;

/// The bit of a mode that clears the pattern once the condition holds (ps2sdk: thevent.h,
/// `WEF_CLEAR`).
pub const CLEAR: u32 = 0x10;

/// The condition for which a thread waits.
#[derive(Clone, Copy, Debug, Drop, PartialEq, Eq)]
pub struct Wanted {
    /// The bits that are asked for.
    pub bits: u32,
    /// Its mode, of which `EITHER` and `CLEAR` are looked at.
    pub mode: u32,
    /// The guest's address where the pattern is written then: 0 for none.
    pub place: u32,
}

/// Says whether the condition on bits, by a mode, holds of a pattern.
pub fn holds(bits: u32, mode: u32, pattern: u32) -> bool
    ensures { result ≡ holds bits mode pattern }
{
    if mode & EITHER != 0 {
        pattern & bits != 0
    } else {
        pattern & bits == bits
    }
}

/// Makes the pattern that is left once a condition of a mode held of it.
pub(crate) fn pattern_after(mode: u32, pattern: u32) -> u32
    ensures { result ≡ pattern_after mode pattern }
{
    if mode & CLEAR != 0 { 0 } else { pattern }
}
