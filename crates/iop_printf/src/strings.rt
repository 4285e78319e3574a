//! The strings that formats name.

ghost use Rattle.std.specs.Prelude.{◌≡◌, ◌≤◌, length, take};
ghost use Rattle.iop_printf.specs.Texts.{string_at, string_or_null};

use iop_base::before_zero;
use iop_ram::{Ram, physical};

/// The string at an address, of which at most so many bytes are read: those before the first zero
/// byte or before RAM's end. There is none at an address outside RAM.
#[tactic(auto, unfolding(crate::specs::Texts::string_at))]
pub fn string_at(ram: &Ram, at: u32, most: u32) -> &[u8]
    ensures text { result.now ≡ take most (string_at ram.now at) }
    ensures short { length result.now ≤ most }
{
    let size = ram.size();
    let Some(place) = physical(at, size) else {
        return &[];
    };
    let len = (size - place).min(most);
    match ram.window(at, len) {
        Some(bytes) => before_zero(bytes),
        None => &[],
    }
}

/// The string of a conversion, at most so many bytes of it; that of address 0 is `(null)`.
#[tactic(auto, unfolding(crate::specs::Texts::string_or_null))]
pub(crate) fn string_or_null(ram: &Ram, at: u32, most: u32) -> &[u8]
    ensures text { result.now ≡ take most (string_or_null ram.now at) }
    ensures short { length result.now ≤ most }
{
    if at == 0 {
        let null = b"(null)";
        return &null[..null.len().min(most as usize)];
    }
    string_at(ram, at, most)
}
