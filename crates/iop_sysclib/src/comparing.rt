//! The order of bytes.

ghost use Rattle.std.specs.Prelude.{◌≡◌};
ghost use Rattle.iop_sysclib.specs.MemoryCalls.{compared};

use std::cmp::Ordering;

/// Compares bytes by the first that are not equal, and answers -1, 0 or 1.
pub(crate) fn compared(a: &[u8], b: &[u8]) -> u32
    ensures { result ≡ compared a.now b.now }
{
    match a.cmp(b) {
        Ordering::Less => u32::MAX,
        Ordering::Equal => 0,
        Ordering::Greater => 1,
    }
}
