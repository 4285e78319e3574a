//! Addresses of bytes that are looked for.

ghost use Rattle.std.specs.Prelude.{◌≡◌, ◌<◌, ◌^◌, IfSome, length, position};
ghost use Rattle.iop_sysclib.specs.MemoryCalls.{is_byte};
ghost use Rattle.iop_sysclib.specs.Outcomes.{address_or_zero};

/// Finds the first byte that is the low byte of a word.
pub(crate) fn first_place(bytes: &[u8], wanted: u32) -> Option<usize>
    ensures first { result ≡ position (is_byte wanted) bytes.now }
    ensures inside { IfSome result (λ index. index < length bytes.now) }
{
    let wanted = (wanted % 256) as u8;
    bytes.iter().position(|byte| *byte == wanted)
}

/// Answers the address of a byte by its index behind another; 0 where there is none.
pub(crate) fn address_or_zero(at: u32, index: Option<usize>) -> u32
    requires { IfSome index (λ index. index < 2 ^ 32) }
    ensures { result ≡ address_or_zero at index }
{
    match index {
        Some(index) => at.wrapping_add(index as u32),
        None => 0,
    }
}
