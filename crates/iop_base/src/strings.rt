//! Strings that a zero byte ends.

ghost use Rattle.std.specs.Prelude.{◌≡◌, ◌<◌, ◌≤◌, IfSome, length};
ghost use Rattle.iop_base.specs.Strings.{first_zero, before_zero};

/// The index of the first zero byte. None exactly where no byte is zero.
pub fn first_zero(bytes: &[u8]) -> Option<usize>
    ensures first { result ≡ first_zero bytes.now }
    ensures inside { IfSome result (λ index. index < length bytes.now) }
{
    bytes.iter().position(|byte| *byte == 0)
}

/// The bytes before the first zero byte; all of them where no byte is zero.
pub fn before_zero(bytes: &[u8]) -> &[u8]
    ensures front { result.now ≡ before_zero bytes.now }
    ensures short { length result.now ≤ length bytes.now }
{
    let end = first_zero(bytes).unwrap_or(bytes.len());
    &bytes[..end]
}
