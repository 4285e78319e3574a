ghost use Rattle.std.specs.Prelude.{◌≡◌};
ghost use Rattle.iop_snapshot.specs.Flags.{flag_of};

/// Sees a number as a truth value. None exactly where it is neither 0 nor 1.
pub fn flag_of(number: u64) -> Option<bool>
    ensures { result ≡ flag_of number }
{
    match number {
        0 => Some(false),
        1 => Some(true),
        _ => None,
    }
}
