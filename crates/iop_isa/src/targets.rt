//! Where branches and jumps go.

ghost use Rattle.std.specs.Prelude.{◌≡◌};
ghost use Rattle.iop_isa.specs.Targets.{branch_target, jump_target};

use crate::immediate::signed_immediate;
use crate::operands::Target26;

/// Computes where the branch at the address `at` goes: `imm` instructions, as a signed number, from
/// the one behind it, modulo 2^32.
pub fn branch_target(at: u32, imm: u16) -> u32
    ensures { result ≡ branch_target at imm }
{
    at.wrapping_add(4).wrapping_add(signed_immediate(imm) << 2)
}

/// Computes where the jump at the address `at` goes: an address of the 2^28 bytes in which the
/// address behind it lies.
pub fn jump_target(at: u32, target: Target26) -> u32
    ensures { result ≡ jump_target at target }
{
    (at.wrapping_add(4) >> 28 << 28) + (target.number() << 2)
}
