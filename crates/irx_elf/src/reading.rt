//! Ranges of a file, and the rules that it does not meet.

ghost use Rattle.std.specs.Prelude.{◌≡◌, IfSome, Ok, Err, if◌then◌else◌, option_copied, length};
ghost use Rattle.irx_elf.specs.Rules.{part_at};

use iop_base::Illegal;

/// Lends the bytes of a range. `None` exactly where it does not lie in the file.
pub(crate) fn part_at(file: &[u8], offset: u32, size: u32) -> Option<&[u8]>
    ensures part { option_copied result ≡ part_at file.now offset size }
    ensures length { IfSome result (λ part. length part.now ≡ size) }
{
    let start = offset as usize;
    file.get(start..start + size as usize)
}

/// Refuses where a rule is not met, with its number and the place of the field that breaks it.
pub(crate) fn demand(met: bool, rule: u8, at: u32) -> Result<(), Illegal>
    ensures { result ≡ (if met then Ok tt else Err (record { rule = rule; at = at })) }
{
    if met {
        Ok(())
    } else {
        Err(Illegal { rule, at })
    }
}
