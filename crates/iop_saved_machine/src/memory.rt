//! RAM.

ghost use Rattle.std.specs.Prelude.{◌≡◌, Some, IfOk, MatchResult, All};
ghost use Rattle.iop_base.specs.Numbers.{IsByte};
ghost use Rattle.iop_base.specs.Places.{IsRamSize};
ghost use Rattle.iop_snapshot.specs.Reading.{GivesNone};
ghost use Rattle.iop_saved_machine.specs.Back.{bare};
ghost use Rattle.iop_saved_machine.specs.Parts.{ram_form};

use iop_snapshot::{Decoder, SnapFault};
use iop_stubs::Guest;
use std::alloc::Global;

/// Lends all bytes of RAM as the guest reads them.
pub(crate) fn ram_of(guest: &Guest) -> &[u8]
    ensures ram { result.now ≡ guest.now.ram }
    ensures bytes { All IsByte guest.now.ram }
{
    let ram = guest.ram();
    match ram.window(0, ram.size()) {
        Some(bytes) => bytes,
        None => &[],
    }
}

/// Reads so many bytes, 2 MiB or 8 MiB, and makes memory of them in which no stub is live. `Bad`
/// exactly where fewer are left, unless memory runs out.
#[tactic(auto, unfolding(crate::specs::Parts::ram_form, iop_snapshot::specs::Forms::bytes))]
pub(crate) fn restore_ram(
    alloc: Global,
    size: u32,
    decoder: &mut Decoder<'_>,
) -> Result<Guest, SnapFault>
    requires sized { IsRamSize size }
    ensures read { let read = (ram_form size).read decoder.old in
        MatchResult result (λ made. read ≡ Some (made.ram, decoder.new)) (GivesNone read) }
    ensures bare { IfOk result (λ made. made ≡ bare made.ram) }
{
    let Some(bytes) = decoder.bytes(size) else {
        return Err(SnapFault::Bad);
    };
    let made = Guest::of_bytes(alloc, bytes)?;
    prove!(made.ram().size() <= size);
    Ok(made)
}
