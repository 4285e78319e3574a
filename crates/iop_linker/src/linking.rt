ghost use Rattle.std.specs.Prelude.{◌≡◌, ◌+◌, ◌%◌, ◌≤◌, length};
ghost use Rattle.iop_stubs.specs.Binding.{IsSound};
ghost use Rattle.iop_stubs.specs.Layers.{base_of};
ghost use Rattle.iop_linker.specs.Linking.{linking, answer_of, after_linking, HasNoLiveStub};

use crate::binding::bind_tables;
use crate::checking::{bad_table, count_new};
use crate::link_fault::LinkFault;
use iop_registry::Registry;
use iop_stubs::Guest;

/// Links the text of a module: the range of `len` bytes from the physical place `from` on, a
/// multiple of 4. It lies in RAM, and no live stub meets it.
///
/// Each import table of the range asks for the library of its name and its major version; the minor
/// version is not compared. A stub whose index is below the number of that library's functions is
/// bound: its first word becomes a jump to bits 2 to 27 of the function's word, and it is live. Its
/// second word stays, and so does a stub whose index is not below. All is read as it stood before
/// the first stub is bound.
///
/// The refusals, in this order: `Table` exactly where a table is bad, `NoLibrary` exactly where a
/// table's library is not registered, at the first such table, and `Room` exactly where more than
/// `Stub::MOST_LIVE` stubs would be live. Nothing changes then.
///
/// Memory without the jumps of live stubs stays as it was.
pub fn link(guest: &mut Guest, registry: &Registry, from: u32, len: u32) -> Result<(), LinkFault>
    requires aligned { from % 4 ≡ 0 }
    requires inside { from + len ≤ length guest.old.ram }
    requires apart { HasNoLiveStub guest.old from len }
    ensures result { result ≡ answer_of (linking guest.old registry.now from len) }
    ensures memory { guest.new ≡ after_linking guest.old (linking guest.old registry.now from len) }
    ensures base { base_of guest.new ≡ base_of guest.old }
    ensures sound { IsSound guest.new }
{
    let ram = guest.ram();
    if let Some(at) = bad_table(ram, from, len) {
        return Err(LinkFault::Table { at });
    }
    let count = count_new(ram, registry, from, len)?;
    if guest.room() < count {
        return Err(LinkFault::Room);
    }
    bind_tables(guest, registry, from, len);
    Ok(())
}
