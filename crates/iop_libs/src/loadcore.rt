//! The services of `loadcore`.

ghost use Rattle.std.specs.Prelude.{◌≡◌, ◌+◌, ◌%◌, ◌≤◌, IfSome, length};
ghost use Rattle.iop_registry.specs.Entries.{IsTable};
ghost use Rattle.irx_tables.specs.declared.words.TheConstants.{HEADER_BYTES};
ghost use Rattle.iop_libs.specs.Calls.{Sight, table_place, registers, releases, serves_loadcore};

use iop_base::{Code, GuestFault};
use iop_exec::Cpu;
use iop_ram::{Ram, physical};
use iop_registry::Registry;
use iop_services::LoadcoreService;
use iop_stubs::Guest;
use irx_tables::{HEADER_BYTES, header};

/// Finds the place of an export table: its address is a multiple of 4, and its header is in RAM.
fn table_place(ram: &Ram, at: u32) -> Option<u32>
    ensures place { result ≡ table_place ram.now at }
    ensures inside { IfSome result (λ place. place + HEADER_BYTES ≤ length ram.now) }
    ensures table { IfSome result IsTable }
{
    if at % 4 != 0 {
        return None;
    }
    ram.window(at, HEADER_BYTES)?;
    physical(at, ram.size())
}

/// Registers the library whose export table stands at an address.
fn register_library(guest: &Guest, registry: &mut Registry, at: u32) -> Result<u32, GuestFault>
    ensures answer { result ≡ (registers guest.now.ram registry.old at).0 }
    ensures libraries { registry.new ≡ (registers guest.now.ram registry.old at).1 }
{
    let Some(place) = table_place(guest.ram(), at) else {
        return Err(GuestFault::Address);
    };
    let code = match header(guest.ram(), place) {
        None => Code::BAD_TABLE,
        Some(found) => {
            let name = found.0;
            let major = (found.1 / 256) as u8;
            registry.register(name, major, place)
        }
    };
    Ok(code.0.cast_unsigned())
}

/// Takes the library out whose export table stands at an address, unless a live stub is bound to
/// it.
fn release_library(guest: &Guest, registry: &mut Registry, at: u32) -> Code
    ensures code { result ≡ (releases guest.now registry.old at).0 }
    ensures libraries { registry.new ≡ (releases guest.now registry.old at).1 }
{
    let Some(place) = physical(at, guest.ram().size()) else {
        return Code::LIBRARY_NOT_FOUND;
    };
    let Some(library) = registry.by_table(place) else {
        return Code::LIBRARY_NOT_FOUND;
    };
    let name = library.0;
    if guest.bound_to(name, library.1) {
        return Code::LIBRARY_IN_USE;
    }
    registry.release(place)
}

/// Does what a service of `loadcore` does, and answers the word of `$v0`: a code as two's
/// complement. Its arguments stand in `$a0` to `$a3` of the processor.
///
/// `Address` exactly where the table to be registered is not wholly in RAM or not aligned, before
/// any other refusal: nothing has changed then.
pub fn serve_loadcore(
    service: LoadcoreService,
    cpu: &Cpu,
    guest: &Guest,
    registry: &mut Registry,
) -> Result<u32, GuestFault>
    ensures answer { let s : Sight = record { memory = guest.now; cpu = cpu.now } in
        result ≡ (serves_loadcore s registry.old service).0 }
    ensures libraries { let s : Sight = record { memory = guest.now; cpu = cpu.now } in
        registry.new ≡ (serves_loadcore s registry.old service).1 }
{
    let a0 = cpu.regs[4];
    match service {
        LoadcoreService::FlushIcache | LoadcoreService::FlushDcache => Ok(0),
        LoadcoreService::RegisterLibraryEntries => register_library(guest, registry, a0),
        LoadcoreService::ReleaseLibraryEntries => {
            Ok(release_library(guest, registry, a0).0.cast_unsigned())
        }
    }
}
