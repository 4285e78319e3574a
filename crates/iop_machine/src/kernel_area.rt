//! The kernel's area of memory.

ghost use Rattle.std.specs.Prelude.{◌≡◌, ◌+◌, ◌*◌, ◌<◌, ◌≤◌, ◌++◌, [], length};
ghost use Rattle.arrayvec.specs.ArrayVec.{array_vec_len};
ghost use Rattle.iop_base.specs.Numbers.{bytes_of, with_bytes};
ghost use Rattle.iop_base.specs.Output.{Gives};
ghost use Rattle.iop_machine.specs.KernelArea.{syscall_word, table_of, service_of, services_of, return_of, tables, returns, services, kernel_area};
ghost use Rattle.iop_machine.specs.World.{zeros};
ghost use Rattle.iop_services.specs.Codes.{service_code};

use arrayvec::ArrayVec;
use iop_base::{EXPORT_MAGIC, JUMP_BACK, KERNEL_LIBRARIES, Lines};
use iop_kernel::{HANDLER_RETURN_CALL, MODULE_RETURN_CALL, THREAD_RETURN_CALL};
use iop_registry::{FIRST_LIBRARIES, KERNEL_TABLE_LEN, KERNEL_TABLES_AT, LATER_TABLES_AT};
use iop_services::{SERVICES, service_code};
use iop_stubs::Guest;
use iop_text::append;
use iop_thread::THREAD_RETURN;
use irx_tables::HEADER_BYTES;

/// How many bytes the kernel's area has.
pub(crate) const AREA_LEN: u32 = 0x10000;

/// The version of the kernel's libraries, and mode 0.
pub(crate) const VERSION: u32 = 0x0101;

/// How many libraries have their export tables from `LATER_TABLES_AT` on.
pub(crate) const LATER_LIBRARIES: u32 = KERNEL_LIBRARIES.len() as u32 - FIRST_LIBRARIES;

/// How many bytes the export tables of the first libraries have.
const FIRST_TABLES_LEN: usize = (FIRST_LIBRARIES * KERNEL_TABLE_LEN) as usize;

/// How many bytes those of the later libraries have.
const LATER_TABLES_LEN: usize = (LATER_LIBRARIES * KERNEL_TABLE_LEN) as usize;

/// How many zeros stand between an export table, which ends with a word 0, and the next one.
pub(crate) const TABLE_REST: usize = (KERNEL_TABLE_LEN - HEADER_BYTES - 4 * SERVICES - 4) as usize;

/// The place of the first service.
pub(crate) const SERVICES_AT: u32 = 0x4000;

/// How many bytes a service has.
pub(crate) const SERVICE_LEN: u32 = 0x10;

/// How many bytes the services of a library have.
pub(crate) const SERVICES_LEN: u32 = SERVICES * SERVICE_LEN;

/// How many bytes the services of all libraries may have.
const ALL_SERVICES_LEN: usize = KERNEL_LIBRARIES.len() * SERVICES_LEN as usize;

/// How many bytes a return has, with the zeros up to the next one.
const RETURN_LEN: usize = 0x10;

/// How many bytes the three returns have.
const RETURNS_LEN: usize = 3 * RETURN_LEN;

/// Encodes `syscall` with a code below 2^20.
fn syscall(code: u32) -> u32
    requires { code < 0x100000 }
    ensures { result ≡ syscall_word code }
{
    (code << 6) + 0xC
}

/// Appends a word.
fn append_word<const ROOM: usize>(bytes: &mut ArrayVec<u8, ROOM>, word: u32)
    requires { array_vec_len bytes.old + 4 ≤ ROOM }
    ensures bytes { bytes.new.items ≡ bytes.old.items ++ bytes_of 4 word }
    ensures long { array_vec_len bytes.new ≡ array_vec_len bytes.old + 4 }
{
    append(bytes, &word.to_le_bytes());
}

/// Appends the export table of a kernel library, whose functions are its services.
#[tactic(auto, using(crate::proofs::Area::rows))]
fn append_table<const ROOM: usize>(tables: &mut ArrayVec<u8, ROOM>, library: u32)
    requires library { library < length KERNEL_LIBRARIES }
    requires room { array_vec_len tables.old + KERNEL_TABLE_LEN ≤ ROOM }
    ensures bytes { tables.new.items ≡ tables.old.items ++ table_of library }
    ensures long { array_vec_len tables.new ≡ array_vec_len tables.old + KERNEL_TABLE_LEN }
{
    append_word(tables, EXPORT_MAGIC);
    append_word(tables, 0);
    append_word(tables, VERSION);
    append(tables, &KERNEL_LIBRARIES[library as usize]);
    for number in 0..SERVICES {
        let place = SERVICES_AT + library * SERVICES_LEN + number * SERVICE_LEN;
        append_word(tables, place);
    }
    append_word(tables, 0);
    append(tables, &[0; TABLE_REST]);
}

/// Makes the export tables of so many of the kernel's libraries, from one on.
#[tactic(auto, using(crate::proofs::Area::rows))]
fn tables<const ROOM: usize>(first: u32, count: u32) -> ArrayVec<u8, ROOM>
    requires libraries { first + count ≤ length KERNEL_LIBRARIES }
    requires room { KERNEL_TABLE_LEN * count ≤ ROOM }
    ensures { result.items ≡ tables first count }
{
    let mut tables = ArrayVec::new();
    for library in 0..count {
        append_table(&mut tables, first + library);
    }
    tables
}

/// Appends a return.
fn append_return(returns: &mut ArrayVec<u8, RETURNS_LEN>, code: u32)
    requires code { code < 0x100000 }
    requires room { array_vec_len returns.old + RETURN_LEN ≤ RETURNS_LEN }
    ensures bytes { returns.new.items ≡ returns.old.items ++ return_of code }
    ensures long { array_vec_len returns.new ≡ array_vec_len returns.old + RETURN_LEN }
{
    append_word(returns, syscall(code));
    append(returns, &[0; RETURN_LEN - 4]);
}

/// Makes the returns of a thread, a handler and a module.
fn returns() -> ArrayVec<u8, RETURNS_LEN>
    ensures { result.items ≡ returns }
{
    let mut returns = ArrayVec::new();
    append_return(&mut returns, THREAD_RETURN_CALL);
    append_return(&mut returns, HANDLER_RETURN_CALL);
    append_return(&mut returns, MODULE_RETURN_CALL);
    returns
}

/// Appends a service.
fn append_service(services: &mut ArrayVec<u8, ALL_SERVICES_LEN>, library: u32, number: u32)
    requires code { service_code library number < 0x100000 }
    requires room { array_vec_len services.old + SERVICE_LEN ≤ ALL_SERVICES_LEN }
    ensures bytes { services.new.items ≡ services.old.items ++ service_of library number }
    ensures long { array_vec_len services.new ≡ array_vec_len services.old + SERVICE_LEN }
{
    append_word(services, syscall(service_code(library, number)));
    append_word(services, JUMP_BACK);
    append(services, &[0; 8]);
}

/// Appends the services of a kernel library.
#[tactic(auto, using(crate::proofs::Area::rows))]
fn append_services(services: &mut ArrayVec<u8, ALL_SERVICES_LEN>, library: u32)
    requires library { library < length KERNEL_LIBRARIES }
    requires room { array_vec_len services.old + SERVICES_LEN ≤ ALL_SERVICES_LEN }
    ensures bytes { services.new.items ≡ services.old.items ++ services_of library }
    ensures long { array_vec_len services.new ≡ array_vec_len services.old + SERVICES_LEN }
{
    for number in 0..SERVICES {
        append_service(services, library, number);
    }
}

/// Makes the services of the kernel's libraries.
#[tactic(auto, using(crate::proofs::Area::rows))]
fn services() -> ArrayVec<u8, ALL_SERVICES_LEN>
    ensures { result.items ≡ services }
{
    let mut services = ArrayVec::new();
    for library in 0..KERNEL_LIBRARIES.len() {
        append_services(&mut services, library as u32);
    }
    services
}

/// Fills the first bytes of the area with zeros, where no stub is live.
#[tactic(auto, unfolding(crate::specs::World::zeros))]
fn clear<L: Lines>(guest: &mut Guest, len: u32, lines: &mut L)
    requires none_live { guest.old.live ≡ [] }
    requires inside { len ≤ AREA_LEN }
    ensures memory { guest.new ≡ record guest.old { ram = with_bytes guest.old.ram 0 (zeros len) } }
    ensures has_area { AREA_LEN ≤ length guest.old.ram }
    ensures lines { Gives (L.output lines.old) (L.output lines.new) [] }
{
    let _ = guest.fill(0, len, 0, 0, lines);
}

/// Stores a region of the area, where no stub is live.
fn store<L: Lines>(guest: &mut Guest, at: u32, bytes: &[u8], lines: &mut L)
    requires none_live { guest.old.live ≡ [] }
    requires inside { at + length bytes.now ≤ AREA_LEN }
    ensures memory { guest.new
        ≡ record guest.old { ram = with_bytes guest.old.ram at bytes.now } }
    ensures lines { Gives (L.output lines.old) (L.output lines.new) [] }
{
    let _ = guest.store_bytes(at, bytes, 0, lines);
}

/// Writes the kernel's area, where no stub is live.
pub(crate) fn write_kernel_area<L: Lines>(guest: &mut Guest, lines: &mut L)
    requires { guest.old.live ≡ [] }
    ensures memory { guest.new ≡ record guest.old { ram = with_bytes guest.old.ram 0 kernel_area } }
    ensures lines { Gives (L.output lines.old) (L.output lines.new) [] }
    ensures same_size { length guest.new.ram ≡ length guest.old.ram }
{
    clear(guest, AREA_LEN, lines);
    let later_tables: ArrayVec<u8, LATER_TABLES_LEN> = tables(FIRST_LIBRARIES, LATER_LIBRARIES);
    store(guest, LATER_TABLES_AT, &later_tables, lines);
    let first_tables: ArrayVec<u8, FIRST_TABLES_LEN> = tables(0, FIRST_LIBRARIES);
    store(guest, KERNEL_TABLES_AT, &first_tables, lines);
    store(guest, THREAD_RETURN, &returns(), lines);
    store(guest, SERVICES_AT, &services(), lines);
}
