//! Whether the loader of a machine that was put back can go on.

ghost use Rattle.std.specs.Prelude.{◌≡◌, length};
ghost use Rattle.std.specs.List.{list_all};
ghost use Rattle.iop_kernel.specs.Standing.{Holds};
ghost use Rattle.iop_kernel.specs.System.{Kernel as State};
ghost use Rattle.iop_machine.specs.Loader.{has_header, is_between, is_inside, loader_is_dormant, loader_may_go_on, may_have_begun, may_run};
ghost use Rattle.iop_ready.specs.KernelReady.{KernelStands};
ghost use Rattle.iop_saved_machine.specs.Back.{MachineState};
ghost use Rattle.iop_saved_machine.specs.Restored.{HoldsMachine};

use iop_base::{BLOCK_UNIT, block_len};
use iop_kernel::Kernel;
use iop_modload::ImagePlace;
use iop_ram::Ram;
use iop_ready::{KernelReady, Ready};
use iop_registry::{Entry, Registry};
use iop_saved_machine::{BegunModule, RestoredMachine};
use iop_sysmem::KERNEL;
use iop_thread::LOADER;
use irx_tables::HEADER_BYTES;

/// The fewest bytes that the image of a module has.
pub(crate) const LEAST_IMAGE: u32 = 4;

/// Says whether the loader can go on: the tables of all libraries have their headers in RAM; the
/// module that is begun can run, if there is one; and where none is begun the loader's thread is
/// dormant, and none is left, else it is not dormant.
pub(crate) fn loader_may_go_on(made: &RestoredMachine<KernelReady>) -> bool
    ensures { (m : MachineState) → HoldsMachine KernelStands made.now m
        → result ≡ loader_may_go_on m }
{
    let ram = made.guest.ram();
    have_headers(&made.registry, ram.size())
        && may_have_begun(made.loading.begun, made.loading.next, ram)
        && is_between(
            loader_is_dormant(&made.core.kernel),
            made.loading.modules.len(),
            made.loading.begun,
        )
}

/// Says whether the tables of all libraries have their headers in a RAM of so many bytes.
fn have_headers(registry: &Registry, size: u32) -> bool
    ensures { result ≡ list_all (has_header size) registry.now }
{
    registry
        .entries()
        .iter()
        .all(|entry| has_header(entry, size))
}

/// Says whether the table of a library has its header in a RAM of so many bytes.
fn has_header(entry: &Entry, size: u32) -> bool
    ensures { result ≡ has_header size entry.now }
{
    u64::from(entry.table) + u64::from(HEADER_BYTES) <= u64::from(size)
}

/// Says whether the loader's thread is dormant.
fn loader_is_dormant<R: Ready>(kernel: &Kernel<R>) -> bool
    ensures { (k : State) → Holds R.stands kernel.now k → result ≡ loader_is_dormant k }
{
    match kernel.threads.get(LOADER) {
        Some(thread) => thread.state.is_dormant(),
        None => false,
    }
}

/// Says whether the module that is begun fits the loader's thread, which is dormant or not, and how
/// many modules are left: where none is begun it is dormant, and none is left; else it is not
/// dormant.
fn is_between(dormant: bool, left: usize, begun: Option<BegunModule>) -> bool
    ensures { result ≡ is_between dormant left begun }
{
    match begun {
        None => dormant && left == 0,
        Some(_) => !dormant,
    }
}

/// Says whether the loader's thread can run the module that is begun, if there is one, in front of
/// the one of a number, in this RAM.
fn may_have_begun(begun: Option<BegunModule>, next: u32, ram: &Ram) -> bool
    ensures { result ≡ may_have_begun (length ram.now) next begun }
{
    match begun {
        None => true,
        Some(module) => may_run(module, next, ram),
    }
}

/// Says whether the loader's thread can begin or run a module, in front of the one of a number, in
/// this RAM.
fn may_run(module: BegunModule, next: u32, ram: &Ram) -> bool
    ensures { result ≡ may_run (length ram.now) next «module» }
{
    module.number >= 1 && module.number < next && is_inside(module.place, ram)
}

/// Says whether an image has its blocks in this RAM, and its address is behind the kernel's block.
fn is_inside(place: ImagePlace, ram: &Ram) -> bool
    ensures { result ≡ is_inside (length ram.now) place }
{
    place.base % BLOCK_UNIT == 0
        && place.base >= KERNEL.size
        && place.len >= LEAST_IMAGE
        && place.len <= ram.size()
        && ram.contains(place.base, block_len(place.len))
}
