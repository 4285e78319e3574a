//! Loading a module.

ghost use Rattle.std.specs.Prelude.{◌≡◌, ◌+◌, ◌^◌, ◌<◌, ◌≤◌, MatchOption, OnErr, Some, Ok, is_some, length};
ghost use Rattle.iop_base.specs.Output.{Gives};
ghost use Rattle.iop_sysmem.specs.BlockMap.{AreBlocks};
ghost use Rattle.iop_stubs.specs.Binding.{IsSound};
ghost use Rattle.iop_stubs.specs.Stubs.{range_place, after_store, store_lines, stub_lines};
ghost use Rattle.irx_elf.specs.Parts.{IsSound as IsSoundIrx};
ghost use Rattle.iop_modload.specs.Loading.{loads, loads_parts, loaded_at, LeavesRefused};
ghost use Rattle.iop_modload.specs.Modules.{image_at};

use crate::image::Image;
use crate::image_place::ImagePlace;
use crate::loaded::Loaded;
use crate::module_file::ModuleFile;
use iop_base::{Code, Lines};
use iop_linker::link;
use iop_registry::Registry;
use iop_stubs::Guest;
use iop_sysmem::Blocks;

/// Loads the module of a file, which is shorter than 2^32 bytes. The blocks are those of this memory.
///
/// Its image is copied to the first free place that has room for it, which is one store, relocated
/// there, and its text is linked to the registered libraries. It gives the lines of that store, of
/// moment `t` in ticks, and no other.
///
/// The refusals, in this order, which is this project's profile:
/// - `ILLEGAL_OBJECT` exactly where the file breaks a rule of IRX files, or a relocation entry a rule
///   of its own.
/// - `NO_MEMORY` exactly where there is no room for a block of the image's length.
/// - `ILLEGAL_OBJECT`, `LINK_ERROR` and `NO_MEMORY` exactly where `link` refuses the text. Its block
///   is free again then, and holds the relocated image.
pub fn load<L: Lines>(
    file: &[u8],
    guest: &mut Guest,
    blocks: &mut Blocks,
    registry: &Registry,
    t: u64,
    lines: &mut L,
) -> Result<Loaded, Code>
    requires file { length file.now < 2 ^ 32 }
    requires same_size { blocks.old.size ≡ length guest.old.ram }
    ensures answer { result ≡ (loads t guest.old blocks.old registry.now file.now).answer }
    ensures memory { guest.new ≡ (loads t guest.old blocks.old registry.now file.now).memory }
    ensures blocks { blocks.new ≡ (loads t guest.old blocks.old registry.now file.now).blocks }
    ensures lines { Gives (L.output lines.old) (L.output lines.new)
        (loads t guest.old blocks.old registry.now file.now).pieces }
    // What a refused module leaves: the blocks, and memory but for the image of one whose text is
    // refused.
    ensures same_blocks { OnErr result (blocks.new ≡ blocks.old) }
    ensures refused { OnErr result (LeavesRefused t file.now guest.old guest.new blocks.old
        (loads t guest.old blocks.old registry.now file.now).pieces) }
    ensures same_size { blocks.new.size ≡ length guest.new.ram }
    ensures are_blocks { AreBlocks blocks.new }
    ensures sound { IsSound guest.new }
{
    prove_eq!(guest.ram().size(), blocks.size());
    load_file(file, guest, blocks, registry, t, lines)
}

/// Reads the file of a module, and loads the module.
#[tactic(auto, using(iop_base::proofs::Giving::gives_none), unfolding(crate::specs::Loading::loads))]
fn load_file<L: Lines>(
    file: &[u8],
    guest: &mut Guest,
    blocks: &mut Blocks,
    registry: &Registry,
    t: u64,
    lines: &mut L,
) -> Result<Loaded, Code>
    requires file { length file.now < 2 ^ 32 }
    requires same_size { blocks.old.size ≡ length guest.old.ram }
    requires small { blocks.old.size ≤ 2 ^ 29 }
    ensures answer { result ≡ (loads t guest.old blocks.old registry.now file.now).answer }
    ensures memory { guest.new ≡ (loads t guest.old blocks.old registry.now file.now).memory }
    ensures blocks { blocks.new ≡ (loads t guest.old blocks.old registry.now file.now).blocks }
    ensures lines { Gives (L.output lines.old) (L.output lines.new)
        (loads t guest.old blocks.old registry.now file.now).pieces }
{
    let irx = ModuleFile::parse(file)?;
    load_module(&irx, guest, blocks, registry, t, lines)
}

/// Loads a module into the first free place that has room for it.
#[tactic(auto, using(iop_base::proofs::Giving::gives_none))]
fn load_module<L: Lines>(
    irx: &ModuleFile<'_>,
    guest: &mut Guest,
    blocks: &mut Blocks,
    registry: &Registry,
    t: u64,
    lines: &mut L,
) -> Result<Loaded, Code>
    requires same_size { blocks.old.size ≡ length guest.old.ram }
    requires small { blocks.old.size ≤ 2 ^ 29 }
    ensures answer { result
        ≡ (loads_parts t guest.old blocks.old registry.now (Ok irx.now)).answer }
    ensures memory { guest.new
        ≡ (loads_parts t guest.old blocks.old registry.now (Ok irx.now)).memory }
    ensures blocks { blocks.new
        ≡ (loads_parts t guest.old blocks.old registry.now (Ok irx.now)).blocks }
    ensures lines { Gives (L.output lines.old) (L.output lines.new)
        (loads_parts t guest.old blocks.old registry.now (Ok irx.now)).pieces }
{
    let base = blocks.alloc(0, irx.length(), 0);
    if base == 0 {
        return Err(Code::NO_MEMORY);
    }
    copy_image(irx, base, guest, t, lines);
    match link(guest, registry, base, irx.info().text_size) {
        Ok(()) => Ok(loaded_at(irx, base)),
        Err(fault) => {
            blocks.free(base);
            Err(Code::from(fault))
        }
    }
}

/// Writes the image of a module into memory, relocated for its place, where it has room.
fn copy_image<L: Lines>(irx: &ModuleFile<'_>, base: u32, guest: &mut Guest, t: u64, lines: &mut L)
    requires { base + irx.now.length ≤ length guest.old.ram }
    ensures memory { guest.new ≡ after_store guest.old (Some base) (image_at irx.now base) }
    ensures len { length (image_at irx.now base) ≡ irx.now.length }
    ensures lines { Gives (L.output lines.old) (L.output lines.new)
        (stub_lines t base irx.now.length guest.old.live) }
    ensures was_sound { IsSound guest.old }
{
    write_image(irx, base, irx.length(), guest, t, lines).unwrap();
}

/// Writes the image of a module into memory, relocated for this place. None, and no change, where
/// memory ends before it.
fn write_image<I: Image, L: Lines>(
    image: &I,
    base: u32,
    len: u32,
    guest: &mut Guest,
    t: u64,
    lines: &mut L,
) -> Option<()>
    requires { I.length_of image.now ≡ len }
    ensures inside { is_some result ≡ is_some (range_place guest.old base len) }
    ensures memory { let bytes = I.image_for image.now base in
        MatchOption result (guest.new ≡ guest.old) (λ _. (length bytes ≡ len)
        × (guest.new ≡ after_store guest.old (range_place guest.old base len) bytes)) }
    ensures lines { Gives (L.output lines.old) (L.output lines.new)
        (store_lines t guest.old (range_place guest.old base len) len) }
    ensures was_sound { IsSound guest.old }
{
    guest.with_window(base, len, t, lines, |bytes| image.write(bytes, base))
}

/// Tells where a module stands that was loaded at this place.
fn loaded_at(irx: &ModuleFile<'_>, base: u32) -> Loaded
    ensures { result ≡ loaded_at irx.now base }
{
    let info = irx.info();
    Loaded {
        place: ImagePlace {
            base,
            len: irx.length(),
        },
        entry: info.entry,
        gp: info.gp,
    }
}
