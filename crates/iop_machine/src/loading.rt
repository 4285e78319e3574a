//! How modules come into memory and are made ready to begin.

ghost use Rattle.std.specs.Prelude.{◌≡◌, ◌<◌, [], MatchBool, length};
ghost use Rattle.std.specs.Bool.{OnTrue};
ghost use Rattle.iop_machine.specs.Iop.{Iop as State, Takes, Remains};
ghost use Rattle.iop_machine.specs.Loading.{passes, enters, loads_first, starts_by, boots};
ghost use Rattle.iop_machine.specs.Modules.{modules_of};
ghost use Rattle.iop_machine.specs.Standing.{Stands, IsSound};

use crate::arguments::{ARGUMENTS, ARGUMENTS_LEN, argument_block, module_start};
use crate::iop::Iop;
use crate::kernel_area::write_kernel_area;
use iop_base::{Line, Lines};
use iop_modload::{Loaded, load};
use iop_saved_machine::BegunModule;
use iop_thread::registers_at;

impl Iop {
    /// Writes the argument block.
    fn pass_arguments<L: Lines>(&mut self, block: &[u8], lines: &mut L)
        ensures { (s : State) → Stands self.old s
            → Takes Stands (passes s block.now) self.new (L.output lines.old) (L.output lines.new) }
    {
        let clock = self.kernel.now();
        let _ = self
            .guest
            .fill(ARGUMENTS, ARGUMENTS_LEN as u32, 0, clock, lines);
        let _ = self.guest.store_bytes(ARGUMENTS, block, clock, lines);
    }

    /// Tells that a module was loaded, and lets it begin with so many words in its argument block.
    fn enter<L: Lines>(
        &mut self,
        number: u32,
        loaded: &Loaded,
        words: u32,
        block: &[u8],
        lines: &mut L,
    )
        ensures { (s : State) → Stands self.old s
            → Takes Stands (enters s number loaded.now words block.now) self.new
            (L.output lines.old) (L.output lines.new) }
    {
        let place = loaded.place;
        lines.line(
            self.kernel.now(),
            Line::Load {
                k: number,
                base: place.base,
                len: place.len,
            },
        );
        self.pass_arguments(block, lines);
        self.cpu = module_start(loaded, words);
        self.begun = Some(BegunModule { number, place });
    }

    /// Loads the next module, if there is one, and takes it out. A module that loads begins; one
    /// that is refused is told. Answers whether another one is to be tried.
    fn load_next<L: Lines>(&mut self, lines: &mut L) -> bool
        requires same_size { self.old.blocks.size ≡ length self.old.guest.ram }
        ensures loads { (s : State) → Stands self.old s → MatchBool result
            ((v : State) × Stands self.new v
            × Remains Stands (loads_first (modules_of s.modules) s)
            (loads_first (modules_of v.modules) v)
            (L.output lines.old) (L.output lines.new))
            (Takes Stands (loads_first (modules_of s.modules) s) self.new
            (L.output lines.old) (L.output lines.new)) }
        ensures fewer { OnTrue result
            (length (modules_of self.new.modules) < length (modules_of self.old.modules)) }
        ensures same_size { OnTrue result (self.new.blocks.size ≡ length self.new.guest.ram) }
    {
        let Some(next) = self.modules.first() else {
            self.begun = None;
            return false;
        };
        let number = next.number;
        match load(
            next.file,
            &mut self.guest,
            &mut self.blocks,
            &self.registry,
            self.kernel.now(),
            lines,
        ) {
            Ok(loaded) => {
                let block = argument_block(next.name.as_bytes(), next.words);
                let words = next.words.len() as u32 + 1;
                self.modules.take_first();
                self.enter(number, &loaded, words, &block, lines);
                false
            }
            Err(code) => {
                self.modules.take_first();
                lines.line(self.kernel.now(), Line::Refused { k: number, code });
                true
            }
        }
    }

    /// Loads modules, in order, until one loads, which begins then.
    pub(crate) fn load_first<L: Lines>(&mut self, lines: &mut L)
        requires same_size { self.old.blocks.size ≡ length self.old.guest.ram }
        ensures { (s : State) → Stands self.old s
            → Takes Stands (loads_first (modules_of s.modules) s) self.new
            (L.output lines.old) (L.output lines.new) }
    {
        while self.load_next(lines) {}
    }

    /// Makes the loader's thread ready with the registers of the module that begins, if one does.
    fn begin_loader(&mut self)
        requires sound { IsSound self.old }
        ensures { (s : State) → Stands self.old s → Stands self.new (starts_by s s.begun) }
    {
        if self.begun.is_some() {
            self.kernel.begin(&self.cpu);
        }
    }

    /// Writes the kernel's area and loads the first module that loads, for which the loader's
    /// thread is then ready. Nobody has the processor's registers then.
    #[inline(never)]
    pub(crate) fn boot<L: Lines>(&mut self, lines: &mut L)
        requires sound { IsSound self.old }
        requires same_size { self.old.blocks.size ≡ length self.old.guest.ram }
        requires none_live { self.old.guest.live ≡ [] }
        ensures { (s : State) → Stands self.old s
            → Takes Stands (boots s) self.new (L.output lines.old) (L.output lines.new) }
    {
        write_kernel_area(&mut self.guest, lines);
        self.load_first(lines);
        self.begin_loader();
        self.cpu = registers_at(0);
    }
}
