//! The whole machine, written.

ghost use Rattle.std.specs.Prelude.{◌≡◌, true, length, OnOk};
ghost use Rattle.iop_kernel.specs.Standing.{Holds, IsHeld};
ghost use Rattle.iop_kernel.specs.System.{Kernel as State};
ghost use Rattle.iop_snapshot.specs.Writing.{place_of, Writes};
ghost use Rattle.iop_saved_machine.specs.Back.{parts_of};
ghost use Rattle.iop_saved_machine.specs.Heads.{head_form};
ghost use Rattle.iop_saved_machine.specs.Lent.{tables_lent, loading_lent, state_lent};
ghost use Rattle.iop_saved_machine.specs.Loading.{LoadingIsShort, loading_form};
ghost use Rattle.iop_saved_machine.specs.Parts.{written_machine, ram_form};
ghost use Rattle.iop_saved_machine.specs.Tables.{written_tables};

use crate::begun_module::{BegunModule, save_begun};
use crate::head::save_head;
use crate::loading::save_next;
use crate::memory::ram_of;
use iop_base::WriteFault;
use iop_exec::Cpu;
use iop_kernel::Kernel;
use iop_ports::Sink;
use iop_ready::Ready;
use iop_registry::Registry;
use iop_saved_kernel::save_kernel;
use iop_saved_script::{Module, save_args, save_events, save_modules, save_named};
use iop_saved_tables::{save_blocks, save_libraries, save_stubs};
use iop_script::{Args, Named, Raise};
use iop_snapshot::Encoder;
use iop_stubs::Guest;
use iop_sysmem::Blocks;

/// What a machine has, lent to be written.
#[derive(Drop)]
pub struct LentMachine<'a, R> {
    /// The kernel.
    pub kernel: &'a Kernel<R>,
    /// Its processor.
    pub cpu: &'a Cpu,
    /// Memory with its live stubs.
    pub guest: &'a Guest,
    /// The blocks of memory.
    pub blocks: &'a Blocks,
    /// The registered libraries.
    pub registry: &'a Registry,
    /// The module that the loader's thread begins or runs, if there is one.
    pub begun: Option<BegunModule>,
    /// The number of the module that is loaded next.
    pub next: u32,
    /// The modules that were not loaded yet, in order.
    pub modules: &'a [Module],
    /// The events that are still to come, in order.
    pub events: &'a [Raise],
    /// The words for modules by their numbers.
    pub args: &'a [Args],
    /// The words for modules by their names.
    pub named: &'a [Named],
}

impl<R: Ready> LentMachine<'_, R> {
    /// Writes the machine. It takes no memory, and fails exactly where a write of the sink fails,
    /// which has then taken a front of the bytes.
    pub fn save<S: Sink>(&self, encoder: &mut Encoder<'_, S>) -> Result<(), WriteFault>
        requires sound { IsHeld R.stands self.now.kernel.now }
        requires short { LoadingIsShort (loading_lent self.now) }
        ensures written { (k : State) → Holds R.stands self.now.kernel.now k
            → Writes result (written_machine.spell (parts_of (state_lent k self.now)))
            (place_of S.told encoder.old) (place_of S.told encoder.new) }
        ensures fits { OnOk result ((k : State) → Holds R.stands self.now.kernel.now k
            → written_machine.fits (parts_of (state_lent k self.now)) ≡ true) }
    {
        self.save_size(encoder)?;
        save_kernel(self.kernel, self.cpu, encoder)?;
        self.save_tables(encoder)?;
        self.save_loading(encoder)?;
        self.save_ram(encoder)
    }

    /// Writes the head.
    fn save_size<S: Sink>(&self, encoder: &mut Encoder<'_, S>) -> Result<(), WriteFault>
        ensures written { Writes result (head_form.spell (length self.now.guest.now.ram))
            (place_of S.told encoder.old) (place_of S.told encoder.new) }
        ensures fits { head_form.fits (length self.now.guest.now.ram) ≡ true }
    {
        save_head(self.guest.ram().size(), encoder)
    }

    /// Writes the blocks, the libraries and the stubs.
    #[tactic(auto, using(crate::proofs::Sending::writing), unfolding(crate::specs::Tables::tables_form))]
    fn save_tables<S: Sink>(&self, encoder: &mut Encoder<'_, S>) -> Result<(), WriteFault>
        ensures written { Writes result (written_tables.spell (tables_lent self.now))
            (place_of S.told encoder.old) (place_of S.told encoder.new) }
        ensures fits { OnOk result (written_tables.fits (tables_lent self.now) ≡ true) }
    {
        prove!(self.blocks.used().len() <= self.blocks.size() as usize);
        save_blocks(self.blocks, encoder)?;
        save_libraries(self.registry, encoder)?;
        save_stubs(self.guest, encoder)
    }

    /// Writes what is still to be loaded, and what is still to come of the script.
    #[tactic(auto, using(crate::proofs::Sending::writing), unfolding(crate::specs::Loading::loading_form))]
    fn save_loading<S: Sink>(&self, encoder: &mut Encoder<'_, S>) -> Result<(), WriteFault>
        requires short { LoadingIsShort (loading_lent self.now) }
        ensures written { Writes result (loading_form.spell (loading_lent self.now))
            (place_of S.told encoder.old) (place_of S.told encoder.new) }
        ensures fits { OnOk result (loading_form.fits (loading_lent self.now) ≡ true) }
    {
        save_begun(self.begun, encoder)?;
        save_next(self.next, encoder)?;
        save_modules(self.modules, encoder)?;
        save_events(self.events, encoder)?;
        save_args(self.args, encoder)?;
        save_named(self.named, encoder)
    }

    /// Writes all bytes of RAM.
    #[tactic(auto, unfolding(crate::specs::Parts::ram_form, iop_snapshot::specs::Forms::bytes))]
    fn save_ram<S: Sink>(&self, encoder: &mut Encoder<'_, S>) -> Result<(), WriteFault>
        ensures written { Writes result
            ((ram_form (length self.now.guest.now.ram)).spell self.now.guest.now.ram)
            (place_of S.told encoder.old) (place_of S.told encoder.new) }
        ensures fits { (ram_form (length self.now.guest.now.ram)).fits self.now.guest.now.ram
            ≡ true }
    {
        encoder.bytes(ram_of(self.guest))
    }
}
