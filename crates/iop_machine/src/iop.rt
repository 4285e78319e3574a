ghost use Rattle.std.specs.Prelude.{IfOk};
ghost use Rattle.iop_base.specs.Places.{IsRamSize};
ghost use Rattle.iop_machine.specs.Standing.{Stands};
ghost use Rattle.iop_machine.specs.World.{reset};

use crate::events::Events;
use crate::modules_left::ModulesLeft;
use iop_base::Stop;
use iop_exec::Cpu;
use iop_kernel::Kernel;
use iop_ready::KernelReady;
use iop_registry::Registry;
use iop_saved_machine::BegunModule;
use iop_stubs::Guest;
use iop_sysmem::Blocks;
use iop_thread::registers_at;
use std::alloc::{AllocError, Global};

/// The processor with its memory and its kernel.
#[derive(Drop)]
pub(crate) struct Iop {
    pub(crate) kernel: Kernel<KernelReady>,
    pub(crate) cpu: Cpu,
    pub(crate) guest: Guest,
    pub(crate) blocks: Blocks,
    pub(crate) registry: Registry,
    /// The modules that were not loaded yet.
    pub(crate) modules: ModulesLeft,
    /// The script's events that are still to come.
    pub(crate) events: Events,
    /// The module that the loader's thread begins or runs, if there is one.
    pub(crate) begun: Option<BegunModule>,
    /// Why it is stopped, where it is.
    pub(crate) over: Option<Stop>,
}

impl Iop {
    /// Makes it as it is after a reset: memory, of `size` bytes, is all zero, the kernel's block
    /// alone is used, and no thread runs. These modules are to be loaded, and these events are to
    /// come.
    pub(crate) fn new(
        alloc: Global,
        size: u32,
        modules: ModulesLeft,
        events: Events,
    ) -> Result<Self, AllocError>
        requires { IsRamSize size }
        ensures { IfOk result (λ iop. Stands iop (reset size modules events)) }
    {
        Ok(Iop {
            kernel: Kernel::new(alloc, KernelReady::new(alloc)?)?,
            cpu: registers_at(0),
            guest: Guest::new(alloc, size)?,
            blocks: Blocks::new(alloc, size)?,
            registry: Registry::new(alloc)?,
            modules,
            events,
            begun: None,
            over: None,
        })
    }
}
