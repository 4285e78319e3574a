//! A machine as it stands in a snapshot.

ghost use Rattle.std.specs.Prelude.{◌≡◌, true, Some, MatchResult, IfOk, OnOk, is_ok};
ghost use Rattle.iop_kernel.specs.System.{Kernel};
ghost use Rattle.iop_ports.specs.Sinks.{Sends};
ghost use Rattle.iop_kernel.specs.Placing.{IsPlaced};
ghost use Rattle.iop_machine.specs.Laws.{IsMachine};
ghost use Rattle.iop_machine.specs.Restoring.{iop_in, is_resumable, left_in, may_come_behind, may_be_left, machine_in, snap, state_of};
ghost use Rattle.iop_machine.specs.Standing.{iop_of, IsSoundMachine, StandsForWorld};
ghost use Rattle.iop_machine.specs.World.{World, booted};
ghost use Rattle.iop_ready.specs.KernelReady.{KernelStands};
ghost use Rattle.iop_saved_machine.specs.Back.{MachineState, parts_of};
ghost use Rattle.iop_saved_machine.specs.Lent.{loading_lent, state_lent};
ghost use Rattle.iop_saved_machine.specs.Loading.{LoadingIsShort};
ghost use Rattle.iop_saved_machine.specs.Parts.{written_machine};
ghost use Rattle.iop_saved_machine.specs.Restored.{HoldsMachine, loading_parts};
ghost use Rattle.iop_snapshot.specs.Reading.{GivesNone};

use crate::events::Events;
use crate::iop::Iop;
use crate::laws::restored_machines_are_machines;
use crate::machine::Machine;
use crate::modules_left::ModulesLeft;
use crate::restoring::may_go_on;
use iop_base::WriteFault;
use iop_ports::Sink;
use iop_ready::KernelReady;
use iop_saved_kernel::RestoredKernel;
use iop_saved_machine::{LentMachine, Loading, RestoredMachine, restore_machine};
use iop_snapshot::{Encoder, SnapFault};
use std::alloc::Global;

/// How many moments there are, from 0 on, at which a machine can be saved: 2^63 + 2^62.
pub const SAVABLE_MOMENTS: u64 = 0xC000_0000_0000_0000;

impl Iop {
    /// Lends all that a snapshot has of it.
    fn lent(&self) -> LentMachine<'_, KernelReady>
        ensures state { (k : Kernel) → state_lent k result ≡ state_of (iop_of self.now k) }
        ensures kernel { result.kernel.now ≡ self.now.kernel }
        ensures short { LoadingIsShort (loading_lent result) }
    {
        LentMachine {
            kernel: &self.kernel,
            cpu: &self.cpu,
            guest: &self.guest,
            blocks: &self.blocks,
            registry: &self.registry,
            begun: self.begun,
            next: self.modules.next_number(),
            modules: self.modules.files(),
            events: self.events.left(),
            args: self.modules.words_by_number(),
            named: self.modules.words_by_name(),
        }
    }
}

impl Machine {
    /// Says whether the machine can be saved: it was put back and has not run since, or its last run
    /// ended with its budget; and its moment is below `SAVABLE_MOMENTS`.
    pub fn resumable(&self) -> bool
        ensures { result ≡ is_resumable self.now }
    {
        self.at_budget && self.iop.kernel.now() < SAVABLE_MOMENTS
    }

    /// Writes the machine's snapshot to a sink, behind what it has taken. It takes no memory.
    ///
    /// `WriteFault` comes exactly where a write of the sink fails, which has then taken a front of
    /// the bytes.
    pub fn save<S: Sink>(&self, sink: &mut S) -> Result<(), WriteFault>
        requires sound { IsSoundMachine self.now }
        ensures written { (w : World) → StandsForWorld self.now w
            → Sends (is_ok result) (snap w.iop) (S.told sink.old) (S.told sink.new) }
        ensures fits { OnOk result ((w : World) → StandsForWorld self.now w
            → written_machine.fits (parts_of (state_of w.iop)) ≡ true) }
    {
        self.iop.lent().save(&mut Encoder::new(sink))
    }

    /// Puts a machine back from the bytes of its snapshot. It goes on where it was saved. It takes
    /// memory for RAM once.
    ///
    /// `Bad` exactly where the bytes, all of them, are no snapshot of a machine that can go on,
    /// unless memory runs out; `Memory` only where the host has too little.
    pub fn restore(alloc: Global, bytes: &[u8]) -> Result<Self, SnapFault>
        ensures back { MatchResult result
            (λ machine. (m : MachineState) × (machine_in bytes.now ≡ Some m)
            × StandsForWorld machine (booted (iop_in m)) × IsMachine (booted (iop_in m))
            × (snap (iop_in m) ≡ bytes.now))
            (GivesNone (machine_in bytes.now)) }
        ensures sound { IfOk result IsSoundMachine }
        ensures at_budget { IfOk result (λ machine. machine.at_budget ≡ true) }
    {
        let made = restore_machine(alloc, KernelReady::new(alloc)?, bytes)?;
        if !may_go_on(&made) {
            return Err(SnapFault::Bad);
        }
        restored_machines_are_machines();
        Ok(Machine::going_on(made))
    }

    /// Makes the machine that goes on.
    fn going_on(made: RestoredMachine<KernelReady>) -> Self
        requires modules { may_be_left (left_in (loading_parts made.loading)) ≡ true }
        requires events { may_come_behind 0 made.loading.events.items ≡ true }
        requires short { LoadingIsShort (loading_parts made.loading) }
        ensures stands { (m : MachineState) → HoldsMachine KernelStands made m
            → IsPlaced m.system.core.kernel → StandsForWorld result (booted (iop_in m)) }
        ensures at_budget { result.at_budget ≡ true }
    {
        let RestoredMachine {
            core: RestoredKernel { kernel, cpu },
            guest,
            blocks,
            registry,
            loading,
        } = made;
        let Loading {
            begun,
            next,
            modules,
            events,
            args,
            named,
        } = loading;
        Machine {
            is_new: false,
            at_budget: true,
            iop: Iop {
                kernel,
                cpu,
                guest,
                blocks,
                registry,
                modules: ModulesLeft::new(next, modules, args, named),
                events: Events::new(events),
                begun,
                over: None,
            },
        }
    }
}
