//! The objects of all kinds.

ghost use Rattle.std.specs.Prelude.{◌≡◌, OnOk, true};
ghost use Rattle.iop_saved_kernel.specs.ObjectLists.{objects_form, object_lists, objects_back, semaphores_back, event_flags_back, mailboxes_back, variable_pools_back, fixed_pools_back};
ghost use Rattle.iop_saved_objects.specs.EventFlags.{event_flag_form};
ghost use Rattle.iop_saved_objects.specs.FixedPools.{fixed_pool_form};
ghost use Rattle.iop_saved_objects.specs.Lists.{list_of};
ghost use Rattle.iop_saved_objects.specs.Mailboxes.{mailbox_form};
ghost use Rattle.iop_saved_objects.specs.Semaphores.{semaphore_form};
ghost use Rattle.iop_saved_objects.specs.VariablePools.{variable_pool_form};
ghost use Rattle.iop_saved_kernel.specs.Restoring.{Restores};
ghost use Rattle.iop_saved_kernel.specs.Tables.{tables_held, tables_of};
ghost use Rattle.iop_saved_kernel.specs.ThreadLists.{priority_among};
ghost use Rattle.iop_snapshot.specs.Writing.{place_of, Writes};

use crate::priorities::ThreadPriorities;
use iop_base::WriteFault;
use iop_event::EventFlags;
use iop_kernel::Kernel;
use iop_mbx::Mailboxes;
use iop_pools::{FixedPools, VariablePools};
use iop_ports::Sink;
use iop_saved_objects as saved;
use iop_sema::Semaphores;
use iop_snapshot::{Decoder, Encoder, SnapFault};
use std::alloc::Global;

/// The objects of all kinds.
#[derive(Drop)]
pub(crate) struct Objects {
    pub(crate) semaphores: Semaphores,
    pub(crate) event_flags: EventFlags,
    pub(crate) mailboxes: Mailboxes,
    pub(crate) variable_pools: VariablePools,
    pub(crate) fixed_pools: FixedPools,
}

impl Objects {
    /// Reads objects and puts them back, each with the threads that wait for it, which have these
    /// priorities. `Bad` exactly where none can be read that may be live, unless memory runs out.
    pub(crate) fn restore(
        alloc: Global,
        priorities: &ThreadPriorities,
        decoder: &mut Decoder<'_>,
    ) -> Result<Self, SnapFault>
        ensures { Restores objects_form (objects_back (priority_among priorities.now.threads.items))
            (λ made state. state ≡ tables_of made) result decoder.old decoder.new }
    {
        let semaphores = restore_semaphores(alloc, priorities, decoder)?;
        let event_flags = restore_event_flags(alloc, priorities, decoder)?;
        let mailboxes = restore_mailboxes(alloc, priorities, decoder)?;
        let variable_pools = restore_variable_pools(alloc, priorities, decoder)?;
        let fixed_pools = restore_fixed_pools(alloc, priorities, decoder)?;
        Ok(Objects {
            semaphores,
            event_flags,
            mailboxes,
            variable_pools,
            fixed_pools,
        })
    }
}

/// Writes the objects of a kernel, each with the threads that wait for it.
#[tactic(auto, using(iop_snapshot::proofs::Sending::writes_then, iop_snapshot::proofs::Sending::writes_exit), unfolding(crate::specs::ObjectLists::objects_form))]
pub(crate) fn save_objects<R, S: Sink>(
    kernel: &Kernel<R>,
    encoder: &mut Encoder<'_, S>,
) -> Result<(), WriteFault>
    ensures written { Writes result (objects_form.spell (object_lists (tables_held kernel.now)))
        (place_of S.told encoder.old) (place_of S.told encoder.new) }
    ensures fits { OnOk result (objects_form.fits (object_lists (tables_held kernel.now)) ≡ true) }
{
    saved::save_semaphores(&kernel.semaphores, encoder)?;
    saved::save_event_flags(&kernel.event_flags, encoder)?;
    saved::save_mailboxes(&kernel.mailboxes, encoder)?;
    saved::save_variable_pools(&kernel.variable_pools, encoder)?;
    saved::save_fixed_pools(&kernel.fixed_pools, encoder)
}

/// Reads semaphores, each with the threads that wait for it, and puts them back into a table of
/// none.
fn restore_semaphores(
    alloc: Global,
    priorities: &ThreadPriorities,
    decoder: &mut Decoder<'_>,
) -> Result<Semaphores, SnapFault>
    ensures { Restores (list_of semaphore_form)
        (semaphores_back (priority_among priorities.now.threads.items))
        (λ made state. state ≡ made) result decoder.old decoder.new }
{
    let semaphores = Semaphores::new(alloc)?;
    saved::restore_semaphores(semaphores, priorities, decoder)
}

/// Reads event flags, each with the threads that wait for it, and puts them back into a table of
/// none.
fn restore_event_flags(
    alloc: Global,
    priorities: &ThreadPriorities,
    decoder: &mut Decoder<'_>,
) -> Result<EventFlags, SnapFault>
    ensures { Restores (list_of event_flag_form)
        (event_flags_back (priority_among priorities.now.threads.items))
        (λ made state. state ≡ made) result decoder.old decoder.new }
{
    let event_flags = EventFlags::new(alloc)?;
    saved::restore_event_flags(event_flags, priorities, decoder)
}

/// Reads mailboxes, each with the threads that wait for it, and puts them back into a table of
/// none.
fn restore_mailboxes(
    alloc: Global,
    priorities: &ThreadPriorities,
    decoder: &mut Decoder<'_>,
) -> Result<Mailboxes, SnapFault>
    ensures { Restores (list_of mailbox_form)
        (mailboxes_back (priority_among priorities.now.threads.items))
        (λ made state. state ≡ made) result decoder.old decoder.new }
{
    let mailboxes = Mailboxes::new(alloc)?;
    saved::restore_mailboxes(mailboxes, priorities, decoder)
}

/// Reads variable pools, each with the threads that wait for it, and puts them back into a table of
/// none.
fn restore_variable_pools(
    alloc: Global,
    priorities: &ThreadPriorities,
    decoder: &mut Decoder<'_>,
) -> Result<VariablePools, SnapFault>
    ensures { Restores (list_of variable_pool_form)
        (variable_pools_back (priority_among priorities.now.threads.items))
        (λ made state. state ≡ made) result decoder.old decoder.new }
{
    let variable_pools = VariablePools::new(alloc)?;
    saved::restore_variable_pools(variable_pools, priorities, decoder)
}

/// Reads fixed pools, each with the threads that wait for it, and puts them back into a table of
/// none.
fn restore_fixed_pools(
    alloc: Global,
    priorities: &ThreadPriorities,
    decoder: &mut Decoder<'_>,
) -> Result<FixedPools, SnapFault>
    ensures { Restores (list_of fixed_pool_form)
        (fixed_pools_back (priority_among priorities.now.threads.items))
        (λ made state. state ≡ made) result decoder.old decoder.new }
{
    let fixed_pools = FixedPools::new(alloc)?;
    saved::restore_fixed_pools(fixed_pools, priorities, decoder)
}
