//! The threads, and the ready ones among them.

ghost use Rattle.std.specs.Prelude.{◌≡◌, [], OnOk, true};
ghost use Rattle.iop_saved_kernel.specs.Restoring.{Restores};
ghost use Rattle.iop_saved_kernel.specs.ThreadLists.{written_threads, read_threads, thread_lists, threads_back};
ghost use Rattle.iop_snapshot.specs.Writing.{place_of, Writes};
ghost use Rattle.iop_thread.specs.Standing.{Stands};
ghost use Rattle.iop_thread.specs.ThreadTable.{ThreadTable};

use iop_base::WriteFault;
use iop_ports::Sink;
use iop_ready::Ready;
use iop_saved_threads as saved;
use iop_snapshot::{Decoder, Encoder, SnapFault};
use iop_thread::Threads;
use std::alloc::Global;

/// Writes the threads, by their ids, and the ids of the ready ones, by priority.
#[tactic(auto, using(iop_snapshot::proofs::Sending::writes_then, iop_snapshot::proofs::Sending::writes_exit), unfolding(crate::specs::ThreadLists::threads_form))]
pub(crate) fn save_threads<R: Ready, S: Sink>(
    threads: &Threads<R>,
    encoder: &mut Encoder<'_, S>,
) -> Result<(), WriteFault>
    requires sound { (s : ThreadTable) × Stands R.stands threads.now s }
    ensures written { (s : ThreadTable) → Stands R.stands threads.now s
        → Writes result (written_threads.spell (thread_lists s))
        (place_of S.told encoder.old) (place_of S.told encoder.new) }
    ensures fits { OnOk result ((s : ThreadTable) → Stands R.stands threads.now s
        → written_threads.fits (thread_lists s) ≡ true) }
{
    saved::save_threads(threads, encoder)?;
    saved::save_ready(threads, encoder)
}

/// Reads threads, of which this one runs, and the ready ones among them, and puts them back beside
/// a list of ready threads in which none is. `Bad` exactly where none can be read that may be live
/// together, with all that are ready, unless memory runs out.
pub(crate) fn restore_threads<R: Ready + Drop>(
    alloc: Global,
    ready: R,
    running: Option<u32>,
    decoder: &mut Decoder<'_>,
) -> Result<Threads<R>, SnapFault>
    requires none { R.stands ready [] }
    ensures { Restores read_threads (threads_back running) (Stands R.stands) result
        decoder.old decoder.new }
{
    let threads = saved::restore_threads(alloc, ready, decoder)?;
    let ids = saved::restore_ready(alloc, decoder)?;
    let Some(threads) = saved::put_ready(threads, &ids) else {
        return Err(SnapFault::Bad);
    };
    let Some(threads) = threads.finish(running) else {
        return Err(SnapFault::Bad);
    };
    Ok(threads)
}
