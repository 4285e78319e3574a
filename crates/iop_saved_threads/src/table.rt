//! All threads of a table, by their ids.

ghost use Rattle.std.specs.Prelude.{◌≡◌, [], Some, true, MatchResult, List, OnOk};
ghost use Rattle.iop_snapshot.specs.Begins.{none_put};
ghost use Rattle.iop_snapshot.specs.Forms.{spell_list, fits_list, read_list};
ghost use Rattle.iop_snapshot.specs.Putting.{put_all, next_form, PutsOne};
ghost use Rattle.iop_snapshot.specs.Reading.{GivesNone};
ghost use Rattle.iop_snapshot.specs.Writing.{place_of, Writes};
ghost use Rattle.iop_saved_threads.specs.Processors.{cpu_form};
ghost use Rattle.iop_saved_threads.specs.Tables.{above, put_thread};
ghost use Rattle.iop_saved_threads.specs.Threads.{thread_form, read_form};
ghost use Rattle.iop_thread.specs.Restored.{Restores};
ghost use Rattle.iop_thread.specs.Restoring.{no_threads};
ghost use Rattle.iop_thread.specs.Standing.{Stands};
ghost use Rattle.iop_thread.specs.declared.thread.Thread.{Thread as LiveThread};
ghost use Rattle.iop_thread.specs.ThreadTable.{ThreadTable};

use crate::thread::{restore_thread, save_thread};
use iop_base::WriteFault;
use iop_ports::Sink;
use iop_ready::Ready;
use iop_snapshot::{Decoder, Encoder, RestoreItems, SaveItems, SnapFault, restore_list, save_list};
use iop_thread::{RestoredThreads, Thread, Threads};
use std::alloc::Global;

/// The threads of a table that are still to be written, by their ids.
#[derive(Drop)]
struct ThreadsLeft<'a, R> {
    threads: &'a Threads<R>,
    /// The id of the last one that was written, or 0.
    written: u32,
}

impl<R: Ready> SaveItems<Thread> for ThreadsLeft<'_, R> {
    ghost ahead = { λ left xs. (s : ThreadTable) × Stands R.stands left.threads.now s
        × (above left.written s.live ≡ xs) };

    ghost form = { thread_form cpu_form };

    fn save_next<S: Sink>(&mut self, encoder: &mut Encoder<'_, S>) -> Result<(), WriteFault> {
        let Some(thread) = self.threads.next_above(self.written) else {
            return Ok(());
        };
        save_thread(thread, encoder)?;
        self.written = thread.id;
        Ok(())
    }
}

/// Writes the live threads, by their ids.
pub fn save_threads<R: Ready, S: Sink>(
    threads: &Threads<R>,
    encoder: &mut Encoder<'_, S>,
) -> Result<(), WriteFault>
    ensures written { (s : ThreadTable) → Stands R.stands threads.now s
        → Writes result (spell_list (thread_form cpu_form) s.live) (place_of S.told encoder.old)
        (place_of S.told encoder.new) }
    ensures fits { OnOk result ((s : ThreadTable) → Stands R.stands threads.now s
        → fits_list (λ _. thread_form cpu_form) s.live ≡ true) }
{
    let count = threads.len() as u32;
    let mut left = ThreadsLeft {
        threads,
        written: 0,
    };
    save_list::<Thread, ThreadsLeft<'_, R>, S>(count, &mut left, encoder)
}

/// Threads that are put back into a table of none.
#[derive(Drop)]
struct ThreadsBack<R> {
    threads: RestoredThreads<R>,
}

impl<R: Ready> ThreadsBack<R> {
    /// Reads the next thread and puts it back.
    fn put_next(&mut self, decoder: &mut Decoder<'_>) -> Result<(), SnapFault>
        ensures { (s : ThreadTable) → Restores R.stands self.old.threads s → (t : ThreadTable)
            × Restores R.stands self.new.threads t
            × PutsOne put_thread read_form s t result decoder.old decoder.new }
    {
        let Some(thread) = restore_thread(decoder) else {
            return Err(SnapFault::Bad);
        };
        if self.threads.put_back(thread) {
            Ok(())
        } else {
            Err(SnapFault::Bad)
        }
    }
}

impl<R: Ready> RestoreItems<Thread> for ThreadsBack<R> {
    ghost starts = { λ base. Restores R.stands base.threads no_threads };

    ghost grows = { λ base now xs. (t : ThreadTable) × Restores R.stands now.threads t
        × (put_all put_thread no_threads xs ≡ Some t) };

    ghost next_form = { λ base xs. next_form put_thread read_form no_threads xs };

    fn restore_next(&mut self, decoder: &mut Decoder<'_>) -> Result<(), SnapFault> {
        self.put_next(decoder)
    }

    ghost begins = { λ base none. (no_threads, none, none_put put_thread no_threads) };
}

/// Reads threads and puts them back, beside a list of ready threads in which none is. `Bad` exactly
/// where no list of threads can be read that may be live together, unless memory runs out.
pub fn restore_threads<R: Ready + Drop>(
    alloc: Global,
    ready: R,
    decoder: &mut Decoder<'_>,
) -> Result<RestoredThreads<R>, SnapFault>
    requires none { R.stands ready [] }
    ensures { let read = read_list (next_form put_thread read_form no_threads) decoder.old in
        MatchResult result
        (λ now. (live : List LiveThread) × (t : ThreadTable) × Restores R.stands now t
        × (put_all put_thread no_threads live ≡ Some t) × (read ≡ Some (live, decoder.new)))
        (GivesNone read) }
{
    let mut back = ThreadsBack {
        threads: RestoredThreads::new(alloc, ready)?,
    };
    restore_list::<Thread, ThreadsBack<R>>(&mut back, decoder)?;
    Ok(back.threads)
}
