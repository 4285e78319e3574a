//! The ready threads, by their ids.

ghost use Rattle.std.specs.Prelude.{◌≡◌, ◌+◌, ◌<◌, ◌≤◌, [], ◌∷◌, ◌++◌, None, Some, true, MatchOption, MatchResult, MatchBool, OnOk, length, ℕ};
ghost use Rattle.iop_ready.specs.declared.slot.TheConstants.{MOST_THREADS as MOST};
ghost use Rattle.iop_saved_threads.specs.Tables.{ready_of, id_form, next_ready, put_ready};
ghost use Rattle.iop_snapshot.specs.Begins.{none_behind};
ghost use Rattle.iop_snapshot.specs.Forms.{spell_list, fits_list, read_list};
ghost use Rattle.iop_snapshot.specs.Putting.{put_all};
ghost use Rattle.iop_snapshot.specs.Reading.{Reads, GivesNone};
ghost use Rattle.iop_snapshot.specs.Writing.{place_of, Writes};
ghost use Rattle.iop_thread.specs.Ordering.{in_order};
ghost use Rattle.iop_thread.specs.Restored.{Restores, IsRestored};
ghost use Rattle.iop_thread.specs.Standing.{Stands};
ghost use Rattle.iop_thread.specs.ThreadTable.{ThreadTable};

use arrayvec::ArrayVec;
use iop_base::WriteFault;
use iop_ports::Sink;
use iop_ready::{LOWEST_PRIORITY, MOST_THREADS, Priority, Ready};
use iop_snapshot::widths::THREAD_ID;
use iop_snapshot::{Decoder, Encoder, RestoreItems, SaveItems, SnapFault, restore_list, save_list};
use iop_thread::{RestoredThreads, Threads};
use std::alloc::{AllocError, Global};

/// Writes the id of a thread.
#[tactic(auto, unfolding(crate::specs::Tables::id_form, iop_snapshot::specs::Forms::item))]
fn save_id<S: Sink>(id: u32, encoder: &mut Encoder<'_, S>) -> Result<(), WriteFault>
    ensures written { Writes result (id_form.spell id) (place_of S.told encoder.old)
        (place_of S.told encoder.new) }
    ensures fits { id_form.fits id ≡ true }
{
    encoder.item(&THREAD_ID, &[u64::from(id)])
}

/// The ids that are still to be written.
#[derive(Drop)]
struct IdsLeft<'a> {
    ids: &'a [u32],
}

impl SaveItems<u32> for IdsLeft<'_> {
    ghost ahead = { λ left xs. left.ids.now ≡ xs };

    ghost form = { id_form };

    fn save_next<S: Sink>(&mut self, encoder: &mut Encoder<'_, S>) -> Result<(), WriteFault> {
        let Some((id, rest)) = self.ids.split_first() else {
            return Ok(());
        };
        save_id(*id, encoder)?;
        self.ids = rest;
        Ok(())
    }
}

/// Puts the ids of the ready threads of a priority behind others, in order of their arrival.
fn push_ready<R: Ready>(
    threads: &Threads<R>,
    priority: Priority,
    ids: &mut ArrayVec<u32, MOST_THREADS>,
)
    requires room { (s : ThreadTable) × Stands R.stands threads.now s
        × (length ids.old.items + length (ready_of s priority) ≤ MOST) }
    ensures { (s : ThreadTable) → Stands R.stands threads.now s
        → ids.new.items ≡ ids.old.items ++ ready_of s priority }
{
    for place in 0..MOST_THREADS {
        let Some(id) = threads.ready_at(priority, place) else {
            return;
        };
        ids.push(id);
    }
}

/// Tells the ids of the ready threads, by priority, and by arrival within one.
fn ready_ids<R: Ready>(threads: &Threads<R>) -> ArrayVec<u32, MOST_THREADS>
    requires sound { (s : ThreadTable) × Stands R.stands threads.now s }
    ensures { (s : ThreadTable) → Stands R.stands threads.now s
        → result.items ≡ (in_order s).ready }
{
    let mut ids = ArrayVec::new();
    for better in 0..LOWEST_PRIORITY as u8 {
        push_ready(threads, Priority::new(better + 1), &mut ids);
    }
    ids
}

/// Writes the ids of the ready threads, by priority, and by arrival within one.
pub fn save_ready<R: Ready, S: Sink>(
    threads: &Threads<R>,
    encoder: &mut Encoder<'_, S>,
) -> Result<(), WriteFault>
    requires sound { (s : ThreadTable) × Stands R.stands threads.now s }
    ensures written { (s : ThreadTable) → Stands R.stands threads.now s
        → Writes result (spell_list id_form (in_order s).ready) (place_of S.told encoder.old)
        (place_of S.told encoder.new) }
    ensures fits { OnOk result ((s : ThreadTable) → Stands R.stands threads.now s
        → fits_list (λ _. id_form) (in_order s).ready ≡ true) }
{
    let ids = ready_ids(threads);
    let count = ids.len() as u32;
    let mut left = IdsLeft {
        ids: ids.as_slice(),
    };
    save_list::<u32, IdsLeft<'_>, S>(count, &mut left, encoder)
}

/// Reads the id of a thread. None exactly where the bytes at the front are none.
#[tactic(auto, unfolding(crate::specs::Tables::id_form, iop_snapshot::specs::Forms::item))]
fn restore_id(decoder: &mut Decoder<'_>) -> Option<u32>
    ensures { Reads id_form result decoder.old decoder.new }
{
    let mut numbers = [0; 1];
    decoder.item(&THREAD_ID, &mut numbers)?;
    Some(numbers[0] as u32)
}

/// The ids of ready threads that were read. Which of them may be ready is told by the threads that
/// stand, which no form can name: they are put back behind.
#[derive(Drop)]
struct Ids {
    ids: Vec<u32>,
}

impl Ids {
    /// Puts an id behind the others.
    fn push(&mut self, id: u32) -> Result<(), AllocError>
        ensures { OnOk result (self.new.ids.items ≡ self.old.ids.items ++ id ∷ []) }
    {
        Ok(self.ids.push(id)?)
    }

    /// Tells whether no more threads can be ready.
    fn is_full(&self) -> bool
        ensures { MatchBool result (MOST ≤ length self.now.ids.items)
            (length self.now.ids.items < MOST) }
    {
        self.ids.len() >= MOST_THREADS
    }

    /// Reads the next id.
    fn take(&mut self, decoder: &mut Decoder<'_>) -> Result<(), SnapFault>
        ensures { let read = (next_ready self.old.ids.items).read decoder.old in
            MatchResult result
            (λ _. (id : ℕ) × (self.new.ids.items ≡ self.old.ids.items ++ id ∷ [])
            × (read ≡ Some (id, decoder.new)))
            (GivesNone read) }
    {
        let Some(id) = restore_id(decoder) else {
            return Err(SnapFault::Bad);
        };
        if self.is_full() {
            return Err(SnapFault::Bad);
        }
        self.push(id)?;
        Ok(())
    }
}

impl RestoreItems<u32> for Ids {
    ghost starts = { λ base. base.ids.items ≡ [] };

    ghost grows = { λ base now xs. now.ids.items ≡ base.ids.items ++ xs };

    ghost next_form = { λ base xs. next_ready xs };

    fn restore_next(&mut self, decoder: &mut Decoder<'_>) -> Result<(), SnapFault> {
        self.take(decoder)
    }

    ghost begins = { λ base u. none_behind base.ids.items };
}

/// Reads the ids of ready threads, by priority and by arrival within one. `Bad` exactly where no
/// list of `MOST_THREADS` or fewer can be read, unless memory runs out.
pub fn restore_ready(alloc: Global, decoder: &mut Decoder<'_>) -> Result<Vec<u32>, SnapFault>
    ensures { let read = read_list next_ready decoder.old in
        MatchResult result (λ ids. read ≡ Some (ids.items, decoder.new)) (GivesNone read) }
{
    let mut ids = Ids {
        ids: Vec::new(alloc),
    };
    restore_list::<u32, Ids>(&mut ids, decoder)?;
    Ok(ids.ids)
}

/// Puts threads back into the ready list, one behind the other. None exactly where one of them is
/// refused: none of its id is live, it is not ready, or it may not stand behind the others.
pub fn put_ready<R: Ready + Drop>(
    threads: RestoredThreads<R>,
    ids: &[u32],
) -> Option<RestoredThreads<R>>
    requires sound { IsRestored R.stands threads }
    ensures { (s : ThreadTable) → Restores R.stands threads s
        → MatchOption result (put_all put_ready s ids.now ≡ None)
        (λ now. (t : ThreadTable) × Restores R.stands now t
        × (put_all put_ready s ids.now ≡ Some t)) }
{
    let mut threads = threads;
    for id in ids {
        if !threads.put_ready(*id) {
            return None;
        }
    }
    Some(threads)
}
