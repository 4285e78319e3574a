//! The objects of a kind.

ghost use Rattle.std.specs.Prelude.{◌≡◌};
ghost use Rattle.std.specs.List.{list_all};
ghost use Rattle.iop_saved_checks.specs.Objects.{object_agrees};
ghost use Rattle.iop_thread.specs.Standing.{Stands};
ghost use Rattle.iop_thread.specs.ThreadTable.{ThreadTable};

use crate::waited::Waited;
use crate::waiters::are_waiters;
use iop_ready::Ready;
use iop_stubs::Guest;
use iop_thread::Threads;

/// Says whether each object of a table agrees with the threads and with memory.
pub(crate) fn objects_agree<T: Waited, R: Ready>(
    table: &T,
    threads: &Threads<R>,
    guest: &Guest,
) -> bool
    ensures { (s : ThreadTable) → Stands R.stands threads.now s → result ≡ list_all
        (λ id. object_agrees s T.kind (T.has_place guest.now) (T.waiters table.now id)
        (T.is_idle table.now id) id) (T.ids table.now) }
{
    for place in 0..table.len() {
        let Some(id) = table.id_at(place) else {
            return true;
        };
        if !object_agrees(table, id, threads, guest) {
            return false;
        }
    }
    true
}

/// Says whether the object of an id agrees with the threads and with memory: those that wait for it
/// do so by their states and have places for what they are told, and there is nothing to be had.
fn object_agrees<T: Waited, R: Ready>(
    table: &T,
    id: u32,
    threads: &Threads<R>,
    guest: &Guest,
) -> bool
    ensures { (s : ThreadTable) → Stands R.stands threads.now s
        → result ≡ object_agrees s T.kind (T.has_place guest.now) (T.waiters table.now id)
        (T.is_idle table.now id) id }
{
    are_waiters::<T, R>(table.walk(id), id, threads, guest) && table.is_idle(id)
}
