//! Tables of objects, written and read as lists.

ghost use Rattle.std.specs.Prelude.{◌≡◌, ◌<◌, ◌^◌, List, Some, OnOk, drop, length, option_map, slice_get, true};
ghost use Rattle.iop_snapshot.specs.Begins.{none_put};
ghost use Rattle.iop_snapshot.specs.Forms.{spell_list, fits_list};
ghost use Rattle.iop_snapshot.specs.Putting.{put_all, next_form, PutsAll};
ghost use Rattle.iop_snapshot.specs.Writing.{place_of, Writes};
ghost use Rattle.iop_saved_objects.specs.Begins.{same};

use crate::parts::Part;
use crate::priorities::Priorities;
use crate::putting::Restored;
use iop_base::WriteFault;
use iop_ports::Sink;
use iop_snapshot::{Decoder, Encoder, RestoreItems, SaveItems, SnapFault, restore_list, save_list};

/// A table of objects that are written and put back in the order of their ids. `X` is what is
/// written of an object.
pub(crate) trait Table<X: Part<Self>>: Sized {
    /// What is written of the objects.
    ghost saved: { Self → List X };

    /// Tells how many objects there are.
    fn len(&self) -> usize
        ensures count { result ≡ length (saved self.now) }
        ensures few { result < 2 ^ 32 };

    /// Tells the id of the object at a place, and what is known of it. None exactly where none is
    /// there.
    fn nth(&self, place: usize) -> Option<(u32, X::State)>
        ensures { slice_get (saved self.now) place
            ≡ option_map (λ told. X.saved self.now told.0 told.1) result };
}

/// The objects from a place on, which are still to be written.
#[derive(Drop)]
struct Rest<'a, T> {
    table: &'a T,
    place: usize,
}

impl<X: Part<T>, T: Table<X>> SaveItems<X> for Rest<'_, T> {
    ghost ahead = { λ rest xs. drop rest.place (T.saved rest.table.now) ≡ xs };

    ghost form = { X.form };

    fn save_next<S: Sink>(&mut self, encoder: &mut Encoder<'_, S>) -> Result<(), WriteFault> {
        if self.place >= self.table.len() {
            return Ok(());
        }
        let Some((id, state)) = self.table.nth(self.place) else {
            return Ok(());
        };
        X::save(self.table, id, state, encoder)?;
        self.place += 1;
        Ok(())
    }
}

/// Writes the objects of a table, in the order of their ids.
pub(crate) fn save_objects<X: Part<T>, T: Table<X>, S: Sink>(
    table: &T,
    encoder: &mut Encoder<'_, S>,
) -> Result<(), WriteFault>
    ensures written { Writes result (spell_list X.form (T.saved table.now))
        (place_of S.told encoder.old) (place_of S.told encoder.new) }
    ensures fits { OnOk result (fits_list (λ _. X.form) (T.saved table.now) ≡ true) }
{
    let count = table.len() as u32;
    save_list::<X, Rest<'_, T>, S>(count, &mut Rest { table, place: 0 }, encoder)
}

/// A table into which whole objects are put back.
#[derive(Drop)]
struct Objects<'a, T, P> {
    restored: Restored<'a, T, P>,
}

impl<X: Part<T>, T, P: Priorities> RestoreItems<X> for Objects<'_, T, P> {
    ghost starts = { λ _. Unit {0} };

    ghost grows = { λ base now xs.
        (put_all (X.put (P.of base.restored.priorities.now)) base.restored.table xs
        ≡ Some now.restored.table)
        × (now.restored.priorities ≡ base.restored.priorities) };

    ghost next_form = { λ base xs.
        next_form (X.put (P.of base.restored.priorities.now)) X.form base.restored.table xs };

    fn restore_next(&mut self, decoder: &mut Decoder<'_>) -> Result<(), SnapFault> {
        X::restore(&mut self.restored, decoder)
    }

    ghost begins = { λ base u. (
      none_put (X.put (P.of base.restored.priorities.now)) base.restored.table,
      same base.restored.priorities,
    ) };
}

/// Reads objects and puts them back into a table. `Bad` exactly where no list of objects can be
/// read that it takes, unless memory runs out.
pub(crate) fn restore_objects<X: Part<T>, T: Drop, P: Priorities>(
    table: T,
    priorities: &P,
    decoder: &mut Decoder<'_>,
) -> Result<T, SnapFault>
    ensures { PutsAll (X.put (P.of priorities.now)) X.form table result decoder.old decoder.new }
{
    let mut objects = Objects {
        restored: Restored {
            table,
            priorities,
            id: 0,
        },
    };
    restore_list::<X, Objects<'_, T, P>>(&mut objects, decoder)?;
    Ok(objects.restored.table)
}
