//! Lists of records, read and put back into a table behind an object.

ghost use Rattle.std.specs.Prelude.{◌≡◌, ℕ, List, Option, Some, MatchResult, is_some, true};
ghost use Rattle.iop_snapshot.specs.Forms.{tested};
ghost use Rattle.iop_snapshot.specs.Putting.{may_put, next_form, PutsOne};
ghost use Rattle.iop_snapshot.specs.Reading.{GivesNone};
ghost use Rattle.iop_snapshot.specs.Writing.{place_of};
ghost use Rattle.iop_saved_objects.specs.Begins.{none_put_in};
ghost use Rattle.iop_saved_objects.specs.Lists.{list_of};
ghost use Rattle.iop_saved_objects.specs.Restored.{HasPut, IsPut};
ghost use Rattle.iop_saved_objects.specs.Saved.{IsSaved};

use crate::priorities::Priorities;
use crate::record::Record;
use iop_base::WriteFault;
use iop_ports::Sink;
use iop_snapshot::{Decoder, Encoder, RestoreItems, SnapFault};

/// A table in which records stand with an object.
pub(crate) trait Listed<X: Record> {
    /// Those that stand with the object of an id.
    ghost items: { Self → ℕ → List X };

    /// A record is put behind those that stand with the object of an id, where threads have these
    /// priorities; none where the table does not take it.
    ghost put_item: { (ℕ → Option ℕ) → ℕ → Self → X → Option Self };

    /// Writes those that stand with an object. Each has a spelling.
    fn save_items<S: Sink>(&self, id: u32, encoder: &mut Encoder<'_, S>) -> Result<(), WriteFault>
        ensures { IsSaved (list_of X.form) (items self.now id) result
            (place_of S.told encoder.old) (place_of S.told encoder.new) };

    /// Puts one there. False exactly where the table does not take it.
    fn put_item<P: Priorities>(&mut self, priorities: &P, id: u32, item: X) -> bool
        ensures may { result ≡ is_some (put_item (P.of priorities.now) id self.old item) }
        ensures put { result ≡ true
            → put_item (P.of priorities.now) id self.old item ≡ Some self.new };
}

/// A table into which objects are put back.
#[derive(Drop)]
pub(crate) struct Restored<'a, T, P> {
    pub table: T,
    /// What tells the priorities of the threads that wait.
    pub priorities: &'a P,
    /// The id of the object that was put last.
    pub id: u32,
}

/// Reads the next record that stands with the object and puts it back.
fn put_next<X: Record, T: Listed<X>, P: Priorities>(
    restored: &mut Restored<'_, T, P>,
    decoder: &mut Decoder<'_>,
) -> Result<(), SnapFault>
    ensures one { PutsOne (T.put_item (P.of restored.old.priorities.now) restored.old.id) X.form
        restored.old.table restored.new.table result decoder.old decoder.new }
    ensures same_id { restored.new.id ≡ restored.old.id }
    ensures same { restored.new.priorities ≡ restored.old.priorities }
{
    let Some(item) = X::restore(decoder) else {
        return Err(SnapFault::Bad);
    };
    if restored
        .table
        .put_item(restored.priorities, restored.id, item)
    {
        Ok(())
    } else {
        Err(SnapFault::Bad)
    }
}

impl<X: Record, T: Listed<X>, P: Priorities> RestoreItems<X> for Restored<'_, T, P> {
    ghost starts = { λ _. Unit {0} };

    ghost grows = { λ base now xs.
        HasPut (T.put_item (P.of base.priorities.now) base.id) base now xs };

    ghost next_form = { λ base xs.
        next_form (T.put_item (P.of base.priorities.now) base.id) X.form base.table xs };

    fn restore_next(&mut self, decoder: &mut Decoder<'_>) -> Result<(), SnapFault> {
        put_next::<X, T, P>(self, decoder)
    }

    ghost begins = { λ base u. none_put_in (T.put_item (P.of base.priorities.now) base.id) base };
}

/// A table that takes what stands in front of the lists of an object.
pub(crate) trait PutHead<H> {
    /// It is put behind all others; none where the table does not take it.
    ghost put_head: { Self → H → Option Self };

    /// Puts it there. False exactly where the table does not take it.
    fn put_head(&mut self, head: H) -> bool
        ensures may { result ≡ is_some (put_head self.old head) }
        ensures put { result ≡ true → put_head self.old head ≡ Some self.new };
}

/// Reads the next one and puts it back.
pub(crate) fn restore_head<H: Record, T: PutHead<H>>(
    table: &mut T,
    decoder: &mut Decoder<'_>,
) -> Result<H, SnapFault>
    ensures { MatchResult result
        (λ head. IsPut T.put_head H.form table.old table.new head decoder.old decoder.new)
        (GivesNone ((tested H.form (may_put T.put_head table.old)).read decoder.old)) }
{
    let Some(head) = H::restore(decoder) else {
        return Err(SnapFault::Bad);
    };
    if table.put_head(head) {
        Ok(head)
    } else {
        Err(SnapFault::Bad)
    }
}
