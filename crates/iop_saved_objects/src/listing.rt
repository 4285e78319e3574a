//! Lists of records, written from a walk over them.

ghost use Rattle.std.specs.Prelude.{◌≡◌, ◌<◌, ◌^◌, [], ◌∷◌, List, MatchOption, length};
ghost use Rattle.iop_snapshot.specs.Writing.{place_of};
ghost use Rattle.iop_saved_objects.specs.Lists.{ahead_in, list_of};
ghost use Rattle.iop_saved_objects.specs.Saved.{IsSaved};
ghost use Rattle.iop_saved_objects.specs.Waiters.{saved_waiters};

use crate::record::Record;
use iop_base::WriteFault;
use iop_objects::Waiter;
use iop_pools::{BlockWalk, Range, RangeWalk};
use iop_ports::Sink;
use iop_queues::{Queued, Walk};
use iop_snapshot::{Encoder, SaveItems, save_list};

/// Records that are still to come, in order.
pub(crate) trait Items<X> {
    /// They are these.
    ghost ahead: { Self → List X };

    /// Reads the next one. None exactly where none is left.
    fn next(&mut self) -> Option<X>
        ensures { MatchOption result
            ((ahead self.old ≡ []) × (ahead self.new ≡ []))
            (λ item. ahead self.old ≡ item ∷ ahead self.new) };
}

impl<W: Copy> Items<Waiter<W>> for Walk<'_, Waiter<W>> {
    ghost ahead = { λ walk. saved_waiters walk };

    fn next(&mut self) -> Option<Waiter<W>> {
        let queued = self.next()?;
        Some(queued.item)
    }
}

impl Items<Queued<u32>> for Walk<'_, u32> {
    ghost ahead = { λ walk. walk };

    fn next(&mut self) -> Option<Queued<u32>> {
        self.next()
    }
}

impl Items<Range> for RangeWalk<'_> {
    ghost ahead = { λ walk. walk };

    fn next(&mut self) -> Option<Range> {
        self.next()
    }
}

impl Items<u32> for BlockWalk<'_> {
    ghost ahead = { λ walk. walk };

    fn next(&mut self) -> Option<u32> {
        self.next()
    }
}

/// The records of a list that are still to be written.
#[derive(Drop)]
struct Rest<I> {
    items: Option<I>,
}

impl<X: Record, I: Items<X>> SaveItems<X> for Rest<I> {
    ghost ahead = { λ rest xs. ahead_in I.ahead rest.items ≡ xs };

    ghost form = { X.form };

    fn save_next<S: Sink>(&mut self, encoder: &mut Encoder<'_, S>) -> Result<(), WriteFault> {
        let Some(items) = &mut self.items else {
            return Ok(());
        };
        let Some(item) = items.next() else {
            return Ok(());
        };
        item.save(encoder)
    }
}

/// Writes a list of so many records, those of a walk, if there is one. Each has a spelling.
pub(crate) fn save_records<X: Record, I: Items<X> + Drop, S: Sink>(
    items: Option<I>,
    count: usize,
    encoder: &mut Encoder<'_, S>,
) -> Result<(), WriteFault>
    requires counted { count ≡ length (ahead_in I.ahead items) }
    requires few { count < 2 ^ 32 }
    ensures { IsSaved (list_of X.form) (ahead_in I.ahead items) result
        (place_of S.told encoder.old) (place_of S.told encoder.new) }
{
    save_list::<X, Rest<I>, S>(count as u32, &mut Rest { items }, encoder)
}
