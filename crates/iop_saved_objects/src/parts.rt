//! What stands in a snapshot of an object: what is known of it, and the lists behind it.

ghost use Rattle.std.specs.Prelude.{ℕ, Option};
ghost use Rattle.iop_snapshot.specs.Forms.{Form};
ghost use Rattle.iop_snapshot.specs.Writing.{place_of};
ghost use Rattle.iop_saved_objects.specs.Lists.{with_list, put_with_list};
ghost use Rattle.iop_saved_objects.specs.Restored.{PutsPart};
ghost use Rattle.iop_saved_objects.specs.Saved.{IsSaved};

use crate::head::Head;
use crate::priorities::Priorities;
use crate::putting::{Listed, PutHead, Restored, restore_head};
use crate::record::Record;
use iop_base::WriteFault;
use iop_ports::Sink;
use iop_snapshot::{Decoder, Encoder, SnapFault, restore_list};
use std::marker::Model;

/// What is written of an object of a table, and put back: a head, and lists of records behind it.
pub(crate) trait Part<T>: Sized {
    /// What is known of an object without its lists.
    type State;

    /// How it is spelled.
    ghost form: { Form Self };

    /// What is written of the object of an id of which so much is known.
    ghost saved: { T → ℕ → Self.State → Self };

    /// The id that it tells.
    ghost id_of: { Self → ℕ };

    /// An object is put back behind all others, where threads have these priorities; none where the
    /// table does not take it.
    ghost put: { (ℕ → Option ℕ) → T → Self → Option T };

    /// Writes it. It has a spelling.
    fn save<S: Sink>(
        table: &T,
        id: u32,
        state: Self::State,
        encoder: &mut Encoder<'_, S>,
    ) -> Result<(), WriteFault>
        ensures { IsSaved form (saved table.now id state) result (place_of S.told encoder.old)
            (place_of S.told encoder.new) };

    /// Reads the next one and puts it back. `Bad` exactly where none can be read that the table
    /// takes.
    fn restore<P: Priorities>(
        restored: &mut Restored<'_, T, P>,
        decoder: &mut Decoder<'_>,
    ) -> Result<(), SnapFault>
        ensures { PutsPart (put (P.of restored.old.priorities.now)) form id_of restored.old
            restored.new result decoder.old decoder.new };
}

impl<A: Copy, T: PutHead<Head<A>>> Part<T> for Head<A>
where
    Head<A>: Record,
{
    type State = A;

    ghost form = { ⟦<Head<A> as Record>⟧.form };

    ghost saved = { λ table id state. record { id = id; state = state } };

    ghost id_of = { λ head. head.id };

    ghost put = { λ priorities. T.put_head };

    fn save<S: Sink>(
        _table: &T,
        id: u32,
        state: A,
        encoder: &mut Encoder<'_, S>,
    ) -> Result<(), WriteFault> {
        Head { id, state }.save(encoder)
    }

    fn restore<P: Priorities>(
        restored: &mut Restored<'_, T, P>,
        decoder: &mut Decoder<'_>,
    ) -> Result<(), SnapFault> {
        let head = restore_head::<Head<A>, T>(&mut restored.table, decoder)?;
        restored.id = head.id;
        Ok(())
    }
}

/// A value with a list behind it. It stands for what contracts see: none is made.
#[derive(Drop)]
pub(crate) struct WithList<H, X> {
    head: H,
    items: Vec<X>,
}

impl<H, X> Model for WithList<H, X> {
    ghost use Rattle.std.specs.Prelude.{List};

    ghost Value = { H × List X };

    ghost view = { λ value. (value.head, value.items.items) };
}

impl<T: Listed<X>, H: Part<T>, X: Record> Part<T> for WithList<H, X> {
    type State = H::State;

    ghost form = { with_list H.form X.form };

    ghost saved = { λ table id state. (H.saved table id state, T.items table id) };

    ghost id_of = { λ value. H.id_of value.0 };

    ghost put = { λ priorities.
        put_with_list (H.put priorities) (λ head. T.put_item priorities (H.id_of head)) };

    fn save<S: Sink>(
        table: &T,
        id: u32,
        state: H::State,
        encoder: &mut Encoder<'_, S>,
    ) -> Result<(), WriteFault> {
        H::save(table, id, state, encoder)?;
        table.save_items(id, encoder)
    }

    fn restore<P: Priorities>(
        restored: &mut Restored<'_, T, P>,
        decoder: &mut Decoder<'_>,
    ) -> Result<(), SnapFault> {
        H::restore(restored, decoder)?;
        restore_list::<X, Restored<'_, T, P>>(restored, decoder)
    }
}
