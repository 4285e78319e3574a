//! Values that are spelled one behind the other, and lists of them.

ghost use Rattle.std.proofs.Common.{append-nil, sym};
ghost use Rattle.std.specs.Prelude.{◌≡◌, ◌∷◌, ◌++◌, [], Some, true, All, MatchResult, OnOk};
ghost use Rattle.iop_snapshot.specs.Forms.{Form};
ghost use Rattle.iop_snapshot.specs.Reading.{GivesNone};
ghost use Rattle.iop_snapshot.specs.Writing.{place_of, Writes};
ghost use Rattle.iop_saved_script.specs.Forms.{list_of};
ghost use Rattle.iop_saved_script.specs.Sizes.{IsShort};

use iop_base::WriteFault;
use iop_ports::Sink;
use iop_snapshot::{Decoder, Encoder, RestoreItems, SaveItems, SnapFault, restore_list, save_list};
use std::alloc::{AllocError, Global};
use std::marker::Model;

/// A value of a list.
pub(crate) trait Spelled: Drop {
    /// How it is spelled.
    ghost form: { Form Self };

    /// The lists in it have room in their counts.
    ghost IsSized: { Self → Type 0 };

    /// Writes it. It has a spelling.
    fn save<S: Sink>(&self, encoder: &mut Encoder<'_, S>) -> Result<(), WriteFault>
        requires { IsSized self.now }
        ensures written { Writes result (form.spell self.now) (place_of S.told encoder.old)
            (place_of S.told encoder.new) }
        ensures fits { OnOk result (form.fits self.now ≡ true) };

    /// Reads one. `Bad` exactly where the bytes at the front are none, unless memory runs out.
    fn restore(alloc: Global, decoder: &mut Decoder<'_>) -> Result<Self, SnapFault>
        ensures { let read = form.read decoder.old in
            MatchResult result (λ value. read ≡ Some (value, decoder.new)) (GivesNone read) };
}

/// The values of a list that are still to be written.
#[derive(Drop)]
struct Rest<'a, T: Spelled> {
    items: &'a [T],
}

impl<'a, T: Spelled> Model for Rest<'a, T> {
    ghost use Rattle.std.specs.Prelude.{All, List};

    ghost Value = { List T };

    ghost view = { λ rest. rest.items.now };

    ghost invariant = { λ rest. All T.IsSized rest.items.now };
}

impl<T: Spelled> SaveItems<T> for Rest<'_, T> {
    ghost ahead = { λ rest xs. rest ≡ xs };

    ghost form = { T.form };

    fn save_next<S: Sink>(&mut self, encoder: &mut Encoder<'_, S>) -> Result<(), WriteFault> {
        let Some((item, rest)) = self.items.split_first() else {
            return Ok(());
        };
        item.save(encoder)?;
        self.items = rest;
        Ok(())
    }
}

/// Writes a list of values.
pub(crate) fn save_all<T: Spelled, S: Sink>(
    items: &[T],
    encoder: &mut Encoder<'_, S>,
) -> Result<(), WriteFault>
    requires few { IsShort items.now }
    requires sized { All T.IsSized items.now }
    ensures written { Writes result ((list_of T.form).spell items.now)
        (place_of S.told encoder.old) (place_of S.told encoder.new) }
    ensures fits { OnOk result ((list_of T.form).fits items.now ≡ true) }
{
    let count = items.len() as u32;
    save_list::<T, Rest<'_, T>, S>(count, &mut Rest { items }, encoder)
}

/// The values of a list that were read.
#[derive(Drop)]
struct Taken<T> {
    alloc: Global,
    items: Vec<T>,
}

impl<T: Drop> Taken<T> {
    /// Puts a value behind the others.
    fn push(&mut self, item: T) -> Result<(), AllocError>
        ensures { OnOk result (self.new.items.items ≡ self.old.items.items ++ item ∷ []) }
    {
        Ok(self.items.push(item)?)
    }
}

impl<T: Spelled> RestoreItems<T> for Taken<T> {
    ghost starts = { λ base. base.items.items ≡ [] };

    ghost grows = { λ base now xs. now.items.items ≡ base.items.items ++ xs };

    ghost next_form = { λ base xs. T.form };

    fn restore_next(&mut self, decoder: &mut Decoder<'_>) -> Result<(), SnapFault> {
        let item = T::restore(self.alloc, decoder)?;
        self.push(item)?;
        Ok(())
    }

    ghost begins = { λ base u. sym (append-nil base.items.items) };
}

/// Reads a list of values. `Bad` exactly where none can be read, unless memory runs out.
pub(crate) fn restore_all<T: Spelled>(
    alloc: Global,
    decoder: &mut Decoder<'_>,
) -> Result<Vec<T>, SnapFault>
    ensures { let read = (list_of T.form).read decoder.old in
        MatchResult result (λ xs. read ≡ Some (xs.items, decoder.new)) (GivesNone read) }
{
    let mut taken = Taken {
        alloc,
        items: Vec::new(alloc),
    };
    restore_list::<T, Taken<T>>(&mut taken, decoder)?;
    Ok(taken.items)
}
