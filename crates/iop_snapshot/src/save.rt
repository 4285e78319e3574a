//! Lists, written one item after the other.

ghost use Rattle.std.specs.Prelude.{◌≡◌, List, ◌∷◌, true, length, OnOk};
ghost use Rattle.std.specs.List.{list_all, flat_map};
ghost use Rattle.iop_snapshot.specs.Forms.{Form, spell_list, fits_list};
ghost use Rattle.iop_snapshot.specs.Writing.{place_of, Writes};

use crate::encoder::Encoder;
use crate::widths::COUNT;
use iop_base::WriteFault;
use iop_ports::Sink;

/// The items of a list of `X` that are still to be written, in order. `X` is what contracts see of
/// an item.
pub trait SaveItems<X> {
    /// These items are still to be written, in this order.
    ghost ahead: { Self → List X → Type 0 };

    /// The form of an item.
    ghost form: { Form X };

    /// Writes the next item, where there is one, and goes on to the one behind it. It has a
    /// spelling.
    fn save_next<S: Sink>(&mut self, encoder: &mut Encoder<'_, S>) -> Result<(), WriteFault>
        ensures written { (x : X) (xs : List X) → ahead self.old (x ∷ xs)
            → Writes result (form.spell x) (place_of S.told encoder.old)
            (place_of S.told encoder.new) }
        ensures next { OnOk result ((x : X) (xs : List X) → ahead self.old (x ∷ xs)
            → ahead self.new xs × (form.fits x ≡ true)) };
}

/// Writes so many items, which are all that are still to be written. Each of them has a spelling.
pub fn save_items<X, I: SaveItems<X>, S: Sink>(
    count: u32,
    items: &mut I,
    encoder: &mut Encoder<'_, S>,
) -> Result<(), WriteFault>
    requires counted { (xs : List X) → I.ahead items.old xs → length xs ≡ count }
    ensures written { (xs : List X) → I.ahead items.old xs
        → Writes result (flat_map I.form.spell xs) (place_of S.told encoder.old)
        (place_of S.told encoder.new) }
    ensures fits { OnOk result ((xs : List X) → I.ahead items.old xs
        → list_all I.form.fits xs ≡ true) }
{
    for _ in 0..count {
        items.save_next(encoder)?;
    }
    Ok(())
}

/// Writes a list: how many items it has, and the items. Each of them has a spelling.
pub fn save_list<X, I: SaveItems<X>, S: Sink>(
    count: u32,
    items: &mut I,
    encoder: &mut Encoder<'_, S>,
) -> Result<(), WriteFault>
    requires counted { (xs : List X) → I.ahead items.old xs → length xs ≡ count }
    ensures written { (xs : List X) → I.ahead items.old xs
        → Writes result (spell_list I.form xs) (place_of S.told encoder.old)
        (place_of S.told encoder.new) }
    ensures fits { OnOk result ((xs : List X) → I.ahead items.old xs
        → fits_list (λ _. I.form) xs ≡ true) }
{
    encoder.item(&COUNT, &[u64::from(count)])?;
    save_items(count, items, encoder)
}
