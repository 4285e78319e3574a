//! Lists, read one item after the other.

ghost use Rattle.std.specs.Prelude.{◌≡◌, List, [], ◌∷◌, ◌++◌, Some, MatchResult};
ghost use Rattle.iop_snapshot.specs.Forms.{Form, read_items, read_list};
ghost use Rattle.iop_snapshot.specs.Reading.{GivesNone};

use crate::decoder::Decoder;
use crate::fault::SnapFault;
use crate::widths::COUNT;

/// What takes a list of `X` from bytes, one behind the other. `X` is what contracts see of an item.
pub trait RestoreItems<X> {
    /// It may begin to take a list.
    ghost starts: { Self → Type 0 };

    /// The second is the first with these items put behind what it has.
    ghost grows: { Self → Self → List X → Type 0 };

    /// The form of the next item, behind those that were put into the first.
    ghost next_form: { Self → List X → Form X };

    /// Takes the next item. `Bad` exactly where its form reads none, unless memory runs out.
    fn restore_next(&mut self, decoder: &mut Decoder<'_>) -> Result<(), SnapFault>
        requires { (base : Self) × (xs : List X) × starts base × grows base self.old xs }
        ensures { (base : Self) (xs : List X) → starts base → grows base self.old xs
            → MatchResult result
            (λ _. (x : X) × grows base self.new (xs ++ x ∷ [])
            × ((next_form base xs).read decoder.old ≡ Some (x, decoder.new)))
            (GivesNone ((next_form base xs).read decoder.old)) };

    /// With none put behind it, it is as it was.
    ghost begins: { (base : Self) → starts base → grows base base [] };
}

/// Reads so many items into a table. `Bad` exactly where they cannot be read, unless memory runs
/// out.
pub fn restore_items<X, T: RestoreItems<X>>(
    count: u64,
    table: &mut T,
    decoder: &mut Decoder<'_>,
) -> Result<(), SnapFault>
    requires { T.starts table.old }
    ensures { let read = read_items (T.next_form table.old) [] count decoder.old in
        MatchResult result
        (λ _. (xs : List X) × T.grows table.old table.new xs × (read ≡ Some (xs, decoder.new)))
        (GivesNone read) }
{
    for _ in 0..count {
        table.restore_next(decoder)?;
    }
    Ok(())
}

/// Reads a list into a table. `Bad` exactly where none can be read, unless memory runs out.
pub fn restore_list<X, T: RestoreItems<X>>(
    table: &mut T,
    decoder: &mut Decoder<'_>,
) -> Result<(), SnapFault>
    requires { T.starts table.old }
    ensures { MatchResult result
        (λ _. (xs : List X) × T.grows table.old table.new xs
        × (read_list (T.next_form table.old) decoder.old ≡ Some (xs, decoder.new)))
        (GivesNone (read_list (T.next_form table.old) decoder.old)) }
{
    let mut count = [0; 1];
    let Some(()) = decoder.item(&COUNT, &mut count) else {
        return Err(SnapFault::Bad);
    };
    restore_items(count[0], table, decoder)
}
