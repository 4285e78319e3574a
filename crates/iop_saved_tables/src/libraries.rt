//! Registered libraries.

ghost use Rattle.std.specs.Prelude.{◌≡◌, Some, true, OnOk};
ghost use Rattle.iop_snapshot.specs.Forms.{spell_list, fits_list};
ghost use Rattle.iop_snapshot.specs.Items.{fits_item};
ghost use Rattle.iop_snapshot.specs.Putting.{put_all, next_form, PutsOne, PutsAll};
ghost use Rattle.iop_snapshot.specs.Writing.{place_of, Writes};
ghost use Rattle.iop_snapshot.specs.declared.widths.TheConstants.{LIBRARY as WIDTHS};
ghost use Rattle.iop_snapshot.specs.Begins.{none_put};
ghost use Rattle.iop_saved_tables.specs.Records.{library_numbers, library_form};
ghost use Rattle.iop_saved_tables.specs.Tables.{put_library};

use crate::record::{Record, save_records};
use iop_base::WriteFault;
use iop_ports::Sink;
use iop_registry::{Entry, Registry};
use iop_snapshot::widths::LIBRARY;
use iop_snapshot::{Decoder, Encoder, RestoreItems, SnapFault, restore_list};

/// Tells the numbers of a library.
fn numbers_of_library(library: Entry) -> [u64; 10]
    ensures numbers { result ≡ library_numbers library }
    ensures fits { fits_item WIDTHS (library_numbers library) ≡ true }
{
    let [a, b, c, d, e, f, g, h] = library.name;
    [
        u64::from(a),
        u64::from(b),
        u64::from(c),
        u64::from(d),
        u64::from(e),
        u64::from(f),
        u64::from(g),
        u64::from(h),
        u64::from(library.major),
        u64::from(library.table),
    ]
}

impl Record for Entry {
    ghost form = { library_form };

    #[tactic(auto, unfolding(crate::specs::Records::library_form, iop_snapshot::specs::Forms::item))]
    fn save<S: Sink>(self, encoder: &mut Encoder<'_, S>) -> Result<(), WriteFault> {
        encoder.item(&LIBRARY, &numbers_of_library(self))
    }

    #[tactic(auto, unfolding(crate::specs::Records::library_form, iop_snapshot::specs::Forms::item))]
    fn restore(decoder: &mut Decoder<'_>) -> Option<Self> {
        let mut numbers = [0; 10];
        decoder.item(&LIBRARY, &mut numbers)?;
        let [a, b, c, d, e, f, g, h, major, table] = numbers;
        Some(Entry {
            name: [
                a as u8, b as u8, c as u8, d as u8, e as u8, f as u8, g as u8, h as u8,
            ],
            major: major as u8,
            table: table as u32,
        })
    }
}

/// Writes the libraries of a registry, in the order of their registration.
pub fn save_libraries<S: Sink>(
    registry: &Registry,
    encoder: &mut Encoder<'_, S>,
) -> Result<(), WriteFault>
    ensures written { Writes result (spell_list library_form registry.now)
        (place_of S.told encoder.old) (place_of S.told encoder.new) }
    ensures fits { OnOk result (fits_list (λ _. library_form) registry.now ≡ true) }
{
    save_records(registry.entries(), encoder)
}

/// Puts the next library back.
fn put_library(registry: &mut Registry, decoder: &mut Decoder<'_>) -> Result<(), SnapFault>
    ensures { PutsOne put_library library_form registry.old registry.new result decoder.old
        decoder.new }
{
    let Some(library) = Entry::restore(decoder) else {
        return Err(SnapFault::Bad);
    };
    if registry.put_back(library) {
        Ok(())
    } else {
        Err(SnapFault::Bad)
    }
}

/// A registry into which libraries are put back.
#[derive(Drop)]
struct Libraries {
    registry: Registry,
}

impl RestoreItems<Entry> for Libraries {
    ghost starts = { λ _. Unit {0} };

    ghost grows = { λ base now xs. put_all put_library base.registry xs ≡ Some now.registry };

    ghost next_form = { λ base xs. next_form put_library library_form base.registry xs };

    fn restore_next(&mut self, decoder: &mut Decoder<'_>) -> Result<(), SnapFault> {
        put_library(&mut self.registry, decoder)
    }

    ghost begins = { λ base u. none_put put_library base.registry };
}

/// Reads libraries and puts them back into a registry. `Bad` exactly where no list of libraries can
/// be read that it takes, unless memory runs out.
pub fn restore_libraries(
    registry: Registry,
    decoder: &mut Decoder<'_>,
) -> Result<Registry, SnapFault>
    ensures { PutsAll put_library library_form registry result decoder.old decoder.new }
{
    let mut libraries = Libraries { registry };
    restore_list::<Entry, Libraries>(&mut libraries, decoder)?;
    Ok(libraries.registry)
}
