//! Live stubs.

ghost use Rattle.std.specs.Prelude.{◌≡◌, ◌<◌, ◌≤◌, [], ◌∷◌, ◌++◌, None, Some, true, MatchOption, MatchResult, MatchBool, OnOk, length};
ghost use Rattle.iop_snapshot.specs.Forms.{spell_list, fits_list, read_list};
ghost use Rattle.iop_snapshot.specs.Items.{fits_item};
ghost use Rattle.iop_snapshot.specs.Putting.{put_all};
ghost use Rattle.iop_snapshot.specs.Reading.{GivesNone};
ghost use Rattle.iop_snapshot.specs.Writing.{place_of, Writes};
ghost use Rattle.iop_snapshot.specs.declared.widths.TheConstants.{STUB as WIDTHS};
ghost use Rattle.iop_stubs.specs.declared.live_stub.Stub.{Stub as LiveStub};
ghost use Rattle.iop_stubs.specs.declared.live_stub.TheConstants.Stub.{MOST_LIVE};
ghost use Rattle.iop_snapshot.specs.Begins.{none_behind};
ghost use Rattle.iop_saved_tables.specs.Records.{stub_numbers, stub_form, next_stub};
ghost use Rattle.iop_saved_tables.specs.Tables.{put_stub};

use crate::record::{Record, save_records};
use iop_base::WriteFault;
use iop_ports::Sink;
use iop_snapshot::widths::STUB;
use iop_snapshot::{Decoder, Encoder, RestoreItems, SnapFault, restore_list};
use iop_stubs::{Guest, Stub};
use std::alloc::{AllocError, Global};

/// Tells the numbers of a stub.
fn numbers_of_stub(stub: Stub) -> [u64; 12]
    ensures numbers { result ≡ stub_numbers stub }
    ensures fits { fits_item WIDTHS (stub_numbers stub) ≡ true }
{
    let [a, b, c, d, e, f, g, h] = stub.name;
    [
        u64::from(stub.at),
        u64::from(a),
        u64::from(b),
        u64::from(c),
        u64::from(d),
        u64::from(e),
        u64::from(f),
        u64::from(g),
        u64::from(h),
        u64::from(stub.major),
        u64::from(stub.index),
        u64::from(stub.target),
    ]
}

impl Record for Stub {
    ghost form = { stub_form };

    #[tactic(auto, unfolding(crate::specs::Records::stub_form, iop_snapshot::specs::Forms::item))]
    fn save<S: Sink>(self, encoder: &mut Encoder<'_, S>) -> Result<(), WriteFault> {
        encoder.item(&STUB, &numbers_of_stub(self))
    }

    #[tactic(auto, unfolding(crate::specs::Records::stub_form, iop_snapshot::specs::Forms::item))]
    fn restore(decoder: &mut Decoder<'_>) -> Option<Self> {
        let mut numbers = [0; 12];
        decoder.item(&STUB, &mut numbers)?;
        let [at, a, b, c, d, e, f, g, h, major, index, target] = numbers;
        Some(Stub {
            at: at as u32,
            name: [
                a as u8, b as u8, c as u8, d as u8, e as u8, f as u8, g as u8, h as u8,
            ],
            major: major as u8,
            index: index as u16,
            target: target as u32,
        })
    }
}

/// Writes the live stubs of memory, in the order of their places.
pub fn save_stubs<S: Sink>(guest: &Guest, encoder: &mut Encoder<'_, S>) -> Result<(), WriteFault>
    ensures written { Writes result (spell_list stub_form guest.now.live)
        (place_of S.told encoder.old) (place_of S.told encoder.new) }
    ensures fits { OnOk result (fits_list (λ _. stub_form) guest.now.live ≡ true) }
{
    save_records(guest.stubs(), encoder)
}

/// Stubs that were read. RAM comes behind them, without which none is live.
#[derive(Drop)]
struct Stubs {
    stubs: Vec<Stub>,
}

impl Stubs {
    /// Puts a stub behind the others.
    fn push(&mut self, stub: Stub) -> Result<(), AllocError>
        ensures { OnOk result (self.new.stubs.items ≡ self.old.stubs.items ++ stub ∷ []) }
    {
        Ok(self.stubs.push(stub)?)
    }

    /// Tells whether no more stubs can be live.
    fn is_full(&self) -> bool
        ensures { MatchBool result (MOST_LIVE ≤ length self.now.stubs.items)
            (length self.now.stubs.items < MOST_LIVE) }
    {
        self.stubs.len() >= Stub::MOST_LIVE as usize
    }

    /// Reads the next stub.
    fn take(&mut self, decoder: &mut Decoder<'_>) -> Result<(), SnapFault>
        ensures { let read = (next_stub self.old.stubs.items).read decoder.old in
            MatchResult result
            (λ _. (x : LiveStub) × (self.new.stubs.items ≡ self.old.stubs.items ++ x ∷ [])
            × (read ≡ Some (x, decoder.new)))
            (GivesNone read) }
    {
        let Some(stub) = Stub::restore(decoder) else {
            return Err(SnapFault::Bad);
        };
        if self.is_full() {
            return Err(SnapFault::Bad);
        }
        self.push(stub)?;
        Ok(())
    }
}

impl RestoreItems<Stub> for Stubs {
    ghost starts = { λ base. base.stubs.items ≡ [] };

    ghost grows = { λ base now xs. now.stubs.items ≡ base.stubs.items ++ xs };

    ghost next_form = { λ base xs. next_stub xs };

    fn restore_next(&mut self, decoder: &mut Decoder<'_>) -> Result<(), SnapFault> {
        self.take(decoder)
    }

    ghost begins = { λ base u. none_behind base.stubs.items };
}

/// Reads stubs, of which at most `Stub::MOST_LIVE` can be live. `Bad` exactly where no list of so
/// many or fewer can be read, unless memory runs out.
pub fn restore_stubs(alloc: Global, decoder: &mut Decoder<'_>) -> Result<Vec<Stub>, SnapFault>
    ensures { let read = read_list next_stub decoder.old in
        MatchResult result (λ stubs. read ≡ Some (stubs.items, decoder.new)) (GivesNone read) }
{
    let mut stubs = Stubs {
        stubs: Vec::new(alloc),
    };
    restore_list::<Stub, Stubs>(&mut stubs, decoder)?;
    Ok(stubs.stubs)
}

/// Puts stubs back into memory, one behind the other. None exactly where one of them is refused: it
/// is not behind the others, or RAM does not have its words.
pub fn put_stubs(guest: Guest, stubs: &[Stub]) -> Option<Guest>
    ensures { MatchOption result (put_all put_stub guest stubs.now ≡ None)
        (λ now. put_all put_stub guest stubs.now ≡ Some now) }
{
    let mut guest = guest;
    for stub in stubs {
        if !guest.put_back(*stub) {
            return None;
        }
    }
    Some(guest)
}
