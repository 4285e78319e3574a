//! The events of the script that are still to come.

ghost use Rattle.std.specs.Prelude.{◌≡◌, Some, true, MatchResult, OnOk};
ghost use Rattle.iop_snapshot.specs.Items.{fits_item};
ghost use Rattle.iop_snapshot.specs.Reading.{GivesNone};
ghost use Rattle.iop_snapshot.specs.Writing.{place_of, Writes};
ghost use Rattle.iop_snapshot.specs.declared.widths.TheConstants.{SCRIPT_EVENT as WIDTHS};
ghost use Rattle.iop_saved_script.specs.Forms.{event_numbers, event_form, list_of};
ghost use Rattle.iop_saved_script.specs.Sizes.{IsShort};

use crate::list::{Spelled, restore_all, save_all};
use iop_base::WriteFault;
use iop_ports::Sink;
use iop_script::Raise;
use iop_snapshot::widths::SCRIPT_EVENT;
use iop_snapshot::{Decoder, Encoder, SnapFault, flag_of};
use std::alloc::Global;

/// Tells the numbers of an event.
fn numbers_of_event(event: Raise) -> [u64; 3]
    ensures numbers { result ≡ event_numbers event }
    ensures fits { fits_item WIDTHS (event_numbers event) ≡ true }
{
    [event.at, u64::from(event.line), u64::from(event.up)]
}

impl Spelled for Raise {
    ghost form = { event_form };

    ghost IsSized = { λ _. Unit {0} };

    #[tactic(auto, unfolding(crate::specs::Forms::event_form, iop_snapshot::specs::Forms::item))]
    fn save<S: Sink>(&self, encoder: &mut Encoder<'_, S>) -> Result<(), WriteFault> {
        encoder.item(&SCRIPT_EVENT, &numbers_of_event(*self))
    }

    #[tactic(auto, unfolding(crate::specs::Forms::event_form, iop_snapshot::specs::Forms::item))]
    fn restore(_alloc: Global, decoder: &mut Decoder<'_>) -> Result<Self, SnapFault> {
        let mut numbers = [0; 3];
        let Some(()) = decoder.item(&SCRIPT_EVENT, &mut numbers) else {
            return Err(SnapFault::Bad);
        };
        let Some(up) = flag_of(numbers[2]) else {
            return Err(SnapFault::Bad);
        };
        Ok(Raise {
            at: numbers[0],
            line: numbers[1] as u8,
            up,
        })
    }
}

/// Writes events, in their order.
pub fn save_events<S: Sink>(
    events: &[Raise],
    encoder: &mut Encoder<'_, S>,
) -> Result<(), WriteFault>
    requires few { IsShort events.now }
    ensures written { Writes result ((list_of event_form).spell events.now)
        (place_of S.told encoder.old) (place_of S.told encoder.new) }
    ensures fits { OnOk result ((list_of event_form).fits events.now ≡ true) }
{
    save_all(events, encoder)
}

/// Reads events. `Bad` exactly where no list of events can be read, unless memory runs out.
pub fn restore_events(alloc: Global, decoder: &mut Decoder<'_>) -> Result<Vec<Raise>, SnapFault>
    ensures { let read = (list_of event_form).read decoder.old in
        MatchResult result (λ events. read ≡ Some (events.items, decoder.new)) (GivesNone read) }
{
    restore_all(alloc, decoder)
}
