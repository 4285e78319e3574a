//! The alarms and the delays.

ghost use Rattle.std.specs.Prelude.{◌≡◌, OnOk, true};
ghost use Rattle.iop_saved_kernel.specs.Restoring.{Restores};
ghost use Rattle.iop_saved_kernel.specs.TimerLists.{timers_form, timer_lists, timers_back};
ghost use Rattle.iop_snapshot.specs.Writing.{place_of, Writes};

use iop_base::WriteFault;
use iop_ports::Sink;
use iop_saved_tables::{restore_alarms, restore_delays, save_alarms, save_delays};
use iop_snapshot::{Decoder, Encoder, SnapFault};
use iop_time::Clock;
use std::alloc::Global;

/// Writes the alarms of a clock and then its delays, each by their numbers.
#[tactic(auto, using(iop_snapshot::proofs::Sending::writes_then, iop_snapshot::proofs::Sending::writes_exit), unfolding(crate::specs::TimerLists::timers_form))]
pub(crate) fn save_timers<S: Sink>(
    clock: &Clock,
    encoder: &mut Encoder<'_, S>,
) -> Result<(), WriteFault>
    ensures written { Writes result (timers_form.spell (timer_lists clock.now))
        (place_of S.told encoder.old) (place_of S.told encoder.new) }
    ensures fits { OnOk result (timers_form.fits (timer_lists clock.now) ≡ true) }
{
    save_alarms(clock, encoder)?;
    save_delays(clock, encoder)
}

/// Reads alarms and delays and puts them back into a clock of none. `Bad` exactly where none can be
/// read that a clock can have, unless memory runs out.
pub(crate) fn restore_timers(alloc: Global, decoder: &mut Decoder<'_>) -> Result<Clock, SnapFault>
    ensures { Restores timers_form timers_back (λ made state. state ≡ made) result decoder.old
        decoder.new }
{
    let clock = Clock::new(alloc)?;
    let clock = restore_alarms(clock, decoder)?;
    restore_delays(clock, decoder)
}
