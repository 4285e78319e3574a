//! Alarms and delays.

ghost use Rattle.std.specs.Prelude.{◌≡◌, Some, true, OnOk};
ghost use Rattle.iop_snapshot.specs.Forms.{spell_list, fits_list};
ghost use Rattle.iop_snapshot.specs.Items.{fits_item};
ghost use Rattle.iop_snapshot.specs.Putting.{put_all, next_form, PutsOne, PutsAll};
ghost use Rattle.iop_snapshot.specs.Writing.{place_of, Writes};
ghost use Rattle.iop_snapshot.specs.declared.widths.TheConstants.{ALARM as ALARM_WIDTHS, DELAY as DELAY_WIDTHS};
ghost use Rattle.iop_snapshot.specs.Begins.{none_put};
ghost use Rattle.iop_saved_tables.specs.Records.{alarm_numbers, alarm_form, delay_numbers, delay_form};
ghost use Rattle.iop_saved_tables.specs.Tables.{put_alarm, put_delay};

use crate::record::{Record, save_records};
use iop_base::WriteFault;
use iop_ports::Sink;
use iop_snapshot::widths::{ALARM, DELAY};
use iop_snapshot::{Decoder, Encoder, RestoreItems, SnapFault, restore_list};
use iop_time::{Alarm, Clock, Delay};

/// Tells the numbers of an alarm.
fn numbers_of_alarm(alarm: Alarm) -> [u64; 5]
    ensures numbers { result ≡ alarm_numbers alarm }
    ensures fits { fits_item ALARM_WIDTHS (alarm_numbers alarm) ≡ true }
{
    [
        alarm.number,
        alarm.moment,
        u64::from(alarm.handler),
        u64::from(alarm.arg),
        u64::from(alarm.gp),
    ]
}

impl Record for Alarm {
    ghost form = { alarm_form };

    #[tactic(auto, unfolding(crate::specs::Records::alarm_form, iop_snapshot::specs::Forms::item))]
    fn save<S: Sink>(self, encoder: &mut Encoder<'_, S>) -> Result<(), WriteFault> {
        encoder.item(&ALARM, &numbers_of_alarm(self))
    }

    #[tactic(auto, unfolding(crate::specs::Records::alarm_form, iop_snapshot::specs::Forms::item))]
    fn restore(decoder: &mut Decoder<'_>) -> Option<Self> {
        let mut numbers = [0; 5];
        decoder.item(&ALARM, &mut numbers)?;
        Some(Alarm {
            number: numbers[0],
            moment: numbers[1],
            handler: numbers[2] as u32,
            arg: numbers[3] as u32,
            gp: numbers[4] as u32,
        })
    }
}

/// Tells the numbers of a delay.
fn numbers_of_delay(delay: Delay) -> [u64; 3]
    ensures numbers { result ≡ delay_numbers delay }
    ensures fits { fits_item DELAY_WIDTHS (delay_numbers delay) ≡ true }
{
    [delay.number, delay.moment, u64::from(delay.thread)]
}

impl Record for Delay {
    ghost form = { delay_form };

    #[tactic(auto, unfolding(crate::specs::Records::delay_form, iop_snapshot::specs::Forms::item))]
    fn save<S: Sink>(self, encoder: &mut Encoder<'_, S>) -> Result<(), WriteFault> {
        encoder.item(&DELAY, &numbers_of_delay(self))
    }

    #[tactic(auto, unfolding(crate::specs::Records::delay_form, iop_snapshot::specs::Forms::item))]
    fn restore(decoder: &mut Decoder<'_>) -> Option<Self> {
        let mut numbers = [0; 3];
        decoder.item(&DELAY, &mut numbers)?;
        Some(Delay {
            number: numbers[0],
            moment: numbers[1],
            thread: numbers[2] as u32,
        })
    }
}

/// Writes the alarms of a clock, in the order of their numbers.
pub fn save_alarms<S: Sink>(clock: &Clock, encoder: &mut Encoder<'_, S>) -> Result<(), WriteFault>
    ensures written { Writes result (spell_list alarm_form clock.now.alarms)
        (place_of S.told encoder.old) (place_of S.told encoder.new) }
    ensures fits { OnOk result (fits_list (λ _. alarm_form) clock.now.alarms ≡ true) }
{
    save_records(clock.alarms(), encoder)
}

/// Writes the delays of a clock, in the order of their numbers.
pub fn save_delays<S: Sink>(clock: &Clock, encoder: &mut Encoder<'_, S>) -> Result<(), WriteFault>
    ensures written { Writes result (spell_list delay_form clock.now.delays)
        (place_of S.told encoder.old) (place_of S.told encoder.new) }
    ensures fits { OnOk result (fits_list (λ _. delay_form) clock.now.delays ≡ true) }
{
    save_records(clock.delays(), encoder)
}

/// Puts the next alarm back.
fn put_alarm(clock: &mut Clock, decoder: &mut Decoder<'_>) -> Result<(), SnapFault>
    ensures { PutsOne put_alarm alarm_form clock.old clock.new result decoder.old decoder.new }
{
    let Some(alarm) = Alarm::restore(decoder) else {
        return Err(SnapFault::Bad);
    };
    if clock.put_alarm(alarm) {
        Ok(())
    } else {
        Err(SnapFault::Bad)
    }
}

/// Puts the next delay back.
fn put_delay(clock: &mut Clock, decoder: &mut Decoder<'_>) -> Result<(), SnapFault>
    ensures { PutsOne put_delay delay_form clock.old clock.new result decoder.old decoder.new }
{
    let Some(delay) = Delay::restore(decoder) else {
        return Err(SnapFault::Bad);
    };
    if clock.put_delay(delay) {
        Ok(())
    } else {
        Err(SnapFault::Bad)
    }
}

/// A clock into which alarms are put back.
#[derive(Drop)]
struct Alarms {
    clock: Clock,
}

impl RestoreItems<Alarm> for Alarms {
    ghost starts = { λ _. Unit {0} };

    ghost grows = { λ base now xs. put_all put_alarm base.clock xs ≡ Some now.clock };

    ghost next_form = { λ base xs. next_form put_alarm alarm_form base.clock xs };

    fn restore_next(&mut self, decoder: &mut Decoder<'_>) -> Result<(), SnapFault> {
        put_alarm(&mut self.clock, decoder)
    }

    ghost begins = { λ base u. none_put put_alarm base.clock };
}

/// A clock into which delays are put back.
#[derive(Drop)]
struct Delays {
    clock: Clock,
}

impl RestoreItems<Delay> for Delays {
    ghost starts = { λ _. Unit {0} };

    ghost grows = { λ base now xs. put_all put_delay base.clock xs ≡ Some now.clock };

    ghost next_form = { λ base xs. next_form put_delay delay_form base.clock xs };

    fn restore_next(&mut self, decoder: &mut Decoder<'_>) -> Result<(), SnapFault> {
        put_delay(&mut self.clock, decoder)
    }

    ghost begins = { λ base u. none_put put_delay base.clock };
}

/// Reads alarms and puts them back into a clock. `Bad` exactly where no list of alarms can be read
/// that it takes, unless memory runs out.
pub fn restore_alarms(clock: Clock, decoder: &mut Decoder<'_>) -> Result<Clock, SnapFault>
    ensures { PutsAll put_alarm alarm_form clock result decoder.old decoder.new }
{
    let mut alarms = Alarms { clock };
    restore_list::<Alarm, Alarms>(&mut alarms, decoder)?;
    Ok(alarms.clock)
}

/// Reads delays and puts them back into a clock. `Bad` exactly where no list of delays can be read
/// that it takes, unless memory runs out.
pub fn restore_delays(clock: Clock, decoder: &mut Decoder<'_>) -> Result<Clock, SnapFault>
    ensures { PutsAll put_delay delay_form clock result decoder.old decoder.new }
{
    let mut delays = Delays { clock };
    restore_list::<Delay, Delays>(&mut delays, decoder)?;
    Ok(delays.clock)
}
