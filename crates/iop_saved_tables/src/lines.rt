//! Interrupt lines.

ghost use Rattle.std.specs.Prelude.{◌≡◌, [], ◌∷◌, true, drop, OnOk};
ghost use Rattle.iop_snapshot.specs.Items.{fits_item};
ghost use Rattle.iop_snapshot.specs.Reading.{Reads};
ghost use Rattle.iop_snapshot.specs.Writing.{place_of, Writes};
ghost use Rattle.iop_snapshot.specs.declared.widths.TheConstants.{LINE as WIDTHS};
ghost use Rattle.iop_saved_tables.specs.Lines.{handler_numbers, irq_line_numbers, handler_where, irq_line_of, irq_line_form, lines_form};

use crate::record::Record;
use iop_base::WriteFault;
use iop_intr::{Handler, IRQ_LINES, IrqLine, Irqs};
use iop_ports::Sink;
use iop_snapshot::widths::LINE;
use iop_snapshot::{Decoder, Encoder, SaveItems, flag_of, save_items};

/// What stands in place of a handler where there is none.
const NOWHERE: Handler = Handler {
    address: 0,
    arg: 0,
    gp: 0,
};

/// Tells the numbers of a handler: whether there is one, and what it has.
fn numbers_of_handler(handler: Option<Handler>) -> [u64; 4]
    ensures numbers { result ≡ handler_numbers handler }
    ensures fits { fits_item (1 ∷ 4 ∷ 4 ∷ 4 ∷ []) (handler_numbers handler) ≡ true }
{
    match handler {
        None => [0; 4],
        Some(handler) => [
            1,
            u64::from(handler.address),
            u64::from(handler.arg),
            u64::from(handler.gp),
        ],
    }
}

/// Tells the numbers of a line.
fn numbers_of_line(line: IrqLine) -> [u64; 6]
    ensures numbers { result ≡ irq_line_numbers line }
    ensures fits { fits_item WIDTHS (irq_line_numbers line) ≡ true }
{
    let [handled, address, arg, gp] = numbers_of_handler(line.handler);
    [
        u64::from(line.raised),
        u64::from(line.enabled),
        handled,
        address,
        arg,
        gp,
    ]
}

/// Sees a handler that is there, or that there is none. None exactly where it is not there and not
/// all of it is 0.
fn handler_where(there: bool, handler: Handler) -> Option<Option<Handler>>
    ensures { result ≡ handler_where there handler }
{
    if there {
        Some(Some(handler))
    } else if handler == NOWHERE {
        Some(None)
    } else {
        None
    }
}

/// Sees numbers as a line. None exactly where they are not those of a line.
fn line_of(numbers: [u64; 6]) -> Option<IrqLine>
    requires { fits_item WIDTHS numbers ≡ true }
    ensures { result ≡ irq_line_of numbers }
{
    let raised = flag_of(numbers[0])?;
    let enabled = flag_of(numbers[1])?;
    let there = flag_of(numbers[2])?;
    let handler = Handler {
        address: numbers[3] as u32,
        arg: numbers[4] as u32,
        gp: numbers[5] as u32,
    };
    Some(IrqLine {
        raised,
        enabled,
        handler: handler_where(there, handler)?,
    })
}

impl Record for IrqLine {
    ghost form = { irq_line_form };

    #[tactic(auto, unfolding(crate::specs::Lines::irq_line_form, iop_snapshot::specs::Forms::item))]
    fn save<S: Sink>(self, encoder: &mut Encoder<'_, S>) -> Result<(), WriteFault> {
        encoder.item(&LINE, &numbers_of_line(self))
    }

    #[tactic(auto, unfolding(crate::specs::Lines::irq_line_form, iop_snapshot::specs::Forms::item))]
    fn restore(decoder: &mut Decoder<'_>) -> Option<Self> {
        let mut numbers = [0; 6];
        decoder.item(&LINE, &mut numbers)?;
        line_of(numbers)
    }
}

/// The lines from a number on, which are still to be written.
#[derive(Drop)]
struct LinesFrom<'a> {
    irqs: &'a Irqs,
    number: u8,
}

impl SaveItems<IrqLine> for LinesFrom<'_> {
    ghost ahead = { λ lines xs. drop lines.number lines.irqs.now ≡ xs };

    ghost form = { irq_line_form };

    fn save_next<S: Sink>(&mut self, encoder: &mut Encoder<'_, S>) -> Result<(), WriteFault> {
        if usize::from(self.number) < self.irqs.len() {
            self.irqs.line(self.number).save(encoder)?;
            self.number += 1;
        }
        Ok(())
    }
}

/// Writes all lines, in the order of their numbers, without a count.
pub fn save_lines<S: Sink>(irqs: &Irqs, encoder: &mut Encoder<'_, S>) -> Result<(), WriteFault>
    ensures written { Writes result (lines_form.spell irqs.now) (place_of S.told encoder.old)
        (place_of S.told encoder.new) }
    ensures fits { OnOk result (lines_form.fits irqs.now ≡ true) }
{
    let count = irqs.len() as u32;
    save_items::<IrqLine, LinesFrom<'_>, S>(count, &mut LinesFrom { irqs, number: 0 }, encoder)
}

/// Reads all lines. None exactly where the bytes at the front are not theirs: a truth value is
/// neither 0 nor 1, or a line without a handler has something of one.
pub fn restore_lines(decoder: &mut Decoder<'_>) -> Option<Irqs>
    ensures { Reads lines_form result decoder.old decoder.new }
{
    let mut irqs = Irqs::new();
    for number in 0..IRQ_LINES as u8 {
        irqs.put_line(number, IrqLine::restore(decoder)?);
    }
    Some(irqs)
}
