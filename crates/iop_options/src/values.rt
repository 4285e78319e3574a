//! The values of options.

ghost use Rattle.std.specs.Prelude.{◌≡◌};
ghost use Rattle.std.specs.Option.{option_copied};
ghost use Rattle.iop_options.specs.Values.{budget_of, workers_of, ram_bytes, ram_of, hex_of, range_of, dump_of};
ghost use Rattle.iop_options.specs.Commands.{if_given};

use crate::dump_range::DumpRange;
use crate::limits::{DEFAULT_BUDGET, LONGEST_DUMP, MOST_BUDGET, MOST_HEX_DIGITS};
use crate::numbers::number_of;
use crate::ram_size::RamSize;
use iop_base::MOST_WORKERS;
use iop_ram::physical;

/// Reads how many instructions a run may execute: decimal, at most `MOST_BUDGET`.
pub(crate) fn budget_of(value: Option<&str>) -> Option<u64>
    ensures { result ≡ budget_of (option_copied value.entry) }
{
    match value {
        None => Some(DEFAULT_BUDGET),
        Some(text) => number_of(text, 10, 0, MOST_BUDGET),
    }
}

/// Reads how many workers a generated module has: decimal, 1 to `MOST_WORKERS`.
pub(crate) fn workers_of(value: Option<&str>) -> Option<Option<u32>>
    ensures { result ≡ if_given workers_of (option_copied value.entry) }
{
    let Some(text) = value else {
        return Some(None);
    };
    let workers = number_of(text, 10, 1, u64::from(MOST_WORKERS))?;
    Some(Some(workers as u32))
}

/// Reads how much memory the machine has, in MiB: `2` or `8`, and 2 where it is left out. None for
/// every other text.
pub(crate) fn ram_of(value: Option<&str>) -> Option<RamSize>
    ensures { result ≡ ram_of (option_copied value.entry) }
{
    match value {
        None | Some("2") => Some(RamSize::TwoMiB),
        Some("8") => Some(RamSize::EightMiB),
        Some(_) => None,
    }
}

/// Reads a number of 1 to 8 hexadecimal digits.
fn hex_of(text: &str) -> Option<u32>
    ensures { result ≡ hex_of text.now }
{
    if text.len() > MOST_HEX_DIGITS {
        return None;
    }
    let number = number_of(text, 16, 0, u64::from(u32::MAX))?;
    Some(number as u32)
}

/// Makes a range of 1 to `LONGEST_DUMP` bytes that lies wholly inside RAM.
fn range_of(ram: RamSize, from: u32, len: u32) -> Option<DumpRange>
    ensures { result ≡ range_of (ram_bytes ram) from len }
{
    let size = ram.bytes();
    let place = physical(from, size)?;
    if 1 <= len && len <= LONGEST_DUMP && len <= size - place {
        Some(DumpRange { from, len })
    } else {
        None
    }
}

/// Reads `FROM:LEN`, two hexadecimal numbers, as a range inside RAM.
fn range_written(ram: RamSize, text: &str) -> Option<DumpRange>
    ensures { result ≡ dump_of (ram_bytes ram) text.now }
{
    let (from, len) = text.split_once(':')?;
    range_of(ram, hex_of(from)?, hex_of(len)?)
}

/// Reads the range of a dump, which lies inside RAM.
pub(crate) fn dump_of(ram: RamSize, value: Option<&str>) -> Option<Option<DumpRange>>
    ensures { result ≡ if_given (dump_of (ram_bytes ram)) (option_copied value.entry) }
{
    match value {
        None => Some(None),
        Some(text) => Some(Some(range_written(ram, text)?)),
    }
}
