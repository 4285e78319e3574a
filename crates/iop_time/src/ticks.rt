//! Ticks, microseconds and moments. The clock makes 36,864,000 ticks in a second.

ghost use Rattle.std.specs.Prelude.{◌≡◌};
ghost use Rattle.iop_time.specs.ClockTime.{ticks_of, micros_of, moment_after};

/// How many ticks the clock makes in `PERIOD_MICROS` microseconds.
pub(crate) const PERIOD_TICKS: u64 = 4608;

/// How many microseconds `PERIOD_TICKS` ticks take.
pub(crate) const PERIOD_MICROS: u64 = 125;

/// The moment that never comes, in ticks: 2^63.
pub const NEVER: u64 = 0x8000_0000_0000_0000;

/// Counts the whole ticks in so many microseconds.
pub fn ticks_of(us: u32) -> u64
    ensures { result ≡ ticks_of us }
{
    u64::from(us) * PERIOD_TICKS / PERIOD_MICROS
}

/// Counts the whole microseconds in so many ticks.
pub fn micros_of(ticks: u64) -> u64
    ensures { result ≡ micros_of ticks }
{
    let periods = ticks / PERIOD_TICKS;
    let rest = ticks % PERIOD_TICKS;
    periods * PERIOD_MICROS + rest * PERIOD_MICROS / PERIOD_TICKS
}

/// Tells the moment that comes so many ticks after moment `t`: `NEVER` where that is 2^63 or more.
pub fn moment_after(t: u64, ticks: u64) -> u64
    ensures { result ≡ moment_after t ticks }
{
    t.saturating_add(ticks).min(NEVER)
}
