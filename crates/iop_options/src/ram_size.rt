ghost use Rattle.std.specs.Prelude.{◌≡◌};
ghost use Rattle.iop_base.specs.Places.{IsRamSize};
ghost use Rattle.iop_options.specs.Values.{ram_bytes};

use iop_base::{LARGE_RAM, SMALL_RAM};

/// How much memory the machine has.
#[derive(Clone, Copy, Debug, PartialEq, Eq)]
pub enum RamSize {
    /// 2 MiB, as in a PlayStation 2.
    TwoMiB,
    /// 8 MiB, as in its development console.
    EightMiB,
}

impl RamSize {
    /// Tells how many bytes it is: 0x200000 or 0x800000.
    pub fn bytes(self) -> u32
        ensures exact { result ≡ ram_bytes self }
        ensures sized { IsRamSize result }
    {
        match self {
            RamSize::TwoMiB => SMALL_RAM,
            RamSize::EightMiB => LARGE_RAM,
        }
    }
}
