ghost use Rattle.std.specs.Prelude.{◌≡◌};
ghost use Rattle.iop_base.specs.Numbers.{width_bytes};

/// How many bytes an access reads or writes.
#[derive(Clone, Copy, Debug, PartialEq, Eq)]
pub enum Width {
    /// One byte.
    Byte,
    /// Two bytes, at an even address.
    Half,
    /// Four bytes, at a multiple of 4.
    Word,
}

impl Width {
    /// How many bytes it is: 1, 2 or 4.
    pub fn bytes(self) -> usize
        ensures { result ≡ width_bytes self }
    {
        match self {
            Width::Byte => 1,
            Width::Half => 2,
            Width::Word => 4,
        }
    }
}

/// A place in memory is not a multiple of the width asked for, or not in RAM.
#[derive(Clone, Copy, Debug, PartialEq, Eq)]
pub struct Bad;
