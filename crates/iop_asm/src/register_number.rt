ghost use Rattle.std.specs.Prelude.{◌<◌};

/// The number of a register.
#[derive(Clone, Copy)]
pub(crate) struct RegisterNumber {
    /// The number.
    pub number: u8,
    ghost below: { number < 32 },
}
