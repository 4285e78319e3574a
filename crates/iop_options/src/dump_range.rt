use std::marker::Model;

/// A range of the guest's memory that is written out at the end of a run.
#[derive(Clone, Copy, Debug, PartialEq, Eq)]
pub struct DumpRange {
    /// The guest's address of its first byte, through KUSEG, KSEG0 or KSEG1.
    pub from: u32,
    /// How many bytes it has: 1 to `LONGEST_DUMP`.
    pub len: u32,
}

impl Model for DumpRange {
    ghost use Rattle.iop_options.specs.Values.{DumpRange, IsDumpRange};

    ghost Value = { DumpRange };

    ghost view = { λ r. record { from = r.from; len = r.len } };

    ghost invariant = { λ r. IsDumpRange (record { from = r.from; len = r.len }) };

    ghost inverse = { λ r. record { from = r.from; len = r.len } };
}
