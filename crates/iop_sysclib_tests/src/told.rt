use iop_base::{Line, Lines};

/// Keeps the moments and places of the stubs that it is told of.
#[derive(Drop)]
pub(crate) struct Told {
    pub stubs: Vec<(u64, u32)>,
}

impl Lines for Told {
    ghost use Rattle.std.specs.Prelude.{None, false, []};

    ghost output = { λ told. record {
      console = None;
      trace = None;
      failed = false;
      console_faults = 0;
      trace_faults = 0;
      names = [];
    } };

    fn line(&mut self, t: u64, line: Line) {
        if let Line::Stub(at) = line {
            let _ = self.stubs.push((t, at));
        }
    }

    fn text(&mut self, _bytes: &[u8]) {}
}
