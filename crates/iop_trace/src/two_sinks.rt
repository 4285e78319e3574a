//! What takes the lines and texts of a run.

ghost use Rattle.std.specs.Prelude.{◌≡◌, false};

use crate::text::line_text;
use iop_base::{Line, Lines};
use iop_ports::{Sink, send};

/// Takes lines for one sink, the trace, and texts for another, the console, until a write fails.
/// From then on it writes nothing more, on either.
#[derive(Drop)]
pub struct Out<'a, C, T> {
    console: &'a mut C,
    trace: &'a mut T,
    failed: bool,
}

impl<'a, C: Sink, T: Sink> Out<'a, C, T> {
    ghost use Rattle.iop_trace.specs.Outs.{has_failed, console_now, trace_now, console_name, trace_name};

    /// Over a console and a trace. It has not failed.
    pub fn new(console: &'a mut C, trace: &'a mut T) -> Self
        ensures same_console { console_name result ≡ console.entry.ghost_name }
        ensures same_trace { trace_name result ≡ trace.entry.ghost_name }
        ensures console { console_now result ≡ console.old }
        ensures trace { trace_now result ≡ trace.old }
        ensures failed { has_failed result ≡ false }
    {
        Out {
            console,
            trace,
            failed: false,
        }
    }

    /// Whether a write has failed.
    pub fn failed(&self) -> bool
        ensures { result ≡ has_failed self.now }
    {
        self.failed
    }
}

impl<'a, C: Sink, T: Sink> Lines for Out<'a, C, T> {
    ghost use Rattle.iop_trace.specs.Outs.{output_of};

    ghost output = { output_of C.told T.told };

    fn line(&mut self, t: u64, line: Line) {
        if !self.failed {
            let text = line_text(t, &line);
            self.failed = !send(self.trace, &text);
        }
    }

    fn text(&mut self, bytes: &[u8]) {
        if !self.failed {
            self.failed = !send(self.console, bytes);
        }
    }
}
