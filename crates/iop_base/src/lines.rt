ghost use Rattle.std.specs.Prelude.{[], ◌∷◌};
ghost use Rattle.iop_base.specs.Piece.{Traced, Told};
ghost use Rattle.iop_base.specs.Output.{Output, Gives};
ghost use Rattle.iop_base.specs.Text.{line_bytes};

use crate::line::Line;

/// What takes the trace lines and the console texts of a run.
///
/// Neither call refuses. The call in which the object fails adds a part of its piece; from then on
/// it adds nothing.
pub trait Lines {
    /// What it holds and whether it has failed.
    ghost output: { Self → Output };

    /// Adds a line that was given at moment `t`, in ticks, to the trace.
    fn line(&mut self, t: u64, line: Line)
        ensures { Gives (output self.old) (output self.new) (Traced (line_bytes t line) ∷ []) };

    /// Adds bytes to the console.
    fn text(&mut self, bytes: &[u8])
        ensures { Gives (output self.old) (output self.new) (Told bytes.now ∷ []) };
}
