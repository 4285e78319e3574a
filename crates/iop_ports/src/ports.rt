ghost use Rattle.std.specs.Prelude.{◌≡◌, ℕ, ◌<◌, ◌≤◌, Option, [], length, take, option_map, is_ok, IsOk, IfOk, OnOk, OnErr, IfSome};
ghost use Rattle.std.specs.Result.{result_unwrap_or};
ghost use Rattle.iop_base.specs.Counts.{HasCause};
ghost use Rattle.iop_ports.specs.Files.{FilesTold, after_opening, after_reading, Reads};
ghost use Rattle.iop_ports.specs.Sinks.{SinkTold, after_taking, FailsAfter};
ghost use Rattle.iop_ports.specs.Creating.{Creates};

/// A call to the outside failed.
#[derive(Clone, Copy, Debug, PartialEq, Eq)]
pub struct Failed;

/// Files that are opened by name and read in order, one at a time.
pub trait Files {
    /// What the files tell of themselves, where they tell anything.
    ghost told: { Self → Option FilesTold };

    /// How often a call has failed.
    ghost faults: { Self → ℕ };

    /// Opens the file of this name, given as it is to be looked up. From then on its bytes are left
    /// to be read. An opening that fails leaves no file open.
    fn open_file(&mut self, name: &str) -> Result<(), Failed>
        ensures told { told self.new
            ≡ option_map (after_opening name.now (is_ok result) (faults self.old)) (told self.old) }
        ensures no_fault { OnOk result (faults self.new ≡ faults self.old) }
        ensures cause { OnErr result (HasCause (faults self.old) (faults self.new)) }
        ensures never_falls { faults self.old ≤ faults self.new };

    /// Reads the next bytes of the open file into the front of `buf` and answers how many. Into a
    /// buffer that is not empty it reads at least one, unless none is left or no file is open.
    fn read(&mut self, buf: &mut [u8]) -> Result<usize, Failed>
        ensures within { IfOk result (λ n. n ≤ length buf.old) }
        ensures told { told self.new
            ≡ option_map (after_reading (result_unwrap_or result 0)) (told self.old) }
        ensures bytes { IfOk result (λ n.
            IfSome (told self.old) (λ files. Reads n buf.new files.left)) }
        ensures no_fault { OnOk result (faults self.new ≡ faults self.old) }
        ensures cause { OnErr result (HasCause (faults self.old) (faults self.new)) }
        ensures never_falls { faults self.old ≤ faults self.new };
}

/// What takes bytes, piece by piece.
pub trait Sink {
    /// What it tells of itself.
    ghost told: { Self → SinkTold };

    /// Takes bytes from the front of `piece` and answers how many: at least one of a piece that is
    /// not empty. The write of an empty piece never fails. A write that fails takes nothing.
    fn write(&mut self, piece: &[u8]) -> Result<usize, Failed>
        ensures within { IfOk result (λ n. n ≤ length piece.now) }
        ensures some { IfOk result (λ n. 0 < length piece.now → 0 < n) }
        ensures taken { IfOk result (λ n.
            told self.new ≡ after_taking (take n piece.now) (told self.old)) }
        ensures fails { OnErr result (FailsAfter [] (told self.old) (told self.new)) }
        ensures empty { length piece.now ≡ 0 → IsOk result };
}

/// A sink whose bytes are those of a file, once it is created.
///
/// Writes change nothing of what it tells of the calls of `create`.
pub trait Keep: Sink {
    /// Creates the file of this name, given as it is, in place of one that is there: from then on
    /// its bytes are those that are written. A call that fails leaves the bytes that were taken.
    fn create(&mut self, name: &str) -> Result<(), Failed>
        ensures { Creates (is_ok result) name.now (Self.told self.old) (Self.told self.new) };
}
