ghost use Rattle.std.specs.Prelude.{◌≡◌, ◌+◌, ◌*◌, ◌^◌, ◌<◌, ◌≤◌, IsTrue, IfOk, IfErr, OnOk, Some, None, find, length};
ghost use Rattle.irx_elf.specs.Headers.{file_header, segment_number, segments, is_of_kind};
ghost use Rattle.irx_elf.specs.Rules.{header_rules, has_segments, TellsUnmet};

use crate::file_header::FileHeader;
use crate::format::{FILE_HEADER_SIZE, IRX, MAGIC, MIPS, SEGMENT_SIZE};
use crate::reading::demand;
use crate::segment::Segment;
use iop_base::{Illegal, word_at};

/// The bytes of a file that meets rules 1 to 5, lent, and the file header read from them.
#[derive(Clone, Copy)]
pub(crate) struct IrxFile<'a> {
    /// All bytes of the file.
    pub bytes: &'a [u8],
    /// Its file header.
    pub header: FileHeader,
    ghost long: { 52 ≤ length bytes.now },
    ghost short: { length bytes.now < 2 ^ 32 },
    ghost read: { header ≡ file_header bytes.now },
    ghost segments: { IsTrue (has_segments bytes.now header) },
}

impl<'a> IrxFile<'a> {
    /// Reads the file header: rules 1 to 5.
    #[tactic(auto, unfolding(crate::specs::Rules::header_rules))]
    pub fn parse(bytes: &'a [u8]) -> Result<Self, Illegal>
        requires { length bytes.now < 2 ^ 32 }
        ensures unmet { TellsUnmet (header_rules bytes.now) result }
        ensures bytes { IfOk result (λ file. file.bytes.now ≡ bytes.now) }
    {
        demand(bytes.len() >= FILE_HEADER_SIZE, 1, 0)?;
        demand(bytes.starts_with(&MAGIC), 2, 0)?;
        let header = FileHeader::read(bytes);
        demand(header.kind == IRX, 3, 16)?;
        demand(header.machine == MIPS, 4, 18)?;
        demand(header.has_segments(bytes), 5, 42)?;
        Ok(IrxFile { bytes, header })
    }

    /// Reads the program header of a number.
    fn segment(&self, number: u32) -> Segment
        requires { number < self.now.header.segment_count }
        ensures { result ≡ segment_number self.now.bytes.now number }
    {
        let at = self.header.segments + SEGMENT_SIZE * number;
        let place = at as usize;
        Segment {
            at,
            kind: word_at(self.bytes, place),
            offset: word_at(self.bytes, place + 4),
            file_size: word_at(self.bytes, place + 16),
            memory_size: word_at(self.bytes, place + 20),
        }
    }

    /// Finds the first program header of a type.
    pub fn find_segment(&self, kind: u32) -> Option<Segment>
        ensures { result ≡ find (is_of_kind kind) (segments self.now.bytes.now) }
    {
        for number in 0..u32::from(self.header.segment_count) {
            let segment = self.segment(number);
            if segment.kind == kind {
                return Some(segment);
            }
        }
        None
    }
}
