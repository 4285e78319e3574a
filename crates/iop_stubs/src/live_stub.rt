ghost use Rattle.std.specs.Prelude.{◌≡◌, [], ◌∷◌};
ghost use Rattle.iop_base.specs.Output.{Gives};
ghost use Rattle.iop_stubs.specs.Stubs.{is_of, meets, stub_lines};
ghost use Rattle.iop_stubs.specs.Restoring.{ends_by, is_placed};

use iop_base::{Line, Lines};

/// An import stub that is bound. Places are physical addresses.
#[derive(Clone, Copy, Debug, PartialEq, Eq)]
pub struct Stub {
    /// The place of its first word, a multiple of 4.
    pub at: u32,
    /// The name of its library, filled up with zeros.
    pub name: [u8; 8],
    /// The major version of its library.
    pub major: u8,
    /// The number of its function.
    pub index: u16,
    /// The place that it jumps to, a multiple of 4 below 2^28.
    pub target: u32,
}

impl Stub {
    /// How many bytes a stub has: two instructions.
    pub const SIZE: u32 = 8;

    /// `j 0` (MIPS I): the first word of a live stub is the target / 4 more.
    pub const JUMP_WORD: u32 = 0x0800_0000;

    /// So many stubs can be live at most.
    pub const MOST_LIVE: u32 = 65_536;

    /// Tells whether it is one of the library of this name and major version.
    pub(crate) fn is_of(&self, name: &[u8; 8], major: u8) -> bool
        ensures { result ≡ is_of name.now major self.now }
    {
        self.name == *name && self.major == major
    }

    /// Tells whether a byte of it lies in the range of `len` bytes from `place` on.
    pub(crate) fn meets(&self, place: u32, len: u32) -> bool
        ensures { result ≡ meets place len self.now }
    {
        let place = u64::from(place);
        let at = u64::from(self.at);
        at.max(place) < (at + u64::from(Self::SIZE)).min(place + u64::from(len))
    }

    /// Tells whether it ends at a place or before it.
    pub(crate) fn ends_by(&self, place: u32) -> bool
        ensures { result ≡ ends_by place self.now }
    {
        u64::from(self.at) + u64::from(Self::SIZE) <= u64::from(place)
    }

    /// Tells whether its place and its target may be those of a stub in `size` bytes of RAM.
    pub(crate) fn is_placed(&self, size: u32) -> bool
        ensures { result ≡ is_placed size self.now }
    {
        self.at % 4 == 0 && self.ends_by(size) && self.target % 4 == 0 && self.target < 0x1000_0000
    }

    /// Gives a line of moment `t` if a byte of it lies in the range of `len` bytes from `place` on.
    pub(crate) fn give_line<L: Lines>(&self, place: u32, len: u32, t: u64, lines: &mut L)
        ensures { Gives (L.output lines.old) (L.output lines.new)
            (stub_lines t place len (self.now ∷ [])) }
    {
        if self.meets(place, len) {
            lines.line(t, Line::Stub(self.at));
        }
    }
}
