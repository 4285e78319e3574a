ghost use Rattle.std.specs.Prelude.{◌≡◌};
ghost use Rattle.irx_elf.specs.Headers.{is_relocations};
ghost use Rattle.irx_elf.specs.Parts.{takes_memory};

use crate::format::RELOCATIONS;

/// The flag of a section that takes memory, `SHF_ALLOC`.
const ALLOCATED: u32 = 2;

/// The fields of a section header that the rules name (ELF TIS 1.2), with its place.
#[derive(Clone, Copy)]
pub(crate) struct Section {
    /// Where the header stands.
    pub at: u32,
    /// `sh_type`: what the section holds.
    pub kind: u32,
    /// `sh_flags`: the flag `SHF_ALLOC` is 2.
    pub flags: u32,
    /// `sh_offset`: where the section begins in the file.
    pub offset: u32,
    /// `sh_size`: how many bytes it has.
    pub size: u32,
    /// `sh_info`: of relocation entries, the number of the section that they change.
    pub target: u32,
}

impl Section {
    /// Tells whether it holds relocation entries.
    pub fn is_relocations(&self) -> bool
        ensures { result ≡ is_relocations self.now }
    {
        self.kind == RELOCATIONS
    }

    /// Tells whether it takes memory.
    pub fn takes_memory(&self) -> bool
        ensures { result ≡ takes_memory self.now }
    {
        self.flags / ALLOCATED % 2 == 1
    }
}
