ghost use Rattle.std.specs.Prelude.{◌≡◌};
ghost use Rattle.irx_info.specs.Information.{information_of};
ghost use Rattle.irx_elf.specs.Rules.{image_length, has_sizes};

use irx_info::Info;

/// The fields of a program header that the rules name (ELF TIS 1.2), with its place.
#[derive(Clone, Copy)]
pub(crate) struct Segment {
    /// Where the header stands.
    pub at: u32,
    /// `p_type`: what the part is.
    pub kind: u32,
    /// `p_offset`: where the part begins in the file.
    pub offset: u32,
    /// `p_filesz`: how many bytes it has in the file.
    pub file_size: u32,
    /// `p_memsz`: how many bytes it takes in memory.
    pub memory_size: u32,
}

impl Segment {
    /// Tells how many bytes the image of this part takes in memory.
    pub fn image_length(&self, info: &Info) -> u64
        ensures { result ≡ image_length (information_of info.now) self.now }
    {
        let sizes = u64::from(info.text_size)
            + u64::from(info.data_size)
            + u64::from(info.bss_size);
        sizes.max(u64::from(self.memory_size))
    }

    /// Tells whether the module's sizes are those of an image of this part.
    pub fn has_sizes(&self, info: &Info) -> bool
        ensures { result ≡ has_sizes (information_of info.now) self.now }
    {
        let length = self.image_length(info);
        info.text_size >= 4
            && info.text_size <= self.file_size
            && u64::from(self.file_size) <= length
            && length < 1 << 31
    }
}
