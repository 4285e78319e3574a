ghost use Rattle.std.specs.Prelude.{◌≡◌};
ghost use Rattle.iop_asm.specs.Texts.{begins_comment, quoting_behind};

/// Where a byte of a line stands.
#[derive(Clone, Copy, Debug, PartialEq, Eq)]
pub(crate) enum Quoting {
    /// Outside quotes.
    Outside,
    /// Inside quotes.
    Inside,
    /// Inside quotes, behind a backslash.
    Escaped,
}

impl Quoting {
    /// Says whether a byte that stands here begins a comment.
    pub fn begins_comment(self, byte: u8) -> bool
        ensures { result ≡ begins_comment self byte }
    {
        match self {
            Quoting::Outside => byte == b';',
            _ => false,
        }
    }

    /// Gives the place of the byte behind a byte that stands here.
    pub fn behind(self, byte: u8) -> Quoting
        ensures { result ≡ quoting_behind self byte }
    {
        match self {
            Quoting::Outside if byte == b'"' => Quoting::Inside,
            Quoting::Outside => Quoting::Outside,
            Quoting::Inside if byte == b'"' => Quoting::Outside,
            Quoting::Inside if byte == b'\\' => Quoting::Escaped,
            Quoting::Inside => Quoting::Inside,
            Quoting::Escaped => Quoting::Inside,
        }
    }
}
