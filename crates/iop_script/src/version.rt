ghost use Rattle.std.specs.Prelude.{◌≡◌};
ghost use Rattle.iop_script.specs.Versions.{allows_more, version_of};

/// A version of the script's form.
#[derive(Clone, Copy, Debug, PartialEq, Eq)]
pub enum Version {
    /// Lines are raised, and modules are handed words by their numbers.
    One,
    /// Besides, lines are released, and modules are handed words by their names.
    Two,
}

impl Version {
    /// Reads a script's first line: `script 1` or `script 2`. None for any other line.
    pub fn of_line(line: &[u8]) -> Option<Self>
        ensures { result ≡ version_of line.now }
    {
        if line == b"script 1".as_slice() {
            Some(Version::One)
        } else if line == b"script 2".as_slice() {
            Some(Version::Two)
        } else {
            None
        }
    }

    /// Tells whether it allows lines to be released and words to stand for a name.
    pub(crate) fn allows_more(self) -> bool
        ensures { result ≡ allows_more self }
    {
        matches!(self, Version::Two)
    }
}
