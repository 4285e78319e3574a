//! Names, versions and libraries as texts.

use iop_base::before_zero;
use std::fmt;

/// The bytes of a name, as a text: those of ASCII's letters, digits and signs as they are, every
/// other one and `\` as `\x` and two hexadecimal digits. An empty name is `""`.
#[derive(Clone, Copy)]
pub(crate) struct Name<'a>(pub &'a [u8]);

impl fmt::Display for Name<'_> {
    fn fmt<W: fmt::Write>(&self, f: &mut fmt::Formatter<W>) -> fmt::Result {
        if self.0.is_empty() {
            return f.write_str("\"\"");
        }
        for byte in self.0 {
            write_byte(*byte, f)?;
        }
        Ok(())
    }
}

/// Writes a byte of a name.
pub(crate) fn write_byte<W: fmt::Write>(byte: u8, f: &mut fmt::Formatter<W>) -> fmt::Result {
    if byte.is_ascii_graphic() && byte != b'\\' {
        f.write_char(char::from(byte))
    } else {
        write!(f, "\\x{byte:02x}")
    }
}

/// A version, major * 256 + minor, as a text: both numbers with a dot between them.
#[derive(Clone, Copy)]
pub(crate) struct Version(pub u16);

impl fmt::Display for Version {
    fn fmt<W: fmt::Write>(&self, f: &mut fmt::Formatter<W>) -> fmt::Result {
        let major = self.0 / 0x100;
        let minor = self.0 % 0x100;
        write!(f, "{major}.{minor}")
    }
}

/// A library as a text: its name and its version with a blank between them.
#[derive(Clone, Copy)]
pub(crate) struct Library {
    /// Its name, filled up with zeros.
    pub name: [u8; 8],
    /// Its version: major * 256 + minor.
    pub version: u16,
}

impl fmt::Display for Library {
    fn fmt<W: fmt::Write>(&self, f: &mut fmt::Formatter<W>) -> fmt::Result {
        let name = Name(before_zero(&self.name));
        let version = Version(self.version);
        write!(f, "{name} {version}")
    }
}
