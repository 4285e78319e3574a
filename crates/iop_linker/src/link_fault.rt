ghost use Rattle.std.specs.Prelude.{◌≡◌};
ghost use Rattle.iop_linker.specs.Linking.{code_of};

use iop_base::Code;

/// Why a text is not linked. Places are physical addresses.
#[derive(Clone, Copy, Debug, PartialEq, Eq)]
pub enum LinkFault {
    /// An import table is bad.
    Table {
        /// The place of its first word.
        at: u32,
    },
    /// No library of this name and major version is registered.
    NoLibrary {
        /// The place of the first import table that asks for it.
        table: u32,
        /// The name that the table asks for.
        name: [u8; 8],
        /// The major version that the table asks for.
        major: u8,
    },
    /// More than `Stub::MOST_LIVE` stubs would be live.
    Room,
}

impl From<LinkFault> for Code {
    ghost from_gives = { λ fault code. code ≡ code_of fault };

    /// Gives the code of a refusal (ps2sdk's kerr.h): `ILLEGAL_OBJECT` for a bad table,
    /// `LINK_ERROR` for a library that is not registered, `NO_MEMORY` for too many stubs.
    fn from(fault: LinkFault) -> Code {
        match fault {
            LinkFault::Table { .. } => Code::ILLEGAL_OBJECT,
            LinkFault::NoLibrary { .. } => Code::LINK_ERROR,
            LinkFault::Room => Code::NO_MEMORY,
        }
    }
}
