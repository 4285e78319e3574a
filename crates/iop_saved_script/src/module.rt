use std::marker::Model;

/// A module as the command names it.
#[derive(Debug, Drop)]
pub struct Module {
    /// Its word of the command line.
    pub name: String,
    /// The bytes of its file.
    pub file: Vec<u8>,
}

impl Model for Module {
    ghost use Rattle.std.specs.Prelude.{string_bytes};
    ghost use Rattle.iop_saved_script.specs.Files.{NamedFile};

    ghost Value = { NamedFile };

    ghost view = { λ m. record { name = string_bytes m.name; file = m.file.items } };
}
