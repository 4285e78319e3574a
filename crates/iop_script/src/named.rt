use crate::word::Word;
use std::marker::Model;

/// The words that a module of a name is handed behind its own.
#[derive(Debug, Drop)]
pub struct Named {
    /// The bytes of the module's own word: its name in the command.
    pub name: Vec<u8>,
    /// The words, in order.
    pub words: Vec<Word>,
}

impl Model for Named {
    ghost use Rattle.iop_script.specs.Scripts.{Named};

    ghost Value = { Named };

    ghost view = { λ named. record { name = named.name.items; words = named.words.items } };
}
