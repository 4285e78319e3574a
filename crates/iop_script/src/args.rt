use crate::word::Word;
use std::marker::Model;

/// The words that a module is handed behind its own.
#[derive(Debug, Drop)]
pub struct Args {
    /// The module's number, from 1 on.
    pub module: u32,
    /// The words, in order.
    pub words: Vec<Word>,
}

impl Model for Args {
    ghost use Rattle.iop_script.specs.Scripts.{Args};

    ghost Value = { Args };

    ghost view = { λ args. record { number = args.«module»; words = args.words.items } };
}
