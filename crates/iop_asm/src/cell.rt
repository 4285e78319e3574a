use crate::reference::Reference;

/// A word, with 0 where a label decides it. Labels stand by their names or their numbers.
#[derive(Clone, Copy)]
pub(crate) struct Cell<L> {
    /// The word.
    pub word: u32,
    /// The label that decides it, where one does.
    pub reference: Option<Reference<L>>,
}

impl<'a> Cell<&'a [u8]> {
    ghost use Rattle.std.specs.Prelude.{◌≡◌};
    ghost use Rattle.iop_asm.specs.CellFields.{cell as by_name};
    ghost use Rattle.iop_asm.specs.Cells.{plain_cell};

    /// Makes a word that no label decides.
    pub fn plain(word: u32) -> Self
        ensures { by_name result ≡ plain_cell word }
    {
        Cell {
            word,
            reference: None,
        }
    }
}
