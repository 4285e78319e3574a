ghost use Rattle.iop_asm.specs.LabelNumbers.{IsNumbering};

use crate::cell::Cell;
use crate::label::Label;
use crate::place::Place;
use crate::reference::Reference;
use slab::Slab;
use std::alloc::{AllocError, Global};
use std::collections::BTreeMap;

/// The labels of a source: each has a number, by which words name it.
#[derive(Drop)]
pub(crate) struct Labels<'a> {
    /// The number of each name.
    numbers: BTreeMap<&'a [u8], usize>,
    /// The labels under their numbers.
    labels: Slab<Label<'a>>,
    ghost numbering: { IsNumbering numbers labels },
}

impl<'a> Labels<'a> {
    ghost use Rattle.std.specs.Prelude.{◌≡◌, ◌∷◌, [], ◌++◌, ℕ, List, None, Option, Some, IfOk, OnOk};
    ghost use Rattle.std.specs.Option.{option_copied};
    ghost use Rattle.iop_asm.specs.declared.place.Place.{Place};
    ghost use Rattle.iop_asm.specs.Drafts.{place_named};
    ghost use Rattle.iop_asm.specs.CellFields.{cell as cell_by_name, reference as reference_by_name};
    ghost use Rattle.iop_asm.specs.NumberedCells.{cell_in, reference_in};
    ghost use Rattle.iop_asm.specs.LabelFields.{IsTableOf, Keeps, KeepsNames, name_of, number_of};

    /// Begins without a label.
    pub fn new(alloc: Global) -> Self
        ensures { IsTableOf result [] }
    {
        Labels {
            numbers: BTreeMap::new(alloc),
            labels: Slab::new(alloc),
        }
    }

    /// Gives the number of a name, a new one where it has none.
    pub fn number(&mut self, name: &'a [u8]) -> Result<usize, AllocError>
        ensures numbered { IfOk result (λ number. name_of self.new number ≡ Some name.now) }
        ensures kept { OnOk result (Keeps self.old self.new) }
    {
        match self.numbers.get(name).copied() {
            Some(number) => Ok(number),
            None => self.add(name),
        }
    }

    /// Gives a number to a name that has none.
    #[tactic(auto, using(crate::proofs::LabelLemmas::numberings))]
    fn add(&mut self, name: &'a [u8]) -> Result<usize, AllocError>
        requires { number_of self.old name.now ≡ None }
        ensures numbered { IfOk result (λ number. name_of self.new number ≡ Some name.now) }
        ensures kept { OnOk result (Keeps self.old self.new) }
    {
        self.labels.reserve(1)?;
        let number = self.labels.vacant_key();
        self.numbers.insert(name, number)?;
        Ok(self.labels.insert_reserved(Label { name, place: None }))
    }

    /// Gives a label its place.
    #[tactic(auto, using(crate::proofs::LabelLemmas::numberings))]
    pub fn place(&mut self, name: &'a [u8], place: Place) -> Result<(), AllocError>
        ensures stands { OnOk result ((labels : List (List ℕ × Place)) →
            IsTableOf self.old labels → place_named labels name.now ≡ None →
            IsTableOf self.new (labels ++ (name.now, place) ∷ [])) }
        ensures kept { OnOk result (KeepsNames self.old self.new) }
    {
        let number = self.number(name)?;
        self.labels[number].place = Some(place);
        Ok(())
    }

    /// Gives the place of the label of a name.
    pub fn place_named(&self, name: &[u8]) -> Option<Place>
        ensures { (labels : List (List ℕ × Place)) → IsTableOf self.now labels →
            result ≡ place_named labels name.now }
    {
        let number = self.numbers.get(name)?;
        self.labels.get(*number)?.place
    }

    /// Gives the place of the label of a number.
    pub fn place_of(&self, number: usize) -> Option<Place>
        ensures { (labels : List (List ℕ × Place)) (name : List ℕ) → IsTableOf self.now labels →
            name_of self.now number ≡ Some name → result ≡ place_named labels name }
    {
        self.labels.get(number)?.place
    }

    /// Gives the name of the label of a number.
    pub fn name_of(&self, number: usize) -> Option<&'a [u8]>
        ensures { option_copied result ≡ name_of self.now number }
    {
        Some(self.labels.get(number)?.name)
    }

    /// Gives a reference by the number of its label.
    fn numbered_reference(
        &mut self,
        reference: Reference<&'a [u8]>,
    ) -> Result<Reference<usize>, AllocError>
        ensures reference { IfOk result (λ numbered.
            reference_in self.new numbered ≡ Some (reference_by_name reference.entry)) }
        ensures kept { OnOk result (Keeps self.old self.new) }
    {
        Ok(Reference {
            kind: reference.kind,
            label: self.number(reference.label)?,
            line: reference.line,
        })
    }

    /// Gives a word with the number of its label.
    pub fn numbered(&mut self, cell: Cell<&'a [u8]>) -> Result<Cell<usize>, AllocError>
        ensures cell { IfOk result (λ numbered.
            cell_in self.new numbered ≡ Some (cell_by_name cell.entry)) }
        ensures kept { OnOk result (Keeps self.old self.new) }
    {
        let reference = match cell.reference {
            None => None,
            Some(reference) => Some(self.numbered_reference(reference)?),
        };
        Ok(Cell {
            word: cell.word,
            reference,
        })
    }
}
