/// What becomes of a label's address in the word that names it.
#[derive(Clone, Copy, Debug, PartialEq, Eq)]
pub(crate) enum ReferenceKind {
    /// The address is the word.
    Address,
    /// The word is a jump to the address.
    Jump,
    /// The address's high half is the immediate.
    High,
    /// The address's low half is the immediate.
    Low,
    /// The word is a branch to the address.
    Branch,
}

/// A label by its name or its number, with what becomes of its address.
#[derive(Clone, Copy)]
pub(crate) struct Reference<L> {
    /// What becomes of the address.
    pub kind: ReferenceKind,
    /// The label.
    pub label: L,
    /// The number of the line that names it.
    pub line: u32,
}
