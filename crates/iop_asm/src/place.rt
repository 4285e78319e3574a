use crate::section::Section;

/// A place in a section.
#[derive(Clone, Copy, Debug, PartialEq, Eq)]
pub(crate) struct Place {
    /// The section.
    pub section: Section,
    /// How many words of the section stand before it.
    pub words: usize,
}
