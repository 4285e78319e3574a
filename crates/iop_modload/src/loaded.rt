use crate::image_place::ImagePlace;

/// A module that was loaded.
#[derive(Clone, Copy, Debug, PartialEq, Eq)]
pub struct Loaded {
    /// Where its image stands.
    pub place: ImagePlace,
    /// Where it is entered, from the base of its image on.
    pub entry: u32,
    /// What `$gp` is, before the base is added.
    pub gp: u32,
}
