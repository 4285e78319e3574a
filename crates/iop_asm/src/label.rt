use crate::place::Place;

/// A label that lines name or define.
#[derive(Clone, Copy)]
pub(crate) struct Label<'a> {
    /// Its name.
    pub name: &'a [u8],
    /// Where it stands, once a line has defined it.
    pub place: Option<Place>,
}
