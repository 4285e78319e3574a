/// Where the image of a loaded module stands.
#[derive(Clone, Copy, Debug, PartialEq, Eq)]
pub struct ImagePlace {
    /// Its physical place, where its block begins.
    pub base: u32,
    /// How many bytes it has.
    pub len: u32,
}
