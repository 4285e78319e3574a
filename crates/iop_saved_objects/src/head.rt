/// What stands in front of the lists of an object: its id, and what is known of it.
#[derive(Clone, Copy, Debug, Drop, PartialEq, Eq)]
pub struct Head<A> {
    /// Its id.
    pub id: u32,
    /// What is known of it.
    pub state: A,
}
