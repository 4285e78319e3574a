//! What each step of a run keeps, so that a machine can be put back from its snapshot at any time.
#![tactic(auto)]

pub mod laws;
