//! The relocation entries of a module: whether they fit its image, and what they make of it.
#![tactic(auto)]

mod entry;
mod fitting;
mod kind;
mod low_halves;
mod moving;
mod relocating;
mod words;

pub use fitting::{Checked, check};
pub use relocating::relocate;
