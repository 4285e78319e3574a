//! The bytes of a snapshot: what writes them, what reads them, and how values are spelled in them.
#![tactic(auto)]

mod decoder;
mod encoder;
mod fault;
mod flag;
pub mod laws;
mod restore;
mod save;
pub mod widths;

pub use decoder::Decoder;
pub use encoder::Encoder;
pub use fault::SnapFault;
pub use flag::flag_of;
pub use restore::{RestoreItems, restore_items, restore_list};
pub use save::{SaveItems, save_items, save_list};
