//! Loading a module into memory, and what becomes of it after its return.
#![tactic(auto)]

mod finishing;
mod image;
mod image_place;
pub mod laws;
mod limits;
mod loaded;
mod loading;
mod module_file;

pub use finishing::finish;
pub use image_place::ImagePlace;
pub use limits::LONGEST_FILE;
pub use loaded::Loaded;
pub use loading::load;
pub use module_file::ModuleFile;
