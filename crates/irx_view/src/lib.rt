//! What a module's file says, written out for people: its text as a listing, what it tells of
//! itself, and why a file is no module; and the same of the text of a script.
#![tactic(auto)]

mod entries;
mod information;
mod limits;
mod listing;
mod module;
mod names;
mod parts;
mod reason;
mod relocation_type;
mod script;
mod script_information;
mod tables;
#[cfg(test)]
mod tests;
mod text;

pub use information::write_information;
pub use limits::MOST_IMAGE;
pub use listing::write_listing;
pub use module::{bad_import, read_module};
pub use reason::{Reason, rule_text};
pub use script::{BadLine, line_of, line_rule_text, version_of};
pub use script_information::write_script;
