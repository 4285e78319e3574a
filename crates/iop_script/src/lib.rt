//! The script of a run: the interrupt lines that are raised and lowered in it, and the words that
//! modules are handed.
#![tactic(auto)]

mod args;
mod fault;
pub mod laws;
mod line_fault;
mod named;
mod parsing;
mod raise;
mod rule;
mod script;
mod statements;
mod texts;
mod version;
mod word;

pub use args::Args;
pub use fault::ScriptFault;
pub use named::Named;
pub use parsing::parse;
pub use raise::Raise;
pub use rule::Rule;
pub use script::Script;
pub use statements::MOST_MODULES;
pub use version::Version;
pub use word::Word;
