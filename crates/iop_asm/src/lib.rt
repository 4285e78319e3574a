//! The assembler of test modules: source text to the unit of a module.
#![tactic(auto)]

mod addresses;
mod argument;
mod assembling;
mod cell;
mod directive;
mod directives;
mod draft;
mod encoding;
mod fault;
mod fills;
mod fitting;
mod keyword;
mod keywords;
mod label;
mod labels;
pub mod laws;
mod line_fault;
mod number;
mod operands;
mod place;
mod quoting;
mod reading;
mod reference;
mod register_number;
mod relocation;
mod resolving;
mod section;
mod standing;
mod statement;
mod statements;
mod strings;
mod tables;
mod texts;
mod unit;
mod value;

pub use assembling::assemble;
pub use fault::{AsmFault, AsmKind};
pub use relocation::Relocation;
pub use unit::AsmUnit;
