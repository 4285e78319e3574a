//! Tests of iop_modload: where modules are loaded, which are refused, and what their result leaves.
#![tactic(auto)]

#[cfg(test)]
mod images;
#[cfg(test)]
mod plain;
#[cfg(test)]
mod tests;
