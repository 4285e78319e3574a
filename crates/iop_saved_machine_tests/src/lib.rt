//! Tests of iop_saved_machine: which bytes a machine is, and which bytes are none.
#![tactic(auto)]

#[cfg(test)]
mod bytes;
#[cfg(test)]
mod tests;
