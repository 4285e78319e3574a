//! Tests of iop_machine: a run in parts, its trace, the words that its modules are handed, and a
//! machine that is saved and put back.
#![tactic(auto)]

#[cfg(test)]
mod snapshots;
#[cfg(test)]
mod tests;
