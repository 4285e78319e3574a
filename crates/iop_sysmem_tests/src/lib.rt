//! Tests of iop_sysmem: where blocks are given, how much is free, and in which block a place lies.
#![tactic(auto)]

#[cfg(test)]
mod tests;
