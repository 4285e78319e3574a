//! Tests of iop_cblock: what stands in the lists after each change.
#![tactic(auto)]

#[cfg(test)]
mod tests;
