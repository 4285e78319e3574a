//! Tests of iop_generator: the length of the file for the fewest and for the most workers.
#![tactic(auto)]

#[cfg(test)]
mod tests;
