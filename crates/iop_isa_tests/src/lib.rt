//! Tests of iop_isa: words and their instructions, how these are spelled, and names of registers.
#![tactic(auto)]

#[cfg(test)]
mod tests;
