//! Tests of iop_asm: what sources become, which line is the first bad one, how far branches reach.
#![tactic(auto)]

#[cfg(test)]
mod tests;
