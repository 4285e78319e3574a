//! Tests of iop_intr: what calls on interrupt lines answer, and which line is delivered next.
#![tactic(auto)]

#[cfg(test)]
mod tests;
