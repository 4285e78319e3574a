//! Tests of iop_options: what command lines choose, and which of them are refused.
#![tactic(auto)]

#[cfg(test)]
mod tests;
