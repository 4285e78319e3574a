//! Tests of iop_saved_script: which bytes the lists are, and which bytes are refused.
#![tactic(auto)]

#[cfg(test)]
mod tests;
