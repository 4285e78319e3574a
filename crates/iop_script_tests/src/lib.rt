//! Tests of iop_script: the first bad line of scripts, and what is read of one that has none.
#![tactic(auto)]

#[cfg(test)]
mod tests;
