//! Tests of irx_build: the files of small units, and which units are refused.
#![tactic(auto)]

#[cfg(test)]
mod tests;
