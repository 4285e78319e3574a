//! Laws of the kernel: facts about its definitions that no call computes.
#![tactic(auto)]

pub mod laws;
