//! Tests of iop_exec: what one instruction leaves of a processor over a small RAM, and its faults.
#![tactic(auto)]

#[cfg(test)]
mod ram;
#[cfg(test)]
mod tests;
