//! Tests of iop_ram: what loads, stores and windows give, and which places they refuse.
#![tactic(auto)]

#[cfg(test)]
mod tests;
