//! Tests of iop_printf: formats and their texts, how long texts grow, and what lies outside memory.
#![tactic(auto)]

#[cfg(test)]
mod tests;
