//! Tests of iop_base: how many bytes an access has, and what becomes of a module by its result.
#![tactic(auto)]

#[cfg(test)]
mod tests;
