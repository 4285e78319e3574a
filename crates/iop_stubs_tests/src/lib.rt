//! Tests of iop_stubs: one stub from its binding to the store that ends it.
#![tactic(auto)]

#[cfg(test)]
mod tests;
