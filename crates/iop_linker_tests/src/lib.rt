//! Tests of iop_linker: which stubs are bound to which functions, and which tables are refused.
#![tactic(auto)]

#[cfg(test)]
mod tests;
