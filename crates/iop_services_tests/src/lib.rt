//! Tests of iop_services: which service a library and a number name, and who may call it.
#![tactic(auto)]

#[cfg(test)]
mod tests;
