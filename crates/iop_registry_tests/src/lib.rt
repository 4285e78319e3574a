//! Tests of iop_registry: libraries that are found, registered and released, and room for them.
#![tactic(auto)]

#[cfg(test)]
mod tests;
