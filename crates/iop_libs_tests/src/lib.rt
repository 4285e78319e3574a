//! Tests of iop_libs: what the services of loadcore, sysmem and stdio answer.
#![tactic(auto)]

#[cfg(test)]
mod tests;
