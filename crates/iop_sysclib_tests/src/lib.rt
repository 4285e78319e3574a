//! Tests of iop_sysclib: what the services of sysclib answer, write and tell of.
#![tactic(auto)]

#[cfg(test)]
mod memory;
#[cfg(test)]
mod numbers;
#[cfg(test)]
mod rows;
#[cfg(test)]
mod strings;
#[cfg(test)]
mod stubs;
#[cfg(test)]
mod told;
