//! Tests of iop_kernel: what its services answer, and who runs then.
#![tactic(auto)]

#[cfg(test)]
mod codes;
#[cfg(test)]
mod steps;
#[cfg(test)]
mod tests;
#[cfg(test)]
mod world;
