//! Tests of iop_saved_checks: which kernels agree, each as the bytes of a snapshot.
#![tactic(auto)]

#[cfg(test)]
mod kernels;
#[cfg(test)]
mod tests;
