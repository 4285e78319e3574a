//! Tests of iop_saved_kernel: which bytes a kernel at first is, and one in which all has begun, and
//! which bytes are none.
#![tactic(auto)]

#[cfg(test)]
mod tests;
#[cfg(test)]
mod whole;
