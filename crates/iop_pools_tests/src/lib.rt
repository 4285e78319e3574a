//! Tests of iop_pools: where memory is taken, which threads are answered, what is put back, and
//! what is refused.
#![tactic(auto)]

#[cfg(test)]
mod restoring;
#[cfg(test)]
mod tests;
