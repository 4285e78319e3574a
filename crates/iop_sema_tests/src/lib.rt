//! Tests of iop_sema: what calls on semaphores answer, and in which order their waiters are taken.
#![tactic(auto)]

#[cfg(test)]
mod tests;
