//! Tests of iop_objects: the order in which waiters are taken, and the ids and states of objects.
#![tactic(auto)]

#[cfg(test)]
mod tests;
