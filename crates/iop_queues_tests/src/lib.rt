//! Tests of iop_queues: in which order items leave their queues, that room is shared, and which
//! numbers are free.
#![tactic(auto)]

#[cfg(test)]
mod tests;
