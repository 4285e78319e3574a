//! Tests of iop_mbx: the order of messages and of waiters, and for how many messages there is room.
#![tactic(auto)]

#[cfg(test)]
mod tests;
