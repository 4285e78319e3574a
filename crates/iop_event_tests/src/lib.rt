//! Tests of iop_event: what calls on event flags answer, and which waiters a pattern meets.
#![tactic(auto)]

#[cfg(test)]
mod tests;
