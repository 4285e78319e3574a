//! Tests of iop_ready: which slot is the best after each change, what the queues hold, and which
//! words are priorities.
#![tactic(auto)]

#[cfg(test)]
mod tests;
