//! Tests of iop_trace: the text of each line, and what two sinks hold until one of them fails.
#![tactic(auto)]

#[cfg(test)]
mod tests;
