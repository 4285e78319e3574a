//! Tests of iop_time: ticks in microseconds, moments, and when alarms and delays come.
#![tactic(auto)]

#[cfg(test)]
mod tests;
