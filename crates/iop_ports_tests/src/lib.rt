//! Tests of iop_ports: what files, sinks and keeps answer, in memory and of the host, and where they
//! fail.
#![tactic(auto)]

#[cfg(test)]
mod keeps;
#[cfg(test)]
mod tests;
