//! Tests of iop_saved_threads: which bytes processors and threads are, and which bytes are none; all
//! threads of a table, and the ready ones.
#![tactic(auto)]

#[cfg(test)]
mod processors;
#[cfg(test)]
mod tables;
#[cfg(test)]
mod threads;
