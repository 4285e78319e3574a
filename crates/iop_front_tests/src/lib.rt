//! Tests of iop_front: what commands answer and write, with one file, several files and options,
//! where files and sinks fail, and what goes on from a snapshot.
#![tactic(auto)]

#[cfg(test)]
mod commands;
#[cfg(test)]
mod faults;
#[cfg(test)]
mod options;
#[cfg(test)]
mod scripts;
#[cfg(test)]
mod several_files;
#[cfg(test)]
mod single_files;
#[cfg(test)]
mod sizes;
#[cfg(test)]
mod snapshots;
#[cfg(test)]
mod sources;
#[cfg(test)]
mod vertical_blank;
