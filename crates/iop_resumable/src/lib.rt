//! What each step of the kernel keeps, so that a run can be resumed from a snapshot at any time:
//! its tables, its processor and what its threads keep are always as they can be put back.
#![tactic(auto)]

pub mod laws;
