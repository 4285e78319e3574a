//! Tests of irx_info: what is read of a plain module's information, whole and cut.
#![tactic(auto)]

#[cfg(test)]
mod tests;
