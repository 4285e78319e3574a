//! Tests of iop_text: what each append leaves.
#![tactic(auto)]

#[cfg(test)]
mod tests;
