//! Tests of irx_reloc: what words become at a base, and which lists of entries are refused.
#![tactic(auto)]

#[cfg(test)]
mod tests;
