//! Tests of irx_elf: which rule a changed file breaks, and the parts of a file that breaks none.
#![tactic(auto)]

#[cfg(test)]
mod tests;
