//! Tests of iop_disasm: the texts of words, listings of memory, and registers that are read too
//! soon.
#![tactic(auto)]

#[cfg(test)]
mod tests;
