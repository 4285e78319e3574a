//! Tests of iop_saved_tables: which bytes the lists of tables are, and which bytes are refused.
#![tactic(auto)]

#[cfg(test)]
mod made;
#[cfg(test)]
mod tests;
