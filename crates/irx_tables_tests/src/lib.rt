//! Tests of irx_tables: what is read of import and export tables in memory.
#![tactic(auto)]

#[cfg(test)]
mod tests;
