//! Tests of iop_snapshot: items, bytes and lists, as they are written and as they are read back.
//! The list of words that they save and restore stands here, too.
#![tactic(auto)]

#[cfg(test)]
mod tests;
mod words;
