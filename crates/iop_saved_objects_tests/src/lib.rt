//! Tests of iop_saved_objects: which bytes the lists of objects are, and which bytes are refused.
#![tactic(auto)]

#[cfg(test)]
mod bytes;
#[cfg(test)]
mod made;
#[cfg(test)]
mod tests;
