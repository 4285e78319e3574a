//! Tests of iop_thread: what calls on threads answer, and which thread is dispatched next; what is put
//! back, and what is read in order.
#![tactic(auto)]

#[cfg(test)]
mod restoring;
#[cfg(test)]
mod tests;
