//! A map keyed by partition and name, and the order of names.
#![tactic(auto)]

pub mod names;
pub mod order;
