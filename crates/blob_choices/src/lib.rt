//! Two words suffice: 0 and the greatest word give every outcome of a run.
#![tactic(auto)]

pub mod laws;
