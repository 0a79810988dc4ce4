//! The states of a laboratory: the reply and the effect of each call, and laws of all runs.
#![tactic(auto)]

pub mod laws;
