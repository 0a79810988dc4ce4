//! Writes and resizes of a vector of bytes. A write applies all bytes or selected ones.
#![tactic(auto)]

pub mod overlay;
