//! Records of bytes, one after another in a blob. A crash keeps each whole, or loses it.
#![tactic(auto)]

pub mod laws;
pub mod number;
pub mod record;
