//! Exclusive opens over any store.
#![tactic(auto)]

pub mod open;
pub mod opens;

pub use opens::Opens;
