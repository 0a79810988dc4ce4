//! Runs calls by their lines: on the memory store, a wrapper, a wrapper over it, and values. Each result is a line.
#![tactic(auto)]

pub mod args;
mod callers;
pub mod calls;
pub mod found;
pub mod handles;
pub mod layers;
pub mod memory_calls;
pub mod place;
pub mod tokens;
pub mod values;
pub mod window;
pub mod words;
pub mod wrapper_calls;
