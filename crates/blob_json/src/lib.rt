//! Objects of JSON, each on a line of its own.
#![tactic(auto)]

pub mod object;
pub mod text;

pub use object::Object;
