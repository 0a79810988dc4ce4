//! What searches have in common: their limit, the words of a run along a path, whether a run was refused memory, the distinct outcomes
//! or states so far, and how these are printed.
#![tactic(auto)]

pub mod explored;
pub mod found;
pub mod images;
pub mod limit;
pub mod paths;
pub mod short;
pub mod tally;
pub mod words;

pub use explored::Explored;
pub use tally::Outcome;
