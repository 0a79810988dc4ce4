//! Decision trees of draws, and an explorer that visits each leaf once.
#![tactic(auto)]

pub mod choice;
pub mod explorer;
pub mod traversal;

pub use choice::Choice;
pub use explorer::Explorer;
pub use traversal::Traversal;
