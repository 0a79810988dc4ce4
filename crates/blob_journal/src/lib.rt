//! Names of files with their journal, in a store that also has the files' blobs.
#![tactic(auto)]

pub mod crash;
pub mod edits;
pub mod files;
pub mod forks;
mod journal;
pub mod journaled;
pub mod laws;
mod moves;
mod recovery;
pub mod store;

pub use journaled::Journaled;
pub use store::{FileBlob, Handle, Store};
