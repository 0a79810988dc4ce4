//! Names, edits of names, and their journal's records: what a file system decides without a store.
#![tactic(auto)]

pub mod checkpoint;
pub mod copies;
pub mod edit;
pub mod laws;
pub mod log;
pub mod path;
pub mod profile;
pub mod record;
mod rule;
pub mod table;
pub mod tree;
pub mod unsettled;
pub mod unsettled_edits;
mod wanted;

pub use edit::{Binding, Change, Edit, Kind};
pub use profile::{Keeps, Profile, Settles};
