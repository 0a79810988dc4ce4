//! One value in two files, which is replaced whole.
//!
//! The first byte of a file is its version, which goes 1, 2, 3, 1; the value follows. A new value is written into the
//! older file and synced, and then the version, one byte, with a sync of its own. A crash leaves a byte old or new, so no
//! checksum is needed. Torn bytes may have the right one.
#![tactic(auto)]

pub mod cell;
pub mod crashes;
mod file;

pub use cell::Cell;
