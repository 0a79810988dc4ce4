//! The fault wrapper: a store that fails by drawn choices, remembers what a crash could still lose, and crashes by them.
#![tactic(auto)]

mod admit;
pub mod blob;
mod crash;
mod crashed;
mod fork;
pub mod laws;
pub mod names;
mod open_admitted;
mod open_exclusive;
mod reads;
mod replay;
mod resizes;
mod retired;
pub mod storage;
mod syncs;
mod write_runs;
mod writes;

pub use blob::Blob;
pub use blob_draws::{
    Config, PartialWriteMode, ResizeConfig, Selections, WriteConfig, cells, config, draw, faults,
    mode, runs, selection, selections, write_config_from_cell,
};
pub use blob_pending::{content, entries, entry, extent, holes, incarnation, lists, write};
pub use retired::Retired;
pub use storage::Storage;
