//! Faults: their configuration, and what each call and each crash draws.
#![tactic(auto)]

pub mod cells;
pub mod config;
pub mod draw;
pub mod faults;
pub mod rows;
pub mod runs;
pub mod selection;
pub mod selections;
pub mod value_laws;

pub use blob_model::{PartialWriteMode, mode};
pub use config::{Config, ResizeConfig, WriteConfig, write_config_from_cell};
pub use selections::Selections;
