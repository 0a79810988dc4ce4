//! A log over the fault wrapper: every record for which an append returned Ok is found again after any crash.
#![tactic(auto)]

pub mod frame;
pub mod log;
pub mod sessions;

pub use log::Log;
