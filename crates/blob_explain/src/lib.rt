//! Pictures of crashes: a script's replies, and after each crash and each failed write what it did to the bytes of each file.
#![tactic(auto)]

mod as_json;
mod bases;
mod draws;
mod event;
mod explain;
mod files;
mod handles;
mod lines;
mod objects;
mod outcomes;
mod picture;
mod remarks;
mod rows;
mod telling;
mod unkept;
mod watch;

pub use as_json::explain_script_as_json;
pub use explain::explain_script;
