//! Scripts of files: a line for each call, its reply as a line, and remarks that explain it.
#![tactic(auto)]

pub mod answers;
pub mod byte_text;
pub mod call;
mod crash;
pub mod edit_text;
mod event;
mod event_text;
pub mod explored;
pub mod line;
mod objects;
pub mod path_text;
mod paths;
mod rates;
mod remarks;
pub mod reply_line;
pub mod scripts;
mod shared;
mod taking;
mod watch;

pub use explored::{RefusedFiles, explore_files};
pub use scripts::{explain_files, explain_files_as_json, serve_files};
