//! Calls and replies as data and as the lines of a script.
#![tactic(auto)]

pub mod call;
pub mod reply;
pub mod script;

pub use call::Call;
pub use reply::Reply;
