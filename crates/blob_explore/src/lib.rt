//! Bounded exhaustive exploration of a script: its calls run once for each leaf of the decision tree of their draws.
#![tactic(auto)]

pub mod exploration;
pub mod outcomes;
mod print;
mod run;
pub mod script;
mod shared;

pub use blob_distinct::Outcome;
pub use blob_distinct::explored::print_explored;
pub use exploration::{Exploration, Leaf};
pub use outcomes::{Explored, explore};
pub use print::explore_text;
pub use script::{RefusedScript, Script, read_script};
