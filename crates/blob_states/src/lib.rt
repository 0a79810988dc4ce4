//! The states in which a crash could have left a recorded run: after each of its calls, by every outcome of the crash's draws.
#![tactic(auto)]

mod images;
mod names;
pub mod print;
pub mod recorded;
mod replay;
pub mod script;
pub mod states;
mod visit;

pub use print::StatesText;
pub use recorded::Recorded;
pub use script::{RefusedScript, read_script};
pub use states::{CrashStates, crash_states};
