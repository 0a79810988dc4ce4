//! A laboratory that runs calls as data: a store that fails and crashes, its open handles and their names.
#![tactic(auto)]

mod ahead;
mod full;
pub mod lab;
pub mod scripted_rng;
mod slots;

pub use ahead::Ahead;
pub use lab::Lab;
pub use scripted_rng::ScriptedRng;
