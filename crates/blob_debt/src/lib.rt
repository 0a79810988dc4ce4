//! The durability debt that closed handles leave.
#![tactic(auto)]

pub mod pending;

pub use pending::{Generation, GenerationId, Pending, Receiver, Sender};
