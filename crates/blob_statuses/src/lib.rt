//! What calls return to programs in other languages: statuses, and those of refusals. What a call may do, and the power of a session.
#![tactic(auto)]

pub mod effect;
pub mod power;
pub mod ran;
pub mod refusals;
