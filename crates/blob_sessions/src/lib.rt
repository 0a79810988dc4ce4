//! A session of a program in another language: a laboratory that is begun by a preamble, and its calls by lines and typed; and
//! whole scripts. `blob_c` exports these to C.
#![tactic(auto)]

pub mod debts;
mod durable;
pub mod effects;
pub mod forks;
pub mod headers;
mod kept;
pub mod kinds;
pub mod line_text;
mod loose;
pub mod names;
pub mod parts;
pub mod preamble;
pub mod reply_text;
pub mod script;
pub mod session;
mod supply;
pub mod typed;

pub use blob_statuses::ran::{Ran, ScriptRan};
pub use blob_statuses::{effect, power, ran, refusals};
pub use debts::{DebtCall, DebtReply};
pub use headers::{Accepts, ParsedHeader};
pub use kept::Kept;
pub use parts::KeptRun;
pub use preamble::RefusedPreamble;
pub use session::Session;
pub use supply::PowerState;
pub use typed::{TypedCall, TypedReply};
