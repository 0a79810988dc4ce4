//! The toolchain's SQL database on two files that crash. Every acknowledged transaction is found again, and no transaction
//! is found in part.
//!
//! Proved for every disk that can crash (`sqlite_disk::Crash`), from the contracts of the toolchain's database and its
//! theorem `opens_again`.
#![tactic(auto)]

pub mod crashes;
mod files;
mod retries;
pub mod sessions;
pub mod transactions;

pub use crashes::{crash, crash_and_open};
pub use sessions::{Session, sessions_survive};
pub use transactions::transact;
