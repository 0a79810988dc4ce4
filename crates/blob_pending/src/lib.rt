//! The pending list of each incarnation: what a crash may lose, in issue order.
#![tactic(auto)]

pub mod bounds;
pub mod content;
mod copies;
pub mod entries;
pub mod entry;
pub mod extent;
pub mod gather;
pub mod holes;
pub mod incarnation;
pub mod lists;
pub mod marks;
pub mod naming;
mod owners;
pub mod partition;
pub mod room;
pub mod write;
