//! The memory store of the crash-fault storage layer: partitions, incarnations and their durable bytes.
#![tactic(auto)]

mod audit;
pub mod blob;
mod borrowed;
mod contents;
pub mod fork;
mod found;
pub mod images;
mod item;
pub mod origin;
mod partitions;
mod ranges;
pub mod retain;
pub mod snapshot;
pub mod storage;

pub use blob::Blob;
pub use blob_pages::{Bytes, overlay};
pub use origin::Origin;
pub use snapshot::Snapshot;
pub use storage::Storage;
