//! Truncations that no sync made durable, and what a crash kept.
use crate::crash::Place;
use blob_faulty::Selections;

/// A truncation of a file that no sync made durable.
#[derive(Clone, Copy, Debug, PartialEq, Eq)]
pub(crate) struct Truncation {
    /// The number of its edit.
    pub(crate) edit: u64,
    /// The length in bytes that it gave the file.
    pub(crate) length: u64,
    /// The number of the first write after it.
    pub(crate) next_write: u64,
}

/// What a crash of the layer kept of each pending write, and where these writes were.
#[derive(Drop)]
pub(crate) struct Kept {
    pub(crate) rows: Selections,
    pub(crate) places: Vec<Place>,
}
