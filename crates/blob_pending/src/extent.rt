//! A range of logical positions.

/// The positions from `start` up to `end`: a hole of a pending write, or the bounds of a block of entries.
#[derive(Clone, Copy, PartialEq, Eq)]
pub struct Extent {
    pub start: u64,
    pub end: u64,
}
