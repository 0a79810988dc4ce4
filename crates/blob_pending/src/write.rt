//! A write that a crash may lose in part.
ghost use Rattle.std.specs.Prelude.{◌<◌, ◌+◌, ◌^◌, length};
ghost use Rattle.blob_model.specs.Holes.{AreApart};
ghost use Rattle.blob_pending.specs.Ranges.{ranges, AreApart-prop};

use crate::content::Content;
use crate::extent::Extent;
use blob_base::Probability;
use blob_model::mode::PartialWriteMode;

/// A write that a crash may lose in part, with the ranges of it that later durable ranges cover.
#[derive(Drop)]
pub struct PendingWrite {
    /// Its number among all recorded writes.
    pub number: u64,
    pub offset: u64,
    pub bytes: Content,
    /// The mode and the retention rate of its issue.
    pub mode: PartialWriteMode,
    pub rate: Probability,
    /// Sorted, separate from each other, and within the write.
    pub holes: Vec<Extent>,
    ghost some: { 0 < length bytes },
    ghost fits: { offset + length bytes < 2 ^ 64 },
    ghost apart: { AreApart offset (ranges holes.items) (offset + length bytes) } by { AreApart-prop offset (ranges holes.items) (offset + length bytes) },
}

impl PendingWrite {
    ghost use Rattle.std.specs.Prelude.{◌≡◌, not};
    ghost use Rattle.blob_model.specs.Log.{has_bare};
    ghost use Rattle.blob_model.specs.Holes.{need_in};
    ghost use Rattle.blob_pending.specs.Views.{write_of};

    /// Returns the position after its last byte.
    pub fn end(&self) -> u64
        ensures { result ≡ self.now.offset + length self.now.bytes }
    {
        self.offset + self.bytes.len() as u64
    }

    /// Returns whether the holes cover every byte.
    pub fn is_covered(&self) -> bool
        ensures { result ≡ not (has_bare (need_in (write_of self.now) (ranges self.now.holes.items))) }
    {
        match self.holes.as_slice() {
            [hole] => hole.start == self.offset && hole.end == self.end(),
            _ => false,
        }
    }
}
