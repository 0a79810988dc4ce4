//! The positions of a pending list's entries, by blocks and by groups of blocks. A durable range only visits the blocks that
//! it may overlap.
ghost use Rattle.std.specs.Prelude.{◌≡◌, ◌<◌, ◌≤◌, ℕ, true, All};
ghost use Rattle.blob_pending.specs.Blocks.{AreBoundedBy, LiesApart, is_within};
ghost use Rattle.blob_pending.specs.Views.{view, views};

use crate::entry::Entry;
use crate::extent::Extent;
use std::alloc::AllocError;

/// The number of entries in a block.
const BLOCK: usize = 64;

/// The number of entries in a group of blocks.
const GROUP: usize = 64 * BLOCK;

/// Returns an extent that has all writes among a block's entries.
fn bounds_of(entries: &[Entry]) -> Extent
    ensures { All (λ entry. is_within result (view entry) ≡ true) entries.now }
{
    let mut bounds = Extent {
        start: u64::MAX,
        end: 0,
    };
    for entry in entries {
        if let Entry::Write(write) = entry {
            bounds.start = bounds.start.min(write.offset);
            bounds.end = bounds.end.max(write.end());
        }
    }
    bounds
}

/// Adds the missing bounds of whole parts of `size` entries. After an error, those added before it stay.
fn add_bounds(bounds: &mut Vec<Extent>, size: usize, entries: &[Entry]) -> Result<(), AllocError>
    requires size { 0 < size }
    requires bounded { AreBoundedBy size bounds.old.items (views entries.now) }
    ensures { AreBoundedBy size bounds.new.items (views entries.now) }
{
    while bounds.len() < entries.len() / size {
        let start = bounds.len() * size;
        bounds.push(bounds_of(&entries[start..start + size]))?;
    }
    Ok(())
}

/// Returns whether there are bounds at an index and they don't overlap the range from `start` up to `end`.
fn is_apart(bounds: &[Extent], index: usize, start: u64, end: u64) -> bool
    ensures { result ≡ true → LiesApart bounds.now index start end }
{
    match bounds.get(index) {
        Some(bounds) => bounds.end <= start || end <= bounds.start,
        None => false,
    }
}

/// The bounds of a list's whole blocks and of its whole groups of blocks.
#[derive(Drop)]
pub struct BlockBounds {
    pub blocks: Vec<Extent>,
    pub groups: Vec<Extent>,
}

impl BlockBounds {
    ghost use Rattle.std.specs.Prelude.{◌+◌, List};
    ghost use Rattle.blob_model.specs.Pending.{Pending};
    ghost use Rattle.blob_pending.specs.Blocks.{AreBounded, IsPassed};

    /// Adds the missing bounds of whole blocks and groups. After an error, those added before it stay.
    pub fn add(&mut self, entries: &[Entry]) -> Result<(), AllocError>
        requires { AreBounded self.old (views entries.now) }
        ensures { AreBounded self.new (views entries.now) }
    {
        add_bounds(&mut self.blocks, BLOCK, entries)?;
        add_bounds(&mut self.groups, GROUP, entries)
    }

    /// Drops all bounds. Call this when entries are removed.
    pub fn clear(&mut self)
        ensures { (entries : List Pending) → AreBounded self.new entries }
    {
        self.blocks.clear();
        self.groups.clear();
    }

    /// Returns the first index from `from` on at which an entry may overlap the range, or `len` if there is none.
    pub fn next_near(&self, from: usize, len: usize, start: u64, end: u64) -> usize
        requires { from ≤ len }
        ensures from { from ≤ result }
        ensures len { result ≤ len }
        ensures passed { (k : ℕ) → from ≤ k → k < result → IsPassed self.now k start end }
    {
        let mut i = from;
        while i < len {
            // A group or a block that begins here and doesn't overlap the range is passed as a whole.
            let passed = if i % GROUP == 0 && is_apart(&self.groups, i / GROUP, start, end) {
                GROUP
            } else if i % BLOCK == 0 && is_apart(&self.blocks, i / BLOCK, start, end) {
                BLOCK
            } else {
                0
            };
            if passed == 0 || len - i < passed {
                break;
            }
            i += passed;
        }
        i
    }
}
