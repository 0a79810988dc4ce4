//! Copies of the pending lists, for a fork of a wrapper.
ghost use Rattle.std.specs.Prelude.{◌≡◌, IfOk};
ghost use Rattle.blob_pending.specs.Lists.{SameLists};
ghost use Rattle.blob_pending.specs.Marks.{left_marks};
ghost use Rattle.blob_pending.specs.Views.{left_in, view, write_of};

use crate::bounds::BlockBounds;
use crate::entry::{DurableRange, Entry};
use crate::incarnation::Incarnation;
use crate::lists::{Distinct, Lists};
use crate::marks::Marks;
use crate::write::PendingWrite;
use blob_base::Durable;
use std::alloc::AllocError;

impl Clone for PendingWrite {
    ghost is_clone = { λ a b. (write_of b ≡ write_of a) × (b.holes.items ≡ a.holes.items) };

    /// Returns a copy with the same holes. The only error is out of memory.
    fn clone(&self) -> Result<PendingWrite, AllocError> {
        Ok(PendingWrite {
            number: self.number,
            offset: self.offset,
            bytes: self.bytes.clone()?,
            mode: self.mode,
            rate: self.rate,
            holes: Vec::from_slice(*self.holes.allocator(), &self.holes)?,
        })
    }
}

impl Clone for DurableRange {
    ghost is_clone = { λ a b. (b.offset ≡ a.offset) × (b.bytes.items ≡ a.bytes.items) };

    /// Returns a copy. The only error is out of memory.
    fn clone(&self) -> Result<DurableRange, AllocError> {
        Ok(DurableRange {
            offset: self.offset,
            bytes: Vec::from_slice(*self.bytes.allocator(), &self.bytes)?,
        })
    }
}

impl Clone for Entry {
    ghost is_clone = { λ a b. view b ≡ view a };

    /// Returns a copy. The only error is out of memory.
    fn clone(&self) -> Result<Entry, AllocError> {
        Ok(match self {
            Entry::Write(write) => Entry::Write(write.clone()?),
            Entry::Resize(len) => Entry::Resize(*len),
            Entry::Range(range) => Entry::Range(range.clone()?),
            Entry::Marker(number) => Entry::Marker(*number),
            Entry::Dropped => Entry::Dropped,
        })
    }
}

impl Clone for Marks {
    ghost is_clone = { λ a b. left_marks b ≡ left_marks a };

    /// Returns a copy. The only error is out of memory.
    fn clone(&self) -> Result<Marks, AllocError> {
        Ok(Marks {
            numbers: Vec::from_slice(*self.numbers.allocator(), &self.numbers)?,
            dropped: self.dropped,
            sorted: self.sorted,
        })
    }
}

impl Clone for BlockBounds {
    ghost is_clone = { λ a b. (b.blocks.items ≡ a.blocks.items) × (b.groups.items ≡ a.groups.items) };

    /// Returns a copy. The only error is out of memory.
    fn clone(&self) -> Result<BlockBounds, AllocError> {
        Ok(BlockBounds {
            blocks: Vec::from_slice(*self.blocks.allocator(), &self.blocks)?,
            groups: Vec::from_slice(*self.groups.allocator(), &self.groups)?,
        })
    }
}

impl<O: Clone> Clone for Incarnation<O> {
    ghost is_clone = { λ a b. O.is_clone a.origin b.origin × (left_in b.entries.items ≡ left_in a.entries.items) };

    /// Returns a copy, without the capacity that was reserved. The only error is out of memory.
    fn clone(&self) -> Result<Incarnation<O>, AllocError> {
        Ok(Incarnation {
            origin: self.origin.clone()?,
            ends: self.ends,
            entries: self.entries.clone()?,
            covered: self.covered,
            front: self.front,
            marks: self.marks.clone()?,
            barriers: self.barriers,
            queues: self.queues,
            bounds: self.bounds.clone()?,
        })
    }
}

impl<S: Durable> Lists<S> {
    /// Returns a copy of the lists, with their order, their index and the map of their markers. The copy of an origin must equal
    /// it. Reserved capacity isn't copied. The only error is out of memory.
    pub fn copy(&self) -> Result<Lists<S>, AllocError>
    where
        S::Origin: Clone,
        requires { (a b : S.Origin) → S.Origin.is_clone a b → b ≡ a }
        ensures { IfOk result (λ copy. SameLists S.place self.now.all.lists.items copy.all.lists.items) }
    {
        Ok(Lists {
            all: Distinct {
                lists: self.all.lists.clone()?,
            },
            numbers: self.numbers.clone()?,
            searched: self.searched,
            owners: self.owners.clone()?,
            unmapped: self.unmapped,
        })
    }
}
