//! One pending mutation of a blob.
ghost use Rattle.std.specs.Prelude.{◌<◌, ◌+◌, ◌^◌, length};

use crate::holes::dig;
use crate::write::PendingWrite;
use std::alloc::AllocError;

/// A range that is already durable. A crash that replays an earlier resize must apply it again.
#[derive(Drop)]
pub struct DurableRange {
    pub offset: u64,
    pub bytes: Vec<u8>,
    ghost fits: { offset + length bytes.items < 2 ^ 64 },
}

/// A pending mutation of an incarnation.
#[derive(Drop)]
pub enum Entry {
    Write(PendingWrite),
    /// A resize that survives a crash, to this logical length.
    Resize(u64),
    Range(DurableRange),
    /// A started sync, by its number. The entries before it are durable.
    Marker(u64),
    /// An entry that a finished sync dropped. Nothing is left of it.
    Dropped,
}

impl Entry {
    ghost use Rattle.std.specs.Prelude.{◌≡◌, ◌&&◌, ◌∷◌, [], OnOk, not};
    ghost use Rattle.blob_model.specs.Holes.{Holes};
    ghost use Rattle.blob_model.specs.Pending.{is_barrier, is_mark};
    ghost use Rattle.blob_pending.specs.Rooms.{AreWithin, HasRoomFor, CanCut, KeepsRest};
    ghost use Rattle.blob_pending.specs.Views.{view, pared_by, is_left};

    /// Adds a durable range to the holes of a write. Returns whether the write became fully covered by it.
    pub fn cover(&mut self, start: u64, len: u64) -> bool
        requires { CanCut start len (λ hs. HasRoomFor hs self.old) }
        ensures view { view self.new ≡ pared_by start len (view self.old) }
        ensures room { KeepsRest start len (λ hs. HasRoomFor hs self.old) (λ hs. HasRoomFor hs self.new) }
        ensures covered { result ≡ (is_left (view self.old) && not (is_left (view self.new))) }
    {
        let Entry::Write(write) = self else {
            return false;
        };
        let first = start.max(write.offset);
        let end = (start + len).min(write.end());
        if end <= first {
            return false;
        }
        let was_covered = write.is_covered();
        dig(&mut write.holes, first, end);
        !was_covered && write.is_covered()
    }

    /// Reserves capacity in a write for the holes of `count` ranges between `start` and `end`, at most one for each byte of the
    /// write there. After an error it is unchanged.
    pub fn reserve(&mut self, start: u64, end: u64, count: usize) -> Result<(), AllocError>
        ensures view { view self.new ≡ view self.old }
        ensures ok { OnOk result ((ranges : Holes) → AreWithin start end count ranges → HasRoomFor ranges self.new) }
    {
        let Entry::Write(write) = self else {
            return Ok(());
        };
        let there = end.min(write.end()).saturating_sub(start.max(write.offset));
        write.holes.reserve(there.min(count as u64) as usize)
    }

    /// Returns whether a crash still draws for it or applies it. False for a fully covered write and for a dropped entry.
    pub fn is_left(&self) -> bool
        ensures { result ≡ is_left (view self.now) }
    {
        match self {
            Entry::Write(write) => !write.is_covered(),
            Entry::Dropped => false,
            _ => true,
        }
    }

    /// Returns whether a later durable range must be queued after it.
    pub fn is_barrier(&self) -> bool
        ensures { result ≡ is_barrier (view self.now) }
    {
        match self {
            Entry::Resize(_) | Entry::Range(_) => true,
            _ => false,
        }
    }

    /// Returns whether it is the marker with this number.
    pub fn is_mark(&self, marker: u64) -> bool
        ensures { result ≡ is_mark marker (view self.now) }
    {
        match self {
            Entry::Marker(number) => *number == marker,
            _ => false,
        }
    }
}
