//! The pending list of one incarnation, with its markers.
ghost use Rattle.std.specs.Prelude.{◌≡◌, ◌<◌, ◌≤◌, vec_len};
ghost use Rattle.blob_model.specs.Pending.{has_barrier};
ghost use Rattle.blob_pending.specs.Blocks.{AreBounded};
ghost use Rattle.blob_pending.specs.Marks.{marks_of, left_marks, barriers_in};
ghost use Rattle.blob_pending.specs.Views.{views, left_in, AreDropped, CountsCovered};

use crate::bounds::BlockBounds;
use crate::entries;
use crate::entry::{DurableRange, Entry};
use crate::marks::Marks;
use crate::room::Room;
use crate::write::PendingWrite;
use std::alloc::{AllocError, Global};

/// How many entries a list grows by at most, unless an eighth of it is more.
const SHORT: usize = 512;

/// Returns how many entries a full list of this length grows by. A short one triples, and a long one grows by an eighth: pending writes
/// are what its memory is used for.
fn growth(len: usize) -> usize
    ensures { 0 < result }
{
    len.saturating_mul(2).min(SHORT).max(len / 8) + 4
}

/// The pending list of one incarnation.
#[derive(Drop)]
pub struct Incarnation<O> {
    pub origin: O,
    /// What was last noted: whether a removal ends its incarnation.
    pub ends: bool,
    /// The pending entries, and those of which nothing is left, which are removed in bulk.
    pub entries: Vec<Entry>,
    /// An upper bound on the number of entries of which nothing is left.
    pub covered: usize,
    /// Nothing is left of the entries before this index. The next sync is completed from here on.
    pub front: usize,
    /// The numbers of the markers among the entries, in their order.
    pub marks: Marks,
    /// The number of resizes and queued ranges among the entries.
    pub barriers: usize,
    /// Whether there are any.
    pub queues: bool,
    /// The bounds of the first blocks of entries.
    pub bounds: BlockBounds,
    ghost dropped: { AreDropped front (views entries.items) },
    ghost marked: { left_marks marks ≡ marks_of (views entries.items) },
    ghost barred: { barriers ≡ barriers_in (views entries.items) },
    ghost queued: { queues ≡ has_barrier (views entries.items) },
    ghost bounded: { AreBounded bounds (views entries.items) },
    ghost counted: { CountsCovered covered (views entries.items) },
}

impl<O> Incarnation<O> {
    ghost use Rattle.std.specs.Prelude.{◌<◌, ◌+◌, ◌*◌, ◌^◌, ◌++◌, ◌∷◌, ℕ, List, [], OnOk, false, true, length};
    ghost use Rattle.blob_model.specs.Holes.{Holes};
    ghost use Rattle.blob_model.specs.Pending.{Marker, finish};
    ghost use Rattle.blob_pending.specs.Lists.{Becomes, HasRoom, LaysInto};
    ghost use Rattle.blob_pending.specs.Rooms.{HasRoomsFor, CanCut, KeepsRest};

    /// Returns an empty list.
    pub fn new(alloc: Global, origin: O) -> Incarnation<O>
        ensures origin { result.origin ≡ origin }
        ensures entries { result.entries.items ≡ [] }
    {
        Incarnation {
            origin,
            ends: false,
            entries: Vec::new(alloc),
            covered: 0,
            front: 0,
            marks: Marks::new(alloc),
            barriers: 0,
            queues: false,
            bounds: BlockBounds {
                blocks: Vec::new(alloc),
                groups: Vec::new(alloc),
            },
        }
    }

    /// Notes whether a removal ends its incarnation.
    pub fn note(&mut self, ends: bool)
        ensures origin { self.new.origin ≡ self.old.origin }
        ensures entries { self.new.entries.items ≡ self.old.entries.items }
        ensures noted { self.new.ends ≡ ends }
    {
        self.ends = ends;
    }

    /// Reserves capacity. After an error the list is unchanged.
    pub fn reserve(&mut self, room: Room) -> Result<(), AllocError>
        ensures same { Becomes self.old self.new (left_in self.old.entries.items) }
        ensures ok { OnOk result (HasRoom room self.new) }
    {
        match room {
            Room::Ranges(start, end, count) => {
                self.bounds.add(&self.entries)?;
                return entries::reserve_ranges(&mut self.entries, &self.bounds, start, end, count);
            }
            Room::Mark => self.marks.reserve()?,
            Room::Entry => (),
        }
        if self.entries.len() < self.entries.capacity() {
            return Ok(());
        }
        self.entries.reserve_exact(growth(self.entries.len()))
    }

    /// Appends a write without holes. The list has capacity for it.
    pub fn push_write(&mut self, write: PendingWrite)
        requires room { HasRoom Room.Entry self.old }
        requires whole { write.holes.items ≡ [] }
        ensures write { Becomes self.old self.new (left_in self.old.entries.items ++ left_in (Entry.Write write ∷ [])) }
        ensures marks { self.new.marks ≡ self.old.marks }
    {
        self.entries.push(Entry::Write(write)).unwrap();
    }

    /// Appends a resize to a length. The list has capacity for it.
    pub fn push_resize(&mut self, len: u64)
        requires { HasRoom Room.Entry self.old }
        ensures resize { Becomes self.old self.new (left_in self.old.entries.items ++ left_in (Entry.Resize len ∷ [])) }
        ensures marks { self.new.marks ≡ self.old.marks }
    {
        self.barriers += 1;
        self.queues = true;
        self.entries.push(Entry::Resize(len)).unwrap();
    }

    /// Appends a marker. The list has capacity for it.
    pub fn mark(&mut self, number: u64)
        requires { HasRoom Room.Mark self.old }
        ensures { Becomes self.old self.new (left_in self.old.entries.items ++ Marker number ∷ []) }
    {
        self.marks.push(number);
        self.entries.push(Entry::Marker(number)).unwrap();
    }

    /// Updates the list for a durable range: the range joins the holes of the writes, and is queued if a resize or a queued range
    /// is pending, since a crash that replays an earlier resize would undo it. The list has capacity for it. `copy` has the
    /// range's bytes if it is queued.
    pub fn lay(&mut self, offset: u64, len: u64, copy: Vec<u8>)
        requires room { CanCut offset len (λ hs. HasRoomsFor hs self.old.entries) }
        requires copied { length copy.items ≤ len }
        ensures laid { LaysInto offset len copy.items self.old self.new }
        ensures origin { self.new.origin ≡ self.old.origin }
        ensures marks { self.new.marks ≡ self.old.marks }
        ensures room { KeepsRest offset len (λ hs. HasRoomsFor hs self.old.entries) (λ hs. HasRoomsFor hs self.new.entries) }
        ensures half { vec_len self.new.entries ≤ 2 * length (left_in self.new.entries.items) }
    {
        let covered = entries::cover_all(&mut self.entries, &self.bounds, offset, len);
        self.covered = self.covered.saturating_add(covered);
        entries::compact(
            &mut self.entries,
            &mut self.bounds,
            &mut self.covered,
            &mut self.front,
        );
        if self.queues {
            let bytes = copy;
            let range = Entry::Range(DurableRange { offset, bytes });
            self.barriers += 1;
            self.entries.push(range).unwrap();
        }
    }

    /// Completes a started sync: drops its marker, if it exists, and all entries before it.
    pub fn finish(&mut self, marker: u64)
        ensures { Becomes self.old self.new (finish marker (left_in self.old.entries.items)) }
    {
        let Some(place) = self.marks.place_of(marker) else {
            return;
        };
        let Some(end) = entries::end_of(&self.entries, self.front, marker) else {
            return;
        };
        self.marks.drop_front(place + 1);
        self.barriers -= entries::drop_between(&mut self.entries, self.front, end);
        self.queues = self.barriers > 0;
        self.covered = self.covered.saturating_add(end - self.front);
        self.front = end;
        entries::compact(
            &mut self.entries,
            &mut self.bounds,
            &mut self.covered,
            &mut self.front,
        );
    }
}
