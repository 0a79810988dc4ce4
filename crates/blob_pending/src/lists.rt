//! The pending lists of all incarnations.
ghost use Rattle.std.specs.Prelude.{◌≡◌, ◌<◌, ◌≤◌, ◌+◌, ◌^◌, ℕ, List, [], ◌∷◌, ◌++◌, length, map, nat_eq, true, false, IfOk, IfSome, IfNone, vec_len, OnErr};
ghost use Rattle.std.specs.List.{IsDistinct};
ghost use Rattle.blob_model.specs.Places.{Place};
ghost use Rattle.blob_model.specs.Holes.{Holes};
ghost use Rattle.blob_model.specs.Order.{has_list};
ghost use Rattle.blob_model.specs.Pending.{Marker};
ghost use Rattle.blob_header.specs.Refusals.{IsMemory};
ghost use Rattle.blob_pending.specs.Rooms.{CanCut, KeepsRest};
ghost use Rattle.indexmap.specs.IndexMap.{get};
ghost use Rattle.blob_pending.specs.Numbers.{AreIndexed};
ghost use Rattle.blob_pending.specs.Owners.{AreOwned, IsStartedIn};
ghost use Rattle.blob_pending.specs.Lists.{lists_of, IsAt, HasRoomIn, IsRoomAt, HasRangesAt, SameLists, AppendsAt, ChangesAt, IsCopyAt, LaysAt, AreDistinct, finished_in, StaysAt, RetiresList, TakesList, FinishesLists};

use crate::entry::Entry;
use crate::incarnation::Incarnation;
use crate::owners::{forget, map_new, reserve_owner};
use crate::room::Room;
use crate::write::PendingWrite;
use blob_base::{Blob, Durable, Error};
use indexmap::{IndexMap, IndexSet};
use std::alloc::{AllocError, Global};
use std::marker::Model;

/// Pending lists with distinct origins. A type of its own, so that the check keeps this invariant through each call.
#[derive(Drop)]
pub struct Distinct<O> {
    pub lists: Vec<Incarnation<O>>,
    ghost distinct: { AreDistinct lists.items },
}

/// The pending lists of all incarnations. An empty list stays until it is retired.
///
/// A list is found by the number of its incarnation, in an index. Incarnations of different stores may have the same number.
/// Once two of them have lists, the index is not used, and the lists are searched one by one, until the index is made again:
/// by `clear`, or by a removal of a partition.
///
/// A marker's list is found by the number of its incarnation, in a map of all markers that are left. The map is not used once a
/// marker has a number that another has, or once the lists are searched, until `clear`.
///
/// The index takes memory only with a new list, and the map only with a new marker: if that is refused, the error is `Memory`,
/// and the lists are unchanged.
#[derive(Drop)]
pub struct Lists<S: Durable> {
    pub(crate) all: Distinct<S::Origin>,
    /// The numbers of the lists' incarnations, in the order of the lists.
    pub(crate) numbers: IndexSet<u64>,
    /// Whether the index is not used.
    pub(crate) searched: bool,
    /// The number of each marker's incarnation.
    pub(crate) owners: IndexMap<u64, u64>,
    /// Whether the map is not used.
    pub(crate) unmapped: bool,
}

impl<S: Durable> Model for Lists<S> {
    ghost use Rattle.blob_pending.specs.Shown.{Shown};
    ghost use Rattle.std.specs.Prelude.{nat_eq};
    ghost use Rattle.indexmap.specs.IndexMap.{get};
    ghost use Rattle.blob_pending.specs.Owners.{AreFound};

    ghost Value = { Shown S.Origin };

    ghost use Rattle.std.specs.Coded.{codes};
    ghost use Rattle.blob_pending.specs.contracts.write.PendingWrite as pending_write;

    ghost coded = { Prim.hlevel (codes, pending_write.the_row.coded) };

    ghost view = { λ s. record { all = s.all } };

    ghost invariant = { λ s. AreFound S.place s.all.lists.items s.numbers.keys s.searched (get nat_eq s.owners) s.unmapped };
}

/// Completes a started sync in each list.
fn finish_each<O>(lists: &mut [Incarnation<O>], marker: u64)
    ensures { (p : O → Place) → lists_of p lists.new ≡ map (finished_in marker) (lists_of p lists.old) }
{
    for list in lists.iter_mut() {
        list.finish(marker);
    }
}

/// Does `finish_each` for the lists of a vector.
fn finish_all<O>(lists: &mut Vec<Incarnation<O>>, marker: u64)
    ensures { (p : O → Place) → lists_of p lists.new.items ≡ map (finished_in marker) (lists_of p lists.old.items) }
{
    finish_each(lists.as_mut_slice(), marker);
}

/// Adds a number to an index and returns whether it was added. It is not if the index has it, or has no capacity for it.
pub(crate) fn insert_new(numbers: &mut IndexSet<u64>, number: u64) -> bool
    ensures added { result ≡ true → numbers.new.keys ≡ numbers.old.keys ++ number ∷ [] }
    ensures distinct { IsDistinct nat_eq numbers.new.keys }
{
    matches!(numbers.insert(number), Ok(true))
}

/// Returns the index of an incarnation's list, searched one by one.
fn find_by_steps<S: Durable>(lists: &[Incarnation<S::Origin>], origin: &S::Origin) -> Option<usize>
    ensures some { IfSome result (λ i. IsAt (lists_of S.place lists.now) i (S.place origin.now)) }
    ensures none { IfNone result (has_list (lists_of S.place lists.now) (S.place origin.now) ≡ false) }
{
    for (i, list) in lists.iter().enumerate() {
        if list.origin == *origin {
            return Some(i);
        }
    }
    None
}

/// Returns the index of the list that has a marker, by the map of the markers and the index of the lists.
fn find_started<S: Durable>(
    lists: &[Incarnation<S::Origin>],
    numbers: &IndexSet<u64>,
    owners: &IndexMap<u64, u64>,
    marker: u64,
) -> Option<usize>
    requires indexed { AreIndexed S.place lists.now numbers.now.keys false }
    requires owned { AreOwned S.place lists.now (get nat_eq owners.now) }
    ensures { IsStartedIn S.place lists.now marker result }
{
    let Some(owner) = owners.get(&marker) else {
        return None;
    };
    numbers.get_index_of(owner)
}

impl<S: Durable> Lists<S> {
    /// Returns no lists.
    pub fn new(alloc: Global) -> Lists<S>
        ensures { result.all.lists.items ≡ [] }
    {
        Lists {
            all: Distinct {
                lists: Vec::new(alloc),
            },
            numbers: IndexSet::new(alloc),
            searched: false,
            owners: IndexMap::new(alloc),
            unmapped: false,
        }
    }

    /// Returns the lists, in no order.
    pub fn as_slice(&self) -> &[Incarnation<S::Origin>]
        ensures { result.now ≡ self.now.all.lists.items }
    {
        &self.all.lists
    }

    /// Drops all lists.
    pub fn clear(&mut self)
        ensures { self.new.all.lists.items ≡ [] }
    {
        self.all.lists.clear();
        self.numbers.clear();
        self.searched = false;
        self.owners.clear();
        self.unmapped = false;
    }

    /// Returns the index of an incarnation's list. Tries `hint` first.
    fn find(&self, origin: &S::Origin, hint: usize) -> Option<usize>
        ensures some { IfSome result (λ i. IsAt (lists_of S.place self.now.all.lists.items) i (S.place origin.now)) }
        ensures none { IfNone result (has_list (lists_of S.place self.now.all.lists.items) (S.place origin.now) ≡ false) }
    {
        if hint < self.all.lists.len() && self.all.lists[hint].origin == *origin {
            return Some(hint);
        }
        if self.searched {
            return find_by_steps::<S>(&self.all.lists, origin);
        }
        if self.all.lists.is_empty() {
            return None;
        }
        let number = S::number_of(origin);
        let Some(i) = self.numbers.get_index_of(&number) else {
            return None;
        };
        if self.all.lists[i].origin == *origin {
            Some(i)
        } else {
            None
        }
    }

    /// Adds a list for an incarnation that has none and returns its index. After an error the lists are unchanged.
    fn add(&mut self, origin: S::Origin) -> Result<usize, AllocError>
        requires { has_list (lists_of S.place self.old.all.lists.items) (S.place origin) ≡ false }
        ensures same { SameLists S.place self.old.all.lists.items self.new.all.lists.items }
        ensures at { IfOk result (λ i. IsAt (lists_of S.place self.new.all.lists.items) i (S.place origin)) }
        ensures inside { IfOk result (λ i. i < vec_len self.new.all.lists) }
    {
        let alloc = *self.all.lists.allocator();
        let i = self.all.lists.len();
        let number = S::number_of(&origin);
        self.numbers.reserve(1)?;
        self.all.lists.push(Incarnation::new(alloc, origin))?;
        let added = insert_new(&mut self.numbers, number);
        self.searched = self.searched || !added;
        self.unmapped = self.unmapped || self.searched;
        Ok(i)
    }

    /// Does `room_for`, except that it reserves nothing in the map of the markers.
    fn reserve_list<B: Blob<S>>(
        &mut self,
        blob: &B,
        hint: usize,
        room: Room,
    ) -> Result<usize, Error>
        ensures same { SameLists S.place self.old.all.lists.items self.new.all.lists.items }
        ensures ok { IfOk result (λ i. IsRoomAt S.place self.new.all.lists.items i (B.place blob.now) room) }
        ensures memory { OnErr result (IsMemory result) }
    {
        let i = match self.find(blob.origin_ref(), hint) {
            Some(i) => i,
            None => self.add(blob.origin()?)?,
        };
        self.all.lists[i].reserve(room)?;
        Ok(i)
    }

    /// Reserves capacity in the list of a handle's incarnation and returns its index. Tries `hint` first, and adds the list if
    /// there is none. The only error is `Memory`. The lists then have the same entries.
    pub fn room_for<B: Blob<S>>(
        &mut self,
        blob: &B,
        hint: usize,
        room: Room,
    ) -> Result<usize, Error>
        ensures same { SameLists S.place self.old.all.lists.items self.new.all.lists.items }
        ensures ok { IfOk result (λ i. IsRoomAt S.place self.new.all.lists.items i (B.place blob.now) room) }
        ensures memory { OnErr result (IsMemory result) }
    {
        reserve_owner(&mut self.owners, room)?;
        self.reserve_list(blob, hint, room)
    }

    /// Appends a write without holes to the list at `i`, which has capacity for it.
    pub fn push_write(&mut self, i: usize, write: PendingWrite)
        requires room { HasRoomIn self.old.all.lists.items i Room.Entry }
        requires whole { write.holes.items ≡ [] }
        ensures { AppendsAt S.place self.old.all.lists.items self.new.all.lists.items i (Entry.Write write) }
    {
        self.all.lists[i].push_write(write);
    }

    /// Appends a resize to the list at `i`, which has capacity for it.
    pub fn push_resize(&mut self, i: usize, len: u64)
        requires { HasRoomIn self.old.all.lists.items i Room.Entry }
        ensures { AppendsAt S.place self.old.all.lists.items self.new.all.lists.items i (Entry.Resize len) }
    {
        self.all.lists[i].push_resize(len);
    }

    /// Appends a marker to the list at `i`, which has capacity for it.
    pub fn mark(&mut self, i: usize, number: u64)
        requires { HasRoomIn self.old.all.lists.items i Room.Mark }
        ensures { ChangesAt S.place self.old.all.lists.items self.new.all.lists.items i (λ q. q ++ Marker number ∷ []) }
    {
        self.all.lists[i].mark(number);
        let owner = S::number_of(&self.all.lists[i].origin);
        let mapped = map_new(&mut self.owners, self.unmapped, number, owner);
        self.unmapped = !mapped;
    }

    /// Returns the `copy` for `lay`: a copy of the bytes if the list at `i` queues durable ranges, otherwise no bytes. The only
    /// error is `Memory`.
    pub fn copy_for(&self, i: usize, bytes: &[u8]) -> Result<Vec<u8>, Error>
        requires { i < vec_len self.now.all.lists }
        ensures copied { IfOk result (λ copy. IsCopyAt S.place self.now.all.lists.items i bytes.now copy.items) }
        ensures len { IfOk result (λ copy. length copy.items ≤ length bytes.now) }
        ensures memory { OnErr result (IsMemory result) }
    {
        let alloc = *self.all.lists.allocator();
        if self.all.lists[i].queues {
            return Ok(Vec::from_slice(alloc, bytes)?);
        }
        Ok(Vec::new(alloc))
    }

    /// Updates the list at `i` for a durable range. The list has capacity for it. `copy` has the range's bytes if it is queued.
    pub fn lay(&mut self, i: usize, offset: u64, len: u64, copy: Vec<u8>)
        requires inside { i < vec_len self.old.all.lists }
        requires room { CanCut offset len (HasRangesAt self.old.all.lists.items i) }
        requires copied { length copy.items ≤ len }
        ensures lists { LaysAt S.place self.old.all.lists.items self.new.all.lists.items i offset len copy.items }
        ensures at { StaysAt S.place self.old.all.lists.items self.new.all.lists.items i }
        ensures room { KeepsRest offset len (HasRangesAt self.old.all.lists.items i) (HasRangesAt self.new.all.lists.items i) }
        ensures len { vec_len self.new.all.lists ≡ vec_len self.old.all.lists }
    {
        self.all.lists[i].lay(offset, len, copy);
    }

    /// Drops the list at `i`. The last list takes its index.
    pub(crate) fn take(&mut self, i: usize)
        requires { i < vec_len self.old.all.lists }
        ensures { TakesList S.place self.old.all.lists.items self.new.all.lists.items i }
    {
        let list = self.all.lists.swap_remove(i);
        if !self.searched {
            forget(&mut self.owners, list.marks.left());
            self.numbers.swap_remove_index(i);
        }
    }

    /// Drops the list of an incarnation. Tries `hint` first. The last list takes its index.
    pub fn retire(&mut self, origin: &S::Origin, hint: usize)
        ensures { RetiresList S.place self.old.all.lists.items self.new.all.lists.items (S.place origin.now) }
    {
        if let Some(i) = self.find(origin, hint) {
            self.take(i);
        }
    }

    /// Completes a started sync: drops its marker and the entries before it in its list. Does nothing if the marker doesn't exist.
    pub fn finish(&mut self, marker: u64)
        ensures { FinishesLists S.place self.old.all.lists.items self.new.all.lists.items marker }
    {
        if self.unmapped {
            finish_all(&mut self.all.lists, marker);
            return;
        }
        let all = &self.all;
        let Some(i) = find_started::<S>(&all.lists, &self.numbers, &self.owners, marker) else {
            return;
        };
        forget(&mut self.owners, self.all.lists[i].marks.through(marker));
        self.all.lists[i].finish(marker);
    }
}
