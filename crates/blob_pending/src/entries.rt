//! The pending entries of one incarnation, in issue order.
ghost use Rattle.std.specs.Prelude.{◌≡◌, ◌<◌, ◌≤◌, ◌+◌, ◌*◌, ◌^◌, ℕ, List, ◌++◌, ◌∷◌, [], OnOk, IfSome, IfNone, map, drop, length, vec_len, vec_capacity, true};
ghost use Rattle.blob_model.specs.Holes.{Holes};
ghost use Rattle.blob_model.specs.Pending.{finish, ends};
ghost use Rattle.blob_pending.specs.Blocks.{AreBounded, KeepsBounded};
ghost use Rattle.blob_pending.specs.Marks.{barriers_in};
ghost use Rattle.blob_pending.specs.Replays.{most_zeros, unmarked, widest};
ghost use Rattle.blob_pending.specs.Rooms.{AreWithin, HasRoomsFor, EachHasRoom, CanCut, KeepsRest};
ghost use Rattle.blob_pending.specs.Views.{view, views, pared_by, left_in, AreDropped, CountsCovered};

use crate::bounds::BlockBounds;
use crate::entry::Entry;
use std::alloc::AllocError;

/// Reserves capacity for `count` more durable ranges between `start` and `end`. Only writes that overlap that range need some.
/// Blocks whose bounds don't overlap it are skipped. After an error the list is unchanged.
pub(crate) fn reserve_ranges(
    entries: &mut Vec<Entry>,
    bounds: &BlockBounds,
    start: u64,
    end: u64,
    count: usize,
) -> Result<(), AllocError>
    requires { AreBounded bounds.now (views entries.old.items) }
    ensures views { views entries.new.items ≡ views entries.old.items }
    ensures ok { OnOk result ((ranges : Holes) → AreWithin start end count ranges → HasRoomsFor ranges entries.new) }
{
    entries.reserve(count)?;
    let len = entries.len();
    let mut i = bounds.next_near(0, len, start, end);
    while i < len {
        entries[i].reserve(start, end, count)?;
        i = bounds.next_near(i + 1, len, start, end);
    }
    Ok(())
}

/// Adds a durable range to the holes of each write that it overlaps. Returns how many writes became fully covered.
pub(crate) fn cover_all(
    entries: &mut Vec<Entry>,
    bounds: &BlockBounds,
    start: u64,
    len: u64,
) -> usize
    requires bounded { AreBounded bounds.now (views entries.old.items) }
    requires room { CanCut start len (EachHasRoom entries.old.items) }
    ensures views { views entries.new.items ≡ map (pared_by start len) (views entries.old.items) }
    ensures room { KeepsRest start len (EachHasRoom entries.old.items) (EachHasRoom entries.new.items) }
    ensures left { length (left_in entries.old.items) ≤ length (left_in entries.new.items) + result }
    ensures capacity { vec_capacity entries.new ≡ vec_capacity entries.old }
    ensures len { vec_len entries.new ≡ vec_len entries.old }
{
    let count = entries.len();
    let mut covered = 0;
    let mut i = bounds.next_near(0, count, start, start + len);
    while i < count {
        if entries[i].cover(start, len) {
            covered += 1;
        }
        i = bounds.next_near(i + 1, count, start, start + len);
    }
    covered
}

/// Removes the entries of which nothing is left and all bounds, once more than half of the list may be such entries, so that the cost
/// of one of them doesn't grow with the list. There are at most `covered` of them, the first `front` entries among them.
pub(crate) fn compact(
    entries: &mut Vec<Entry>,
    bounds: &mut BlockBounds,
    covered: &mut usize,
    front: &mut usize,
)
    requires bounded { AreBounded bounds.old (views entries.old.items) }
    requires dropped { AreDropped front.old (views entries.old.items) }
    requires counted { CountsCovered covered.old (views entries.old.items) }
    ensures left { left_in entries.new.items ≡ left_in entries.old.items }
    ensures bounded { AreBounded bounds.new (views entries.new.items) }
    ensures holes { (later : Holes) → EachHasRoom entries.old.items later → EachHasRoom entries.new.items later }
    ensures capacity { vec_capacity entries.old ≤ vec_capacity entries.new }
    ensures len { vec_len entries.new ≤ vec_len entries.old }
    ensures dropped { AreDropped front.new (views entries.new.items) }
    ensures counted { CountsCovered covered.new (views entries.new.items) }
    ensures half { vec_len entries.new ≤ 2 * length (left_in entries.new.items) }
{
    if *covered <= entries.len() / 2 {
        return;
    }
    entries.retain(|entry| entry.is_left());
    bounds.clear();
    *covered = 0;
    *front = 0;
}

/// Returns the index after a marker, `None` if it doesn't exist. Nothing is left of the first `from` entries.
pub(crate) fn end_of(entries: &[Entry], from: usize, marker: u64) -> Option<usize>
    requires { AreDropped from (views entries.now) }
    ensures some { IfSome result (λ end. views (drop end entries.now) ≡ finish marker (views entries.now)) }
    ensures from { IfSome result (λ end. from ≤ end) }
    ensures inside { IfSome result (λ end. end ≤ length entries.now) }
    ensures none { IfNone result (views entries.now ≡ finish marker (views entries.now)) }
{
    for i in from..entries.len() {
        if entries[i].is_mark(marker) {
            return Some(i + 1);
        }
    }
    None
}

/// Drops the entries from `from` up to `end`, where they are. Returns how many of them were resizes or queued ranges.
pub(crate) fn drop_between(entries: &mut Vec<Entry>, from: usize, end: usize) -> usize
    requires dropped { AreDropped from (views entries.old.items) }
    requires order { from ≤ end }
    requires inside { end ≤ vec_len entries.old }
    ensures dropped { AreDropped end (views entries.new.items) }
    ensures rest { drop end entries.new.items ≡ drop end entries.old.items }
    ensures len { vec_len entries.new ≡ vec_len entries.old }
    ensures barriers { barriers_in (views entries.new.items) + result ≡ barriers_in (views entries.old.items) }
    ensures bounded { KeepsBounded (views entries.old.items) (views entries.new.items) }
{
    let mut barriers = 0;
    for i in from..end {
        if entries[i].is_barrier() {
            barriers += 1;
        }
        entries[i] = Entry::Dropped;
    }
    barriers
}

/// Returns the entries after the last marker.
pub fn unmarked(entries: &[Entry]) -> &[Entry]
    ensures { left_in result.now ≡ unmarked (left_in entries.now) }
{
    let mut start = entries.len();
    while start > 0 {
        if let Entry::Marker(_) = entries[start - 1] {
            return &entries[start..];
        }
        start -= 1;
    }
    entries
}

/// What a replay of pending entries needs.
#[derive(Clone, Copy)]
pub struct ReplayRoom {
    /// The greatest end of an entry.
    pub end: u64,
    /// The length of the longest write, which has a choice for each byte.
    pub choices: usize,
    /// The length of the longest write of zeros.
    pub zeros: usize,
}

/// Returns what a replay of these entries needs. Fully covered writes need nothing.
pub fn replay_room(entries: &[Entry]) -> ReplayRoom
    ensures end { result.end ≡ ends (left_in entries.now) }
    ensures width { result.choices ≡ widest (left_in entries.now) }
    ensures zeros { result.zeros ≡ most_zeros (left_in entries.now) }
{
    let mut end = 0;
    let mut choices = 0;
    let mut zeros = 0;
    for entry in entries {
        match entry {
            Entry::Write(write) if !write.is_covered() => {
                end = end.max(write.end());
                choices = choices.max(write.bytes.len());
                zeros = zeros.max(write.bytes.zeros());
            }
            Entry::Resize(len) => end = end.max(*len),
            Entry::Range(range) => end = end.max(range.offset + range.bytes.len() as u64),
            Entry::Write(_) | Entry::Marker(_) | Entry::Dropped => (),
        }
    }
    ReplayRoom {
        end,
        choices,
        zeros,
    }
}
