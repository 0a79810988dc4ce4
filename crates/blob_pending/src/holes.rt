//! Holes: the ranges of a pending write that later durable ranges cover.
ghost use Rattle.std.specs.Prelude.{◌≡◌, ◌<◌, ◌≤◌, ◌+◌, ◌++◌, ◌∷◌, drop, take, vec_len, vec_capacity};
ghost use Rattle.std.specs.List.Sorted.{IsNonDecreasingBy};
ghost use Rattle.blob_model.specs.Holes.{with_hole};
ghost use Rattle.blob_pending.specs.Ranges.{ranges};

use crate::extent::Extent;

/// Puts a hole in place of those from index `first` up to `last`. There is capacity for one more.
fn put_between(holes: &mut Vec<Extent>, first: usize, last: usize, hole: Extent)
    requires room { vec_len holes.old < vec_capacity holes.old }
    requires order { first ≤ last }
    requires inside { last ≤ vec_len holes.old }
    ensures items { holes.new.items ≡ take first holes.old.items ++ hole ∷ drop last holes.old.items }
    ensures len { vec_len holes.new ≤ vec_len holes.old + 1 }
    ensures capacity { vec_capacity holes.old ≤ vec_capacity holes.new }
{
    if first < last {
        holes[first] = hole;
        holes.drain(first + 1..last);
    } else {
        holes.insert(first, hole).unwrap();
    }
}

/// Adds a covered range, merged with those that it overlaps or touches. The holes are sorted, and found by halves.
pub(crate) fn dig(holes: &mut Vec<Extent>, mut start: u64, mut end: u64)
    requires room { vec_len holes.old < vec_capacity holes.old }
    requires sorted { IsNonDecreasingBy (λ (hole : Extent). hole.end) holes.old.items }
    ensures holes { ranges holes.new.items ≡ with_hole start end (ranges holes.old.items) }
    ensures len { vec_len holes.new ≤ vec_len holes.old + 1 }
    ensures capacity { vec_capacity holes.old ≤ vec_capacity holes.new }
{
    let first = holes.partition_point(|hole| hole.end < start);
    let mut last = first;
    while last < holes.len() {
        let hole = holes[last];
        if end < hole.start {
            break;
        }
        start = start.min(hole.start);
        end = end.max(hole.end);
        last += 1;
    }
    put_between(holes, first, last, Extent { start, end });
}
