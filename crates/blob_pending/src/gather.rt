//! The writes for which a crash draws.
ghost use Rattle.std.specs.Prelude.{IfOk};
ghost use Rattle.std.specs.List.Sorted.{IsNonDecreasingBy};
ghost use Rattle.blob_pending.specs.Draws.{AreDrawsFor};

use crate::entries::unmarked;
use crate::entry::Entry;
use crate::incarnation::Incarnation;
use blob_draws::draw::Draw;
use std::alloc::{AllocError, Global};

/// Returns the writes of all lists that need a draw, sorted by number.
pub fn gather<O>(alloc: Global, lists: &[Incarnation<O>]) -> Result<Vec<Draw>, AllocError>
    ensures all { IfOk result (λ draws. AreDrawsFor lists.now draws.items) }
    ensures rising { IfOk result (λ draws. IsNonDecreasingBy (λ (d : Draw). d.number) draws.items) }
{
    let mut draws = Vec::new(alloc);
    for list in lists {
        for entry in unmarked(&list.entries) {
            match entry {
                Entry::Write(write) if !write.is_covered() => draws.push(Draw {
                    number: write.number,
                    offset: write.offset,
                    len: write.bytes.len(),
                    mode: write.mode,
                    rate: write.rate,
                })?,
                _ => (),
            }
        }
    }
    draws.sort_unstable_by_key(|draw| draw.number);
    Ok(draws)
}
