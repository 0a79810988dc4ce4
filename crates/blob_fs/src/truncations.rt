//! The truncations of a file that a crash kept, and what they leave of its bytes.
ghost use Rattle.std.specs.Prelude.{◌≡◌, ◌&&◌, IfOk, OnOk, length, map, min, nat_eq, true};
ghost use Rattle.blob_fs.specs.Bytes.{kept_length as length_kept};
ghost use Rattle.blob_fs.specs.Truncations.{AreMarks, Marks, cut_start as start_of, is_lost as loses, keeps_at, lost_of, marks_from, puts_back, puts_write, truncated, truncated_by};

use crate::crash::Place;
use crate::truncation::{Kept, Truncation};
use blob_directory::unsettled::Unsettled;
use blob_overlay::overlay::{lay_chosen, reach_of, set_len};
use std::alloc::{AllocError, Global};

/// The edits that a crash lost, and whether the profile cuts files.
#[derive(Drop)]
pub(crate) struct Loss {
    pub(crate) alloc: Global,
    /// The numbers of the edits that were lost.
    pub(crate) lost: Vec<u64>,
    /// The profile cuts files.
    pub(crate) cuts: bool,
}

/// Returns the numbers of the edits. Fails only if memory runs out.
pub(crate) fn numbers_of(alloc: Global, edits: &[Unsettled]) -> Result<Vec<u64>, AllocError>
    ensures { IfOk result (λ numbers. numbers.items ≡ map (λ e. e.number) edits.now) }
{
    let mut numbers = Vec::new(alloc);
    for edit in edits {
        numbers.push(edit.number)?;
    }
    Ok(numbers)
}

/// Returns those of the numbers whose edit wasn't kept. Fails only if memory runs out.
pub(crate) fn lost_edits(
    alloc: Global,
    numbers: &[u64],
    kept: &[bool],
) -> Result<Vec<u64>, AllocError>
    ensures { IfOk result (λ lost. lost.items ≡ lost_of numbers.now kept.now) }
{
    let mut lost = Vec::new(alloc);
    for i in 0..numbers.len().min(kept.len()) {
        if !kept[i] {
            lost.push(numbers[i])?;
        }
    }
    Ok(lost)
}

fn is_lost(lost: &[u64], truncation: &Truncation) -> bool
    ensures { result ≡ loses lost.now truncation.now }
{
    lost.contains(&truncation.edit)
}

/// Marks a position if the byte there was kept, and if it is one from another on.
fn mark(marks: &mut [bool], from: u64, at: u64, is_kept: bool)
    ensures { Marks marks.old marks.new (marks_from from (λ p. is_kept && nat_eq p at)) }
{
    if is_kept && at >= from && at < marks.len() as u64 {
        marks[at as usize] = true;
    }
}

/// Marks the positions, from one on, at which bytes of a write were kept.
fn mark_row(marks: &mut [bool], from: u64, offset: u64, choices: &[bool])
    ensures { Marks marks.old marks.new (marks_from from (keeps_at offset choices.now)) }
{
    for (i, kept) in choices.iter().enumerate() {
        let at = offset.saturating_add(i as u64);
        mark(marks, from, at, *kept);
    }
}

/// Marks the positions of the bytes of a write that a truncation puts back, if the write is a later one.
fn mark_write(
    marks: &mut [bool],
    number: u64,
    choices: &[bool],
    place: Place,
    inode: u64,
    truncation: &Truncation,
)
    ensures { Marks marks.old marks.new (puts_write inode truncation.now number choices.now place) }
{
    if number < truncation.next_write || place.inode != Some(inode) {
        return;
    }
    mark_row(marks, truncation.length, place.offset, choices);
}

/// Marks the positions of the bytes that a truncation puts back.
fn mark_later(marks: &mut [bool], kept: &Kept, inode: u64, truncation: &Truncation)
    ensures { Marks marks.old marks.new (puts_back kept.now inode truncation.now) }
{
    let rows = kept.rows.rows();
    let places = kept.places.as_slice();
    for i in 0..rows.len().min(places.len()) {
        let (number, choices) = &rows[i];
        mark_write(marks, *number, choices, places[i], inode, truncation);
    }
}

/// Returns for each found byte, by their count, whether a truncation puts it back. Fails only if memory runs out.
fn put_back(
    alloc: Global,
    count: usize,
    kept: &Kept,
    inode: u64,
    truncation: &Truncation,
) -> Result<Vec<bool>, AllocError>
    ensures { IfOk result (λ marks. AreMarks count marks.items (puts_back kept.now inode truncation.now)) }
{
    let mut marks = Vec::new(alloc);
    marks.resize(count, false)?;
    mark_later(&mut marks, kept, inode, truncation);
    Ok(marks)
}

/// Applies a truncation of a file to its bytes, of which these were found. Fails only if memory runs out.
fn truncate_by(
    bytes: &mut Vec<u8>,
    alloc: Global,
    kept: &Kept,
    inode: u64,
    found: &[u8],
    truncation: &Truncation,
) -> Result<(), AllocError>
    ensures { OnOk result (bytes.new.items ≡ truncated_by kept.now inode found.now bytes.old.items truncation.now) }
{
    let marks = put_back(alloc, found.len(), kept, inode, truncation)?;
    let length = truncation.length as usize;
    let most = length.max(found.len());
    bytes.reserve(most.saturating_sub(bytes.len()))?;
    set_len(bytes, length);
    let end = reach_of(0, &marks);
    lay_chosen(bytes, 0, end, found, &marks);
    Ok(())
}

/// Returns the bytes that those of the truncations of a file that weren't lost leave of what was found, applied in order. Fails only
/// if memory runs out.
pub(crate) fn truncate_all(
    kept: &Kept,
    loss: &Loss,
    inode: u64,
    truncations: &[Truncation],
    found: &[u8],
) -> Result<Vec<u8>, AllocError>
    ensures { IfOk result (λ l. l.items ≡ truncated kept.now loss.now.lost.items inode truncations.now found.now) }
{
    let mut bytes = Vec::from_slice(loss.alloc, found)?;
    for truncation in truncations {
        if !is_lost(&loss.lost, truncation) {
            truncate_by(&mut bytes, loss.alloc, kept, inode, found, truncation)?;
        }
    }
    Ok(bytes)
}

/// Returns whether these bytes are the same.
pub(crate) fn are_same(one: &[u8], other: &[u8]) -> bool
    ensures { result ≡ true → one.now ≡ other.now }
{
    one == other
}

/// Returns the size from which the cut of a file counts: the length of the last truncation that wasn't lost, or else the synced size.
pub(crate) fn cut_start(loss: &Loss, synced: u64, truncations: &[Truncation]) -> u64
    ensures { result ≡ start_of loss.now.lost.items synced truncations.now }
{
    let mut start = synced;
    for truncation in truncations {
        if !is_lost(&loss.lost, truncation) {
            start = truncation.length;
        }
    }
    start
}

/// Returns the length of the found bytes before the first one beyond the synced size that differs from the live bytes.
pub(crate) fn kept_length(found: &[u8], live: &[u8], synced: usize) -> usize
    ensures { result ≡ length_kept (min synced (length found.now)) live.now found.now }
{
    let mut at = synced.min(found.len());
    while at < found.len() && at < live.len() && found[at] == live[at] {
        at += 1;
    }
    at
}
