//! The replay of pending entries over durable bytes, into capacity that was reserved before.
ghost use Rattle.std.specs.Prelude.{◌≡◌, ◌≤◌, length, vec_capacity, All};
ghost use Rattle.blob_model.specs.Pending.{replay_entry, end_of};
ghost use Rattle.blob_pending.specs.Contents.{HasZeros};
ghost use Rattle.blob_pending.specs.Lists.{lists_of, held_by};
ghost use Rattle.blob_pending.specs.Replays.{most_zeros_of_all, width, widest_of_all, zeros_for};
ghost use Rattle.blob_faulty.specs.Crashes.{chosen_in, ChoosesUncovered, ReplaysLists};
ghost use Rattle.blob_faulty.specs.Ready.{IsReady, CanReplay};
ghost use Rattle.blob_draws.specs.Rows.{AreNumbered};
ghost use Rattle.blob_pending.specs.Views.{view};
ghost use Rattle.blob_pending.specs.declared.entry.Entry.TheVariants.{Write};
ghost use Rattle.blob_pages.specs.Stored.{AreNow};
ghost use Rattle.blob_memory.specs.Store.{directory, durable};

use blob_draws::rows::choices_in;
use blob_memory::{Bytes, Origin, overlay};
use blob_pending::entries::unmarked;
use blob_pending::entry::Entry;
use blob_pending::incarnation::Incarnation;
use blob_pending::write::PendingWrite;

/// What a replay needs beside the lists and rows. It is allocated before anything changes.
#[derive(Drop)]
pub(crate) struct Buffers {
    /// As many zeros as the longest write of zeros has.
    pub(crate) zeros: Vec<u8>,
    /// Has capacity for the choices of the longest write.
    pub(crate) chosen: Vec<bool>,
}

/// Sets `chosen` to a row's choices for a write, without the bytes that later durable ranges cover. Bytes past the row's end
/// aren't chosen.
fn put_choices(chosen: &mut Vec<bool>, write: &PendingWrite, row: &[bool])
    requires { length write.now.bytes ≤ vec_capacity chosen.old }
    ensures len { length chosen.new.items ≡ length write.now.bytes }
    ensures each { ChoosesUncovered chosen.new.items write.now row.now }
    ensures capacity { vec_capacity chosen.old ≤ vec_capacity chosen.new }
{
    let len = write.bytes.len();
    let count = row.len().min(len);
    chosen.clear();
    chosen.extend_from_slice(&row[..count]).unwrap();
    chosen.resize(len, false).unwrap();
    for hole in &write.holes {
        let start = (hole.start - write.offset) as usize;
        let end = (hole.end - write.offset) as usize;
        chosen[start..end].fill(false);
    }
}

/// Replays a write over bytes with enough capacity. Its row is found by its number.
fn replay_write(
    bytes: &mut Bytes,
    write: &PendingWrite,
    rows: &[(u64, Vec<bool>)],
    zeros: &[u8],
    chosen: &mut Vec<bool>,
)
    requires numbered { AreNumbered rows.now }
    requires zeros { HasZeros (zeros_for (view (Write write.now))) zeros.now }
    requires room { CanReplay bytes.old (end_of (view (Write write.now))) (width (view (Write write.now))) chosen.old }
    ensures bytes { AreNow bytes.old bytes.new (replay_entry bytes.old.items (view (Write write.now)) (chosen_in rows.now)) }
    ensures capacity { vec_capacity chosen.old ≤ vec_capacity chosen.new }
{
    let offset = write.offset as usize;
    let run = write.bytes.as_slice(zeros);
    let row = choices_in(rows, write.number);
    // Most writes have no covered byte. Then the row isn't copied.
    if write.holes.is_empty() && row.len() == run.len() {
        overlay::write_chosen_slice(bytes, offset, run, row).unwrap();
        return;
    }
    put_choices(chosen, write, row);
    overlay::write_chosen_slice(bytes, offset, run, chosen).unwrap();
}

/// Replays one entry over bytes with enough capacity. A write's row is found by the write's number.
fn replay_entry(
    bytes: &mut Bytes,
    entry: &Entry,
    rows: &[(u64, Vec<bool>)],
    zeros: &[u8],
    chosen: &mut Vec<bool>,
)
    requires numbered { AreNumbered rows.now }
    requires zeros { HasZeros (zeros_for (view entry.now)) zeros.now }
    requires room { CanReplay bytes.old (end_of (view entry.now)) (width (view entry.now)) chosen.old }
    ensures bytes { AreNow bytes.old bytes.new (replay_entry bytes.old.items (view entry.now) (chosen_in rows.now)) }
    ensures capacity { vec_capacity chosen.old ≤ vec_capacity chosen.new }
{
    match entry {
        Entry::Write(write) => replay_write(bytes, write, rows, zeros, chosen),
        Entry::Resize(len) => overlay::resize(bytes, *len as usize).unwrap(),
        Entry::Range(range) => {
            overlay::write_slice(bytes, range.offset as usize, &range.bytes).unwrap();
        }
        Entry::Marker(_) => (),
        Entry::Dropped => (),
    }
}

/// Replays all lists, each over the durable bytes of its incarnation, if that hasn't ended: the entries after the last marker in
/// their order, except writes that are fully covered.
pub(crate) fn replay_all(
    inner: &mut blob_memory::Storage,
    lists: &[Incarnation<Origin>],
    rows: &[(u64, Vec<bool>)],
    buffers: Buffers,
)
    requires numbered { AreNumbered rows.now }
    requires ready { All (λ list. IsReady inner.old (held_by (λ o. o) list)) lists.now }
    requires width { widest_of_all (lists_of (λ o. o) lists.now) ≤ vec_capacity buffers.chosen }
    requires zeros { HasZeros (most_zeros_of_all (lists_of (λ o. o) lists.now)) buffers.zeros.items }
    ensures durable { ReplaysLists lists.now rows.now (durable inner.old) (durable inner.new) }
    ensures directory { directory inner.new ≡ directory inner.old }
{
    let Buffers { zeros, mut chosen } = buffers;
    let zeros = zeros.as_slice();
    for list in lists {
        let Some(bytes) = inner.durable_mut(&list.origin) else {
            continue;
        };
        for entry in unmarked(&list.entries) {
            if entry.is_left() {
                replay_entry(bytes, entry, rows, zeros, &mut chosen);
            }
        }
    }
}
