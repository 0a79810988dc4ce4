// The text of what a crash did to a file.
ghost use Rattle.std.specs.Prelude.{◌≡◌, true, false};
ghost use Rattle.blob_explain.specs.Choices.{choice_at};

use crate::files::{File, Item, Write};
use crate::rows::{Cell, STRIPE, push_row};
use std::alloc::{AllocError, Global};

/// How many bytes are compared at once where no entry writes: a whole number of stripes.
const BLOCK: u64 = 256 * STRIPE;

/// What became of a byte of a write.
#[derive(Clone, Copy, PartialEq, Eq)]
pub(crate) enum Fate {
    Kept,
    Lost,
    /// Later bytes were durable over it, whatever was drawn.
    Covered,
}

/// Adds what became of a file's entries: its lengths, each entry, and the bytes that were reached.
pub(crate) fn draw(file: &File, after: &[u8], text: &mut String) -> Result<(), AllocError> {
    let name = hex::encode(*text.allocator(), &file.name)?;
    let (partition, before) = (&file.partition, file.before.len());
    write!(text, "{partition} {name}: ")?;
    if file.is_current {
        let after = after.len();
        writeln!(text, "length {before} before, {after} after")?;
    } else {
        writeln!(text, "has ended, and nothing of it is left to change")?;
    }
    for (i, item) in file.entries.iter().enumerate() {
        push_item(item, i < file.held, text)?;
    }
    if file.is_current {
        push_stripes(file, after, text)?;
    }
    Ok(())
}

/// Adds the line of an entry.
fn push_item(item: &Item, is_held: bool, text: &mut String) -> Result<(), AllocError> {
    text.push_str("  ")?;
    if is_failed(item) {
        text.push_str("failed ")?;
    }
    push_label(item, text)?;
    match item {
        Item::Write(write) => {
            push_range(write.offset, write.bytes.len(), text)?;
            if !is_held {
                push_counts(write, text)?;
            }
        }
        Item::Resize(len) => write!(text, " to {len}")?,
        Item::Durable { offset, bytes } => push_range(*offset, bytes.len(), text)?,
    }
    if is_held {
        text.push_str(", durable by a started sync")?;
    }
    text.push('\n')
}

/// Adds the line of a failed write.
pub(crate) fn push_failed(write: &Write, text: &mut String) -> Result<(), AllocError> {
    text.push_str("  failed write")?;
    push_range(write.offset, write.bytes.len(), text)?;
    push_counts(write, text)?;
    text.push('\n')
}

fn is_failed(item: &Item) -> bool {
    match item {
        Item::Write(write) => write.number.is_none(),
        Item::Resize(_) | Item::Durable { .. } => false,
    }
}

fn push_label(item: &Item, text: &mut String) -> Result<(), AllocError> {
    match item {
        Item::Write(write) => {
            text.push_str("write")?;
            match write.number {
                None => Ok(()),
                Some(number) => write!(text, " {number}"),
            }
        }
        Item::Resize(_) => text.push_str("resize"),
        Item::Durable { .. } => text.push_str("durable"),
    }
}

pub(crate) fn push_range(offset: u64, len: usize, text: &mut String) -> Result<(), AllocError> {
    let end = offset.saturating_add(len as u64);
    write!(text, " {offset}..{end}")
}

/// Adds how many bytes of a write had each outcome.
fn push_counts(write: &Write, text: &mut String) -> Result<(), AllocError> {
    let mut separator = ": ";
    for (fate, word) in [
        (Fate::Kept, "kept"),
        (Fate::Lost, "lost"),
        (Fate::Covered, "covered"),
    ] {
        let count = (0..write.bytes.len())
            .filter(|i| fate_of(write, *i) == fate)
            .count();
        if count > 0 {
            write!(text, "{separator}{count} {word}")?;
            separator = ", ";
        }
    }
    Ok(())
}

/// Whether an offset is in one of the holes, which are sorted.
fn is_in(holes: &[(u64, u64)], at: u64) -> bool {
    let i = holes.partition_point(|hole| hole.1 <= at);
    match holes.get(i) {
        Some(hole) => hole.0 <= at,
        None => false,
    }
}

/// Returns what became of the byte at an index of a write, by the choices of the crash.
pub(crate) fn fate_of(write: &Write, i: usize) -> Fate
    ensures kept { result ≡ Fate.Kept → choice_at write.now.kept.items i ≡ true }
    ensures lost { result ≡ Fate.Lost → choice_at write.now.kept.items i ≡ false }
{
    if is_in(&write.holes, write.offset.saturating_add(i as u64)) {
        Fate::Covered
    } else if write.kept.get(i) == Some(&true) {
        Fate::Kept
    } else {
        Fate::Lost
    }
}

/// Adds the bytes before and after, and those of each entry, where any were reached. Stripes that look alike are folded.
fn push_stripes(file: &File, after: &[u8], text: &mut String) -> Result<(), AllocError> {
    let alloc = *text.allocator();
    let loose = file.entries.get(file.held..).unwrap_or(&[]);
    let mut end = file.before.len().max(after.len()) as u64;
    let mut label = String::new(alloc);
    let mut width = 6;
    for item in loose {
        end = end.max(range_of(item).1);
        label.clear();
        push_label(item, &mut label)?;
        width = width.max(label.len());
    }
    let laid = laid_in(alloc, loose)?;
    let mut rest = laid.as_slice();
    let mut last = String::new(alloc);
    let mut next = 0;
    let mut is_folded = false;
    let mut at = 0;
    for _ in 0..end.div_ceil(STRIPE) {
        if at >= end {
            break;
        }
        let (here, later) = split_at_stripe(rest, at / STRIPE);
        let mut stripe = String::new(alloc);
        if !here.is_empty() || cut(&file.before, at) != cut(after, at) {
            push_stripe(file, loose, here, after, at, width, &mut stripe)?;
        }
        if !stripe.is_empty() && stripe == last && next == at {
            is_folded = true;
        } else {
            if is_folded {
                writeln!(text, "  and so on up to {next}")?;
            }
            is_folded = false;
            if !stripe.is_empty() {
                writeln!(text, "  at {at}")?;
                text.push_str(&stripe)?;
            }
            last = stripe;
        }
        next = at.saturating_add(STRIPE);
        if here.is_empty() {
            let alike = alike_until(&file.before, after, at, next_laid(later, end));
            is_folded = is_folded || (next < alike && !last.is_empty());
            next = next.max(alike);
        }
        rest = later;
        at = next;
    }
    if is_folded {
        writeln!(text, "  and so on up to {end}")?;
    }
    Ok(())
}

/// Returns the number of each stripe that an entry writes in, with the entry's index. Sorted.
fn laid_in(alloc: Global, loose: &[Item]) -> Result<Vec<(u64, usize)>, AllocError> {
    let mut laid = Vec::new(alloc);
    for (i, item) in loose.iter().enumerate() {
        let (start, end) = range_of(item);
        if start < end {
            for stripe in start / STRIPE..end.div_ceil(STRIPE) {
                laid.push((stripe, i))?;
            }
        }
    }
    laid.sort_unstable();
    Ok(laid)
}

/// Returns what is laid in the next stripe, if it has this number, and the rest.
fn split_at_stripe(laid: &[(u64, usize)], stripe: u64) -> (&[(u64, usize)], &[(u64, usize)]) {
    let count = laid.iter().position(|place| place.0 != stripe);
    laid.split_at(count.unwrap_or(laid.len()))
}

/// Returns where the next stripe begins that an entry writes in, at most `end`.
fn next_laid(later: &[(u64, usize)], end: u64) -> u64 {
    match later.first() {
        Some(place) => end.min(place.0.saturating_mul(STRIPE)),
        None => end,
    }
}

/// Returns where the first stripe before `limit` begins that doesn't look like the one at an offset, or the end of the last one. No
/// entry writes in these stripes.
fn alike_until(before: &[u8], after: &[u8], at: u64, limit: u64) -> u64 {
    let mut next = at.saturating_add(STRIPE);
    while next < limit {
        let width = if next.saturating_add(BLOCK) <= limit && repeats(before, after, next, BLOCK) {
            BLOCK
        } else if repeats(before, after, next, STRIPE) {
            STRIPE
        } else {
            break;
        };
        next = next.saturating_add(width);
    }
    next
}

/// Whether each stripe of the `width` bytes from an offset looks like the one before it. The offset is at least `STRIPE`.
fn repeats(before: &[u8], after: &[u8], at: u64, width: u64) -> bool {
    let last = at.saturating_sub(STRIPE);
    part(before, last, width) == part(before, at, width)
        && part(after, last, width) == part(after, at, width)
}

/// Returns the start and the end of the bytes that an entry writes.
fn range_of(item: &Item) -> (u64, u64) {
    match item {
        Item::Write(write) => (
            write.offset,
            write.offset.saturating_add(write.bytes.len() as u64),
        ),
        Item::Durable { offset, bytes } => (*offset, offset.saturating_add(bytes.len() as u64)),
        Item::Resize(_) => (0, 0),
    }
}

/// The bytes of a stripe, as many as there are.
fn cut(bytes: &[u8], at: u64) -> &[u8] {
    part(bytes, at, STRIPE)
}

/// The `width` bytes from an offset, as many as there are.
fn part(bytes: &[u8], at: u64, width: u64) -> &[u8] {
    let start = (at as usize).min(bytes.len());
    let end = start.saturating_add(width as usize).min(bytes.len());
    &bytes[start..end]
}

fn push_stripe(
    file: &File,
    loose: &[Item],
    here: &[(u64, usize)],
    after: &[u8],
    at: u64,
    width: usize,
    text: &mut String,
) -> Result<(), AllocError> {
    let mut cells = Vec::new(*text.allocator());
    push_bytes(cut(&file.before, at), &mut cells)?;
    push_row("before", width, &cells, text)?;
    let mut label = String::new(*text.allocator());
    for place in here {
        if let Some(item) = loose.get(place.1) {
            cells.clear();
            for i in 0..STRIPE {
                cells.push(cell_of(item, at.saturating_add(i)))?;
            }
            label.clear();
            push_label(item, &mut label)?;
            push_row(&label, width, &cells, text)?;
        }
    }
    cells.clear();
    push_bytes(cut(after, at), &mut cells)?;
    push_row("after", width, &cells, text)
}

fn push_bytes(bytes: &[u8], cells: &mut Vec<Cell>) -> Result<(), AllocError> {
    for byte in bytes {
        cells.push(Cell::Byte(*byte))?;
    }
    Ok(())
}

/// What an entry shows at an offset.
fn cell_of(item: &Item, at: u64) -> Cell {
    let (start, end) = range_of(item);
    if at < start || at >= end {
        return Cell::Blank;
    }
    let i = (at - start) as usize;
    match item {
        Item::Write(write) => match fate_of(write, i) {
            Fate::Kept => byte_at(&write.bytes, i),
            Fate::Lost => Cell::Mark('-'),
            Fate::Covered => Cell::Mark('='),
        },
        Item::Durable { bytes, .. } => byte_at(bytes, i),
        Item::Resize(_) => Cell::Blank,
    }
}

fn byte_at(bytes: &[u8], i: usize) -> Cell {
    match bytes.get(i) {
        Some(byte) => Cell::Byte(*byte),
        None => Cell::Blank,
    }
}
