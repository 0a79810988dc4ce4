// What a crash finds pending, file by file.
ghost use Rattle.std.specs.Prelude.{◌≡◌, All, OnOk};
ghost use Rattle.blob_draws.specs.Rows.{AreNumbered, rows_in};
ghost use Rattle.blob_model.specs.Draws.{row_of};
ghost use Rattle.blob_explain.specs.Choices.{HasChoices, HaveChoices};

use crate::bases::{Bases, Range};
use blob_base::{Durable, Error};
use blob_lab::lab::Wrapper;
use blob_memory::Origin;
use blob_pending::entries::unmarked;
use blob_pending::entry::Entry;
use blob_pending::incarnation::Incarnation;
use std::alloc::{AllocError, Global};
use std::cmp::Ordering;

/// One incarnation with something pending.
#[derive(Drop)]
pub(crate) struct File {
    pub(crate) partition: String,
    pub(crate) name: Vec<u8>,
    pub(crate) number: u64,
    /// Whether it is still its name's: nothing is left to change of one that has ended.
    pub(crate) is_current: bool,
    /// Its durable bytes when the first entry was issued that a crash goes through.
    pub(crate) before: Vec<u8>,
    /// How many entries stand before a started sync, which made them durable.
    pub(crate) held: usize,
    pub(crate) entries: Vec<Item>,
}

/// What was issued, in the order of the issue.
#[derive(Drop)]
pub(crate) enum Item {
    Write(Write),
    /// A resize that survives, to this length in bytes.
    Resize(u64),
    /// Bytes that a SYNC write or a failed write made durable.
    Durable { offset: u64, bytes: Vec<u8> },
}

/// A write that a crash may lose in part, or that failed.
#[derive(Drop)]
pub(crate) struct Write {
    /// None if the write failed.
    pub(crate) number: Option<u64>,
    pub(crate) offset: u64,
    pub(crate) bytes: Vec<u8>,
    /// The ranges of it that later durable bytes cover: start and end.
    pub(crate) holes: Vec<(u64, u64)>,
    /// One choice per byte. Empty if there was no draw.
    pub(crate) kept: Vec<bool>,
}

/// Copies of all that is pending, sorted by names. The only error is `Memory`.
pub(crate) fn pending_files(
    alloc: Global,
    wrapper: &Wrapper,
    bases: &Bases,
) -> Result<Vec<File>, Error> {
    let mut files: Vec<File> = Vec::new(alloc);
    for list in wrapper.pending() {
        if list.entries.iter().any(|entry| entry.is_left()) {
            let file = file_of(alloc, wrapper, list, bases)?;
            if !file.entries.is_empty() {
                files.push(file)?;
            }
        }
    }
    files.sort_unstable_by(|file, other| order_of(file, other));
    Ok(files)
}

/// Gives each write the choices of its row. The only error is `Memory`.
pub(crate) fn choose(
    alloc: Global,
    files: &mut [File],
    rows: &[(u64, Vec<bool>)],
) -> Result<(), Error>
    ensures { OnOk result (AreNumbered rows.now → All (HaveChoices (rows_in rows.now)) files.new) }
{
    for file in files.iter_mut() {
        choose_each(alloc, file.entries.as_mut_slice(), rows)?;
    }
    Ok(())
}

fn choose_each(alloc: Global, entries: &mut [Item], rows: &[(u64, Vec<bool>)]) -> Result<(), Error>
    ensures { OnOk result (AreNumbered rows.now → All (HasChoices (rows_in rows.now)) entries.new) }
{
    for item in entries.iter_mut() {
        choose_one(alloc, item, rows)?;
    }
    Ok(())
}

fn choose_one(alloc: Global, item: &mut Item, rows: &[(u64, Vec<bool>)]) -> Result<(), Error>
    ensures { OnOk result (AreNumbered rows.now → HasChoices (rows_in rows.now) item.new) }
{
    if let Item::Write(write) = item {
        if let Some(number) = write.number {
            write.kept = Vec::from_slice(alloc, choices_of(rows, number))?;
        }
    }
    Ok(())
}

/// Returns the choices of a write, none if it has no row. The rows are sorted by number.
fn choices_of(rows: &[(u64, Vec<bool>)], number: u64) -> &[bool]
    ensures { AreNumbered rows.now → result.now ≡ row_of (rows_in rows.now) number }
{
    let i = rows.partition_point(|row| row.0 < number);
    if i == rows.len() {
        return &[];
    }
    let row = &rows[i];
    if row.0 != number {
        return &[];
    }
    row.1.as_slice()
}

fn order_of(file: &File, other: &File) -> Ordering {
    match file.partition.cmp(&other.partition) {
        Ordering::Equal => match file.name.cmp(&other.name) {
            Ordering::Equal => file.number.cmp(&other.number),
            order => order,
        },
        order => order,
    }
}

fn file_of(
    alloc: Global,
    wrapper: &Wrapper,
    list: &Incarnation<Origin>,
    bases: &Bases,
) -> Result<File, Error> {
    let loose = unmarked(&list.entries);
    let held = list.entries.len().saturating_sub(loose.len());
    let mut file = File::new(alloc, wrapper, &list.origin)?;
    file.add_held(alloc, &list.entries, held)?;
    let ranges = file.begin(alloc, wrapper, bases)?;
    file.add_loose(alloc, loose, ranges)?;
    Ok(file)
}

/// Whether a range became durable before an entry was issued.
fn stands_before(range: &Range, item: &Item) -> bool {
    match item {
        Item::Write(write) => match (range.after, write.number) {
            (Some(last), Some(number)) => last < number,
            _ => range.after.is_none(),
        },
        Item::Resize(_) | Item::Durable { .. } => true,
    }
}

impl File {
    fn new(alloc: Global, wrapper: &Wrapper, origin: &Origin) -> Result<File, Error> {
        Ok(File {
            partition: String::from_str(alloc, origin.partition())?,
            name: Vec::from_slice(alloc, origin.name())?,
            number: origin.generation(),
            is_current: wrapper.is_current(origin),
            before: Vec::new(alloc),
            held: 0,
            entries: Vec::new(alloc),
        })
    }

    /// Adds the first entries, which a started sync made durable.
    fn add_held(&mut self, alloc: Global, entries: &[Entry], count: usize) -> Result<(), Error> {
        for entry in entries.iter().take(count) {
            if let Some(item) = item_of(alloc, entry)? {
                self.entries.push(item)?;
            }
        }
        self.held = self.entries.len();
        Ok(())
    }

    /// Sets the durable bytes before the other entries, and returns the ranges that became durable since.
    fn begin<'a>(
        &mut self,
        alloc: Global,
        wrapper: &Wrapper,
        bases: &'a Bases,
    ) -> Result<&'a [Range], Error> {
        if !self.is_current {
            return Ok(&[]);
        }
        if let Some(base) = bases.get(&self.partition, &self.name) {
            self.before = Vec::from_slice(alloc, &base.bytes)?;
            return Ok(&base.ranges);
        }
        let bytes = wrapper.inner().logical_blob(&self.partition, &self.name)?;
        self.before = bytes.unwrap_or(Vec::new(alloc));
        Ok(&[])
    }

    /// Adds the other entries, and the ranges where they belong among them.
    fn add_loose(&mut self, alloc: Global, loose: &[Entry], ranges: &[Range]) -> Result<(), Error> {
        let mut placed = 0;
        for entry in loose {
            if let Some(item) = item_of(alloc, entry)? {
                placed = self.add_ranges_before(alloc, ranges, &item, placed)?;
                self.add(item)?;
            }
        }
        for range in ranges.iter().skip(placed) {
            self.add_range(alloc, range)?;
        }
        Ok(())
    }

    /// Adds the ranges that became durable before an entry was issued. Returns how many are added by now.
    fn add_ranges_before(
        &mut self,
        alloc: Global,
        ranges: &[Range],
        item: &Item,
        placed: usize,
    ) -> Result<usize, Error> {
        let mut count = placed;
        for range in ranges.iter().skip(placed) {
            if !stands_before(range, item) {
                break;
            }
            self.add_range(alloc, range)?;
            count = count.saturating_add(1);
        }
        Ok(count)
    }

    fn add_range(&mut self, alloc: Global, range: &Range) -> Result<(), AllocError> {
        let bytes = Vec::from_slice(alloc, &range.bytes)?;
        self.add(Item::Durable {
            offset: range.offset,
            bytes,
        })
    }

    /// Adds an entry. Bytes that are durable before the first entry that a crash goes through are among those before.
    fn add(&mut self, item: Item) -> Result<(), AllocError> {
        match item {
            Item::Durable { offset, bytes } if self.is_current && self.entries.len() == self.held =>
                { overlay(&mut self.before, offset, &bytes) }
            item => {
                self.entries.push(item)?;
                Ok(())
            }
        }
    }
}

/// Writes bytes over others, which grow with zeros up to their end.
fn overlay(to: &mut Vec<u8>, offset: u64, bytes: &[u8]) -> Result<(), AllocError> {
    let start = offset as usize;
    let end = start.saturating_add(bytes.len());
    if to.len() < end {
        to.resize(end, 0)?;
    }
    for (place, byte) in to[start..].iter_mut().zip(bytes) {
        *place = *byte;
    }
    Ok(())
}

/// What a picture shows of an entry; nothing of a write that is covered whole, and of a marker.
fn item_of(alloc: Global, entry: &Entry) -> Result<Option<Item>, Error> {
    let item = match entry {
        Entry::Write(write) if !write.is_covered() => {
            let mut holes = Vec::new(alloc);
            for hole in &write.holes {
                holes.push((hole.start, hole.end))?;
            }
            Item::Write(Write {
                number: Some(write.number),
                offset: write.offset,
                bytes: write.bytes.to_vec(alloc)?,
                holes,
                kept: Vec::new(alloc),
            })
        }
        Entry::Resize(len) => Item::Resize(*len),
        Entry::Range(range) => Item::Durable {
            offset: range.offset,
            bytes: Vec::from_slice(alloc, &range.bytes)?,
        },
        Entry::Write(_) | Entry::Marker(_) | Entry::Dropped => return Ok(None),
    };
    Ok(Some(item))
}
