//! What a crash kept, in the terms of files.
use crate::byte_text::Choices;
use crate::edit_text::{edit_outcome, inode_truncated};
use crate::event::{Bytes, Event, Told};
use crate::path_text::read_path;
use crate::paths::Paths;
use blob_faulty::entry::Entry;
use blob_fs::{Crash, FileSystem, FsError};
use blob_lab::ScriptedRng;
use std::alloc::{AllocError, Global};
use std::collections::BTreeMap;

/// An edit that nothing settled.
#[derive(Drop)]
pub(crate) struct Issued {
    /// Its number, counted from the start.
    pub(crate) number: u64,
    /// Where its record begins in the journal.
    pub(crate) offset: u64,
    /// The line of its call.
    pub(crate) line: u64,
    pub(crate) words: String,
}

/// The numbers of the pending writes that a call recorded. Without a retention rate it recorded none.
#[derive(Clone, Copy)]
pub(crate) struct Numbers {
    pub(crate) first: u64,
    pub(crate) end: u64,
}

impl Numbers {
    /// Returns the number of the bytes of a write: the last.
    fn bytes(&self) -> Option<u64> {
        if self.end > self.first {
            Some(self.end.saturating_sub(1))
        } else {
            None
        }
    }
}

/// A write that no sync made durable. That of a truncation has no bytes.
#[derive(Drop)]
pub(crate) struct Unsynced {
    /// The line of its call.
    pub(crate) line: u64,
    pub(crate) offset: u64,
    pub(crate) bytes: Vec<u8>,
    pub(crate) numbers: Numbers,
}

/// A file before a crash.
#[derive(Drop)]
pub(crate) struct File {
    inode: u64,
    /// Empty if no name reaches it.
    pub(crate) path: String,
    pub(crate) size: u64,
    durable: Vec<u8>,
}

/// What must be known of a crash before it is made.
#[derive(Drop)]
pub(crate) struct Before {
    /// The files with unsynced writes or unsettled truncations.
    files: Vec<File>,
    /// The ranges of each pending write that later durable bytes cover.
    holes: BTreeMap<u64, Vec<(u64, u64)>>,
}

/// Returns the ranges of each pending write that later durable bytes cover, by the write's number.
fn holes_of(
    alloc: Global,
    fs: &FileSystem<ScriptedRng>,
) -> Result<BTreeMap<u64, Vec<(u64, u64)>>, AllocError> {
    let mut holes = BTreeMap::new(alloc);
    for list in fs.store().pending() {
        for entry in &list.entries {
            if let Entry::Write(write) = entry {
                let mut ranges = Vec::new(alloc);
                for hole in &write.holes {
                    ranges.push((hole.start, hole.end))?;
                }
                if !ranges.is_empty() {
                    holes.insert(write.number, ranges)?;
                }
            }
        }
    }
    Ok(holes)
}

fn file_of(
    alloc: Global,
    fs: &FileSystem<ScriptedRng>,
    paths: &Paths,
    inode: u64,
) -> Result<Option<File>, AllocError> {
    let durable = match fs.durable_bytes_of(inode) {
        Ok(durable) => durable,
        Err(FsError::NotFound) => return Ok(None),
        Err(_) => return Err(AllocError),
    };
    let mut path = String::new(alloc);
    paths.push_path(inode, &mut path)?;
    Ok(Some(File {
        inode,
        path,
        size: fs.size_of(inode),
        durable,
    }))
}

/// Returns the inodes of the files with unsynced writes or unsettled truncations.
fn inodes_of(
    alloc: Global,
    fs: &FileSystem<ScriptedRng>,
    writes: &BTreeMap<u64, Vec<Unsynced>>,
) -> Result<BTreeMap<u64, ()>, AllocError> {
    let mut inodes = BTreeMap::new(alloc);
    for (inode, _) in writes {
        inodes.insert(*inode, ())?;
    }
    for unsettled in fs.unsettled() {
        if let Some(inode) = inode_truncated(&unsettled.edit) {
            inodes.insert(inode, ())?;
        }
    }
    Ok(inodes)
}

impl Before {
    /// Looks at the files with unsynced writes or unsettled truncations before a crash.
    pub(crate) fn read(
        alloc: Global,
        fs: &FileSystem<ScriptedRng>,
        paths: &Paths,
        writes: &BTreeMap<u64, Vec<Unsynced>>,
    ) -> Result<Before, AllocError> {
        let mut files = Vec::new(alloc);
        for (inode, _) in &inodes_of(alloc, fs, writes)? {
            if let Some(file) = file_of(alloc, fs, paths, *inode)? {
                files.push(file)?;
            }
        }
        let holes = holes_of(alloc, fs)?;
        Ok(Before { files, holes })
    }
}

/// Returns of each record of the journal for which a crash drew whether it was kept, by where it begins.
fn kept_records(alloc: Global, crash: &Crash) -> Result<BTreeMap<u64, bool>, AllocError> {
    let mut records = BTreeMap::new(alloc);
    for (place, (_, choices)) in crash.places.iter().zip(crash.rows.rows().iter()) {
        if place.inode.is_none() {
            records.insert(place.offset, choices.first() == Some(&true))?;
        }
    }
    Ok(records)
}

/// Tells what a crash did with each edit that nothing had settled.
pub(crate) fn tell_edits(
    alloc: Global,
    crash: &Crash,
    edits: &[Issued],
    told: &mut Told,
) -> Result<(), AllocError> {
    if edits.is_empty() {
        return Ok(());
    }
    let records = kept_records(alloc, crash)?;
    told.tell(&Event::Unsettled)?;
    for (edit, is_applied) in edits.iter().zip(crash.edits.iter()) {
        let is_kept = records.get(&edit.offset).copied().unwrap_or(false);
        told.tell(&Event::Edit(edit, edit_outcome(*is_applied, is_kept)))?;
    }
    Ok(())
}

/// Appends a value to the list of an inode.
pub(crate) fn push_to<T: Drop>(
    lists: &mut BTreeMap<u64, Vec<T>>,
    alloc: Global,
    inode: u64,
    value: T,
) -> Result<(), AllocError> {
    if let Some(list) = lists.get_mut(&inode) {
        list.push(value)?;
        return Ok(());
    }
    let mut list = Vec::new(alloc);
    list.push(value)?;
    lists.insert(inode, list)?;
    Ok(())
}

/// Returns the row of each write of a file, by the write's number.
fn rows_of_files(alloc: Global, crash: &Crash) -> Result<BTreeMap<u64, usize>, AllocError> {
    let mut rows = BTreeMap::new(alloc);
    for (i, (place, (number, _))) in crash
        .places
        .iter()
        .zip(crash.rows.rows().iter())
        .enumerate()
    {
        if place.inode.is_some() {
            rows.insert(*number, i)?;
        }
    }
    Ok(rows)
}

/// Returns what a crash chose for the bytes of a pending write. `None` if it didn't draw for it.
fn choices_of<'a>(
    crash: &'a Crash,
    before: &'a Before,
    rows: &BTreeMap<u64, usize>,
    number: Option<u64>,
) -> Option<Choices<'a>> {
    let number = number?;
    let row = rows.get(&number).copied()?;
    let place = crash.places.get(row)?;
    let (_, choices) = crash.rows.rows().get(row)?;
    let covered: &[(u64, u64)] = match before.holes.get(&number) {
        None => &[],
        Some(holes) => holes,
    };
    Some(Choices {
        kept: choices.as_slice(),
        covered,
        offset: place.offset,
    })
}

/// Returns whether bytes were durable at an offset.
fn is_durable(durable: &[u8], offset: u64, bytes: &[u8]) -> bool {
    let Some(end) = offset.checked_add(bytes.len() as u64) else {
        return false;
    };
    if end > durable.len() as u64 {
        return false;
    }
    durable.get(offset as usize..end as usize) == Some(bytes)
}

/// Tells what a crash did with the zeros that a call wrote before the bytes of a write, or for a truncation.
fn tell_zeros(
    before: &Before,
    path: &str,
    write: &Unsynced,
    crash: &Crash,
    rows: &BTreeMap<u64, usize>,
    told: &mut Told,
) -> Result<(), AllocError> {
    let bytes = write.numbers.bytes();
    for number in write.numbers.first..write.numbers.end {
        if bytes == Some(number) && !write.bytes.is_empty() {
            continue;
        }
        let Some(choices) = choices_of(crash, before, rows, Some(number)) else {
            continue;
        };
        told.tell(&Event::Bytes(Bytes {
            path,
            line: write.line,
            are_zeros: true,
            start: choices.offset,
            end: choices.offset.saturating_add(choices.kept.len() as u64),
            choices: Some(choices),
        }))?;
    }
    Ok(())
}

/// Tells what a crash did with the bytes of a write, unless they were durable before.
fn tell_write(
    before: &Before,
    (file, path): (&File, &str),
    write: &Unsynced,
    crash: &Crash,
    rows: &BTreeMap<u64, usize>,
    told: &mut Told,
) -> Result<(), AllocError> {
    let choices = choices_of(crash, before, rows, write.numbers.bytes());
    if write.bytes.is_empty()
        || (choices.is_none() && is_durable(&file.durable, write.offset, &write.bytes))
    {
        return Ok(());
    }
    told.tell(&Event::Bytes(Bytes {
        path,
        line: write.line,
        are_zeros: false,
        start: write.offset,
        end: write.offset.saturating_add(write.bytes.len() as u64),
        choices,
    }))
}

/// Tells what a crash did with a file's writes.
fn tell_writes(
    crash: &Crash,
    before: &Before,
    (file, path): (&File, &str),
    writes: &[Unsynced],
    rows: &BTreeMap<u64, usize>,
    told: &mut Told,
) -> Result<(), AllocError> {
    for write in writes {
        tell_zeros(before, path, write, crash, rows, told)?;
        tell_write(before, (file, path), write, crash, rows, told)?;
    }
    Ok(())
}

/// Returns the path of a file after a crash: the one before it if the crash kept that, or else its first one.
fn path_after(
    alloc: Global,
    fs: &FileSystem<ScriptedRng>,
    paths: &Paths,
    file: &File,
) -> Result<Option<String>, AllocError> {
    let Ok(was) = read_path(alloc, &file.path) else {
        return Err(AllocError);
    };
    let mut path = String::new(alloc);
    match fs.find(&was) {
        Ok(binding) if binding.inode == file.inode => path.push_str(&file.path)?,
        Err(FsError::Store(_)) => return Err(AllocError),
        _ => {
            if !paths.push_path(file.inode, &mut path)? {
                return Ok(None);
            }
        }
    }
    Ok(Some(path))
}

/// Tells what a crash did with the writes of each file. `paths` are those after the crash.
pub(crate) fn tell_files(
    alloc: Global,
    fs: &FileSystem<ScriptedRng>,
    crash: &Crash,
    before: &Before,
    paths: &Paths,
    writes: &BTreeMap<u64, Vec<Unsynced>>,
    told: &mut Told,
) -> Result<(), AllocError> {
    let rows = rows_of_files(alloc, crash)?;
    for file in &before.files {
        let Some(path) = path_after(alloc, fs, paths, file)? else {
            if !file.path.is_empty() {
                told.tell(&Event::Removed(file))?;
            }
            continue;
        };
        let of_file: &[Unsynced] = match writes.get(&file.inode) {
            None => &[],
            Some(writes) => writes,
        };
        let mut of_writes = told.again();
        tell_writes(crash, before, (file, &path), of_file, &rows, &mut of_writes)?;
        let size = fs.size_of(file.inode);
        if !of_writes.text.is_empty() || size != file.size {
            let path = path.as_str();
            told.tell(&Event::Found { file, path, size })?;
            told.add(&of_writes)?;
        }
    }
    Ok(())
}
