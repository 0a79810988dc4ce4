//! Which edits a sync settles, as a test.
ghost use Rattle.std.specs.Prelude.{◌≡◌, ◌&&◌, ℕ, IfOk, OnOk};
ghost use Rattle.std.specs.List.{Contains};
ghost use Rattle.blob_directory.specs.Syncs.{Upward, Wants, is_new, leaves, named};
ghost use Rattle.blob_directory.specs.Wanted.{HasAbove, HasDirectories, HasToo, HasWhen, IsLast, is_up_to, is_upward, makes_any, wants};

use crate::edit::{Binding, Change};
use crate::profile::Settles;
use crate::unsettled::{Synced, Unsettled};
use std::alloc::{AllocError, Global};

/// The edits that a sync settles.
#[derive(Drop)]
pub(crate) enum Wanted {
    All,
    /// Those in a directory, or in a file's own number.
    In(u64),
    /// Those of an inode, and those that make these directories.
    Of(u64, Vec<u64>),
    /// Those of a directory, those that make these ones, and those in it but for files that moved into it.
    OfOrIn(u64, Vec<u64>),
    /// Those up to a number, and those below another.
    UpTo(Option<u64>, u64),
}

fn makes_any(inodes: &[u64], edit: &Unsettled) -> bool
    ensures { result ≡ makes_any inodes.now edit.now }
{
    for inode in inodes {
        if edit.makes(*inode) {
            return true;
        }
    }
    false
}

fn is_upward(inode: u64, above: &[u64], edit: &Unsettled) -> bool
    ensures { result ≡ is_upward inode above.now edit.now }
{
    edit.about.is_of(inode) || makes_any(above, edit)
}

/// Returns whether a number is at most the last one. If there is none, it isn't.
pub(crate) fn is_up_to(last: Option<u64>, number: u64) -> bool
    ensures { result ≡ is_up_to last number }
{
    match last {
        None => false,
        Some(last) => number <= last,
    }
}

impl Wanted {
    /// Returns whether the sync settles an edit.
    pub(crate) fn has(&self, edit: &Unsettled) -> bool
        ensures { result ≡ wants self.now edit.now }
    {
        let about = &edit.about;
        match self {
            Wanted::All => true,
            Wanted::In(directory) => about.is_in(*directory),
            Wanted::Of(inode, above) => is_upward(*inode, above, edit),
            Wanted::OfOrIn(directory, above) => {
                is_upward(*directory, above, edit) || about.is_settled_in(*directory)
            }
            Wanted::UpTo(last, below) => is_up_to(*last, edit.number) || edit.number < *below,
        }
    }
}

/// Appends a number unless the list has it. Fails only if memory runs out.
fn add(numbers: &mut Vec<u64>, number: u64) -> Result<(), AllocError>
    ensures { OnOk result (HasToo numbers.old.items number numbers.new.items) }
{
    for other in numbers.iter() {
        if *other == number {
            return Ok(());
        }
    }
    numbers.push(number)?;
    Ok(())
}

/// Returns whether one of these edits makes a directory.
fn is_new(edits: &[Unsettled], directory: u64) -> bool
    ensures { result ≡ is_new edits.now directory }
{
    for edit in edits {
        if edit.makes(directory) {
            return true;
        }
    }
    false
}

/// Returns what these edits alone bind an entry to.
fn named(edits: &[Unsettled], entry: &[u8]) -> Option<Binding>
    ensures { result ≡ named edits.now entry.now }
{
    let mut to = None;
    for edit in edits {
        to = edit.edit.apply(to, entry);
    }
    to
}

/// Returns whether these edits leave the name of a change to an inode.
fn leaves(edits: &[Unsettled], inode: u64, change: &Change) -> bool
    ensures { result ≡ leaves edits.now inode change.now }
{
    match named(edits, &change.entry) {
        None => false,
        Some(to) => to.inode == inode,
    }
}

/// Appends the directory of a change if one of these edits makes it and they leave the name to the inode, unless the list has it. Fails
/// only if memory runs out.
fn add_new(
    numbers: &mut Vec<u64>,
    edits: &[Unsettled],
    inode: u64,
    change: &Change,
    directory: u64,
) -> Result<(), AllocError>
    ensures { OnOk result (HasWhen (leaves edits.now inode change.now && is_new edits.now directory) numbers.old.items directory numbers.new.items) }
{
    if leaves(edits, inode, change) && is_new(edits, directory) {
        return add(numbers, directory);
    }
    Ok(())
}

/// Appends the new directories of an edit in which it changes a name that the inode still has. Fails only if memory runs out.
fn add_directories(
    numbers: &mut Vec<u64>,
    edits: &[Unsettled],
    inode: u64,
    edit: &Unsettled,
) -> Result<(), AllocError>
    ensures { OnOk result (HasDirectories edits.now inode edit.now numbers.old.items numbers.new.items) }
{
    add_new(
        numbers,
        edits,
        inode,
        &edit.edit.first,
        edit.about.directory,
    )?;
    match edit.about.other_directory {
        None => Ok(()),
        Some(other) => match &edit.edit.second {
            None => Ok(()),
            Some(second) => add_new(numbers, edits, inode, second, other),
        },
    }
}

/// Appends the new directories in which an inode has a name by these edits. Fails only if memory runs out.
fn add_above(numbers: &mut Vec<u64>, edits: &[Unsettled], inode: u64) -> Result<(), AllocError>
    ensures { OnOk result (HasAbove edits.now edits.now inode numbers.old.items numbers.new.items) }
{
    for edit in edits {
        if edit.about.is_of(inode) {
            add_directories(numbers, edits, inode, edit)?;
        }
    }
    Ok(())
}

/// Returns an inode and, upward, the new directories in which it has a name by these edits. Fails only if memory runs out.
fn upward(alloc: Global, edits: &[Unsettled], inode: u64) -> Result<Vec<u64>, AllocError>
    ensures only { IfOk result (λ found. (i : ℕ) → Contains found.items i → Upward edits.now inode i) }
    ensures all { IfOk result (λ found. (i : ℕ) → Upward edits.now inode i → Contains found.items i) }
{
    let mut found = Vec::new(alloc);
    found.push(inode)?;
    // the list has each number once, so memory has run out before the last turn
    for at in 0..u64::MAX {
        let at = at as usize;
        if at >= found.len() {
            return Ok(found);
        }
        let inode = found[at];
        add_above(&mut found, edits, inode)?;
    }
    Err(AllocError)
}

/// Returns the number of the last edit of an inode, or in a directory. `None` if there is none. `alone` leaves out exchanges.
fn last_of(edits: &[Unsettled], alone: bool, number: u64) -> Option<u64>
    ensures { IsLast edits.now alone number result }
{
    let mut last = None;
    for edit in edits {
        if edit.about.touches(alone, number) && !is_up_to(last, edit.number) {
            last = Some(edit.number);
        }
    }
    last
}

/// Returns which edits a sync settles. Fails only if memory runs out.
pub(crate) fn choose(
    alloc: Global,
    edits: &[Unsettled],
    settles: Settles,
    synced: Synced,
) -> Result<Wanted, AllocError>
    ensures { IfOk result (λ wanted. Wants settles synced edits.now (wants wanted)) }
{
    match (settles, synced) {
        (Settles::All, _) => Ok(Wanted::All),
        (Settles::Own, Synced::File { inode, .. }) => Ok(Wanted::In(inode)),
        (Settles::Own, Synced::Data { inode, .. }) => Ok(Wanted::In(inode)),
        (Settles::Own, Synced::Directory(directory)) => Ok(Wanted::In(directory)),
        (Settles::Names, Synced::File { inode, .. }) => {
            let above = upward(alloc, edits, inode)?;
            Ok(Wanted::Of(inode, above))
        }
        (Settles::Names, Synced::Data { inode, .. }) => {
            let above = upward(alloc, edits, inode)?;
            Ok(Wanted::Of(inode, above))
        }
        (Settles::Names, Synced::Directory(directory)) => {
            let above = upward(alloc, edits, directory)?;
            Ok(Wanted::OfOrIn(directory, above))
        }
        (Settles::UpToLast, Synced::File { inode, sized }) => {
            Ok(Wanted::UpTo(last_of(edits, false, inode), sized))
        }
        (Settles::UpToLast, Synced::Data { inode, sized }) => {
            Ok(Wanted::UpTo(last_of(edits, true, inode), sized))
        }
        (Settles::UpToLast, Synced::Directory(directory)) => {
            Ok(Wanted::UpTo(last_of(edits, false, directory), 0))
        }
        (Settles::UpToLastOrSize, Synced::File { inode, sized }) => {
            Ok(Wanted::UpTo(last_of(edits, false, inode), sized))
        }
        (Settles::UpToLastOrSize, Synced::Data { sized, .. }) => Ok(Wanted::UpTo(None, sized)),
        (Settles::UpToLastOrSize, Synced::Directory(_)) => Ok(Wanted::All),
    }
}
