//! The edits that a crash may lose, and which of them a sync settles.
ghost use Rattle.std.specs.Prelude.{◌≡◌, false, map, OnErr, OnOk};
ghost use Rattle.blob_directory.specs.Syncs.{Marks, is_in, is_number, is_of, is_one_of, is_settled_in, makes, marked, moved_into, of_name, of_truncation, touches, unbound};

use crate::edit::Edit;
use crate::profile::Settles;
use crate::wanted::choose;
use std::alloc::{AllocError, Global};

/// An edit that nothing settled.
#[derive(Drop)]
pub struct Unsettled {
    pub edit: Edit,
    /// The number of its record in the journal.
    pub record: u64,
    /// Where its record begins in the journal, in bytes.
    pub offset: u64,
    /// Its number, counted from the start of the file system.
    pub number: u64,
    pub about: About,
    /// A sync settles it.
    pub is_wanted: bool,
    /// A sync left it unsettled.
    pub is_seen: bool,
    /// It frees a name that the log of the syncs has.
    pub is_followed: bool,
}

/// What an edit is about: one inode or two, and the directories of its names. A truncation is about its file, in the file's
/// own number.
#[derive(Clone, Copy)]
pub struct About {
    pub inode: u64,
    pub other: Option<u64>,
    pub directory: u64,
    pub other_directory: Option<u64>,
    /// Moves a file from `directory` to `other_directory`, which may be the same.
    pub moves_file: bool,
}

impl Unsettled {
    /// Returns whether the edit makes this directory, or gives this file a name.
    pub(crate) fn makes(&self, inode: u64) -> bool
        ensures { result ≡ makes inode self.now }
    {
        self.about.is_one_of(inode) && self.edit.is_binding()
    }

    /// Notes that a sync has seen the edit and doesn't want it.
    pub(crate) fn pass_over(&mut self)
        ensures { self.new ≡ marked (λ _. false) self.old }
    {
        self.is_wanted = false;
        self.is_seen = true;
    }

    fn note_bound(&mut self, directory: u64)
        ensures { self.new ≡ unbound directory self.old }
    {
        if self.about.moved_into(directory) {
            self.about.other_directory = None;
        }
    }
}

/// Notes that the new name of each file that moved into this directory has an edit of its own. The moves are then in the old directory alone.
pub fn note_bound(edits: &mut [Unsettled], directory: u64)
    ensures { edits.new ≡ map (unbound directory) edits.old }
{
    for edit in edits.iter_mut() {
        edit.note_bound(directory);
    }
}

fn is_number(other: Option<u64>, number: u64) -> bool
    ensures { result ≡ is_number other number }
{
    match other {
        None => false,
        Some(other) => other == number,
    }
}

impl About {
    /// Returns what the edit of a truncation of a file is about.
    pub fn of_truncation(inode: u64) -> About
        ensures { result ≡ of_truncation inode }
    {
        About {
            inode,
            other: None,
            directory: inode,
            other_directory: None,
            moves_file: false,
        }
    }

    /// Returns what the edit of one name of an inode in a directory is about.
    pub fn of_name(inode: u64, directory: u64) -> About
        ensures { result ≡ of_name inode directory }
    {
        About {
            inode,
            other: None,
            directory,
            other_directory: None,
            moves_file: false,
        }
    }

    /// Returns whether the edit moves a file into a directory from another one.
    pub fn moved_into(&self, directory: u64) -> bool
        ensures { result ≡ moved_into directory self.now }
    {
        let is_new = is_number(self.other_directory, directory);
        self.moves_file && is_new && self.directory != directory
    }

    /// Returns whether a sync of a directory by `Settles::Names` settles the edit for its names. The move of a file to another
    /// directory is settled by a sync of the old one.
    pub(crate) fn is_settled_in(&self, directory: u64) -> bool
        ensures { result ≡ is_settled_in directory self.now }
    {
        self.is_in(directory) && !self.moved_into(directory)
    }

    /// Returns whether the edit changes a name of an inode, or truncates it.
    pub(crate) fn is_of(&self, inode: u64) -> bool
        ensures { result ≡ is_of inode self.now }
    {
        self.inode == inode || is_number(self.other, inode)
    }

    /// Returns whether the edit changes a name in a directory, or truncates the file of this number.
    pub(crate) fn is_in(&self, directory: u64) -> bool
        ensures { result ≡ is_in directory self.now }
    {
        self.directory == directory || is_number(self.other_directory, directory)
    }

    /// Returns whether it does one or the other. `alone` leaves out exchanges of two names.
    pub(crate) fn touches(&self, alone: bool, number: u64) -> bool
        ensures { result ≡ touches alone number self.now }
    {
        (self.is_of(number) || self.is_in(number)) && !(alone && self.other.is_some())
    }

    /// Returns whether the edit binds or frees one name of an inode.
    pub(crate) fn is_one_of(&self, number: u64) -> bool
        ensures { result ≡ is_one_of number self.now }
    {
        self.inode == number && !(self.other.is_some() || self.other_directory.is_some())
    }
}

/// What is synced.
#[derive(Clone, Copy)]
pub enum Synced {
    /// A file, with the number of the next edit after its size last changed.
    File { inode: u64, sized: u64 },
    /// A file's data alone, with the same number.
    Data { inode: u64, sized: u64 },
    Directory(u64),
}

/// Marks the edits that a sync settles, and no other, and all as seen by a sync. Fails only if memory runs out, and then marks none.
pub fn want(
    alloc: Global,
    edits: &mut [Unsettled],
    settles: Settles,
    synced: Synced,
) -> Result<(), AllocError>
    ensures marks { OnOk result (Marks settles synced edits.old edits.new) }
    ensures refused { OnErr result (edits.new ≡ edits.old) }
{
    let wanted = choose(alloc, edits, settles, synced)?;
    for edit in edits.iter_mut() {
        edit.is_wanted = wanted.has(edit);
        edit.is_seen = true;
    }
    Ok(())
}
