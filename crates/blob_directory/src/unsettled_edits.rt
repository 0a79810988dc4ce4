//! The list of the edits that nothing settled, with an index of what they are about.
ghost use Rattle.std.specs.Prelude.{◌≡◌, ◌≤◌, ◌++◌, ◌∷◌, [], false, true, drop, filter, length, map, take, IfOk, OnErr, OnOk};
ghost use Rattle.std.specs.List.{list_all};
ghost use Rattle.blob_directory.specs.Copies.{AreCopies};
ghost use Rattle.blob_directory.specs.Syncs.{Marks, marked, unbound};
ghost use Rattle.blob_directory.specs.Indexes.{KeepsAll, about_any, decisive, has_about, has_other, is_indexed, is_noted, number_of, unwanted};

use crate::profile::Settles;
use crate::unsettled::{About, Synced, Unsettled, note_bound, want};
use std::alloc::{AllocError, Global};
use std::collections::BTreeSet;

/// From how many edits on a sync looks into the index before it walks over them.
const MANY: usize = 64;

/// The edits that nothing settled, in the order of their calls.
///
/// If there are many, a sync of a file or a directory that none of them is about doesn't walk over them. It puts those that are new
/// since the last such sync into an index.
#[derive(Drop)]
pub struct UnsettledEdits {
    alloc: Global,
    edits: Vec<Unsettled>,
    /// The inodes and directories that the first `indexed` edits are about, and maybe others.
    index: BTreeSet<u64>,
    indexed: usize,
    /// A sync has seen the first `noted` edits, and wants none of them.
    noted: usize,
    ghost indexed_within: { indexed ≤ length edits.items },
    ghost noted_within: { noted ≤ length edits.items },
    ghost are_indexed: { list_all (is_indexed index) (take indexed edits.items) ≡ true },
    ghost are_noted: { list_all is_noted (take noted edits.items) ≡ true },
}

fn number_of(synced: Synced) -> u64
    ensures { result ≡ number_of synced }
{
    match synced {
        Synced::File { inode, .. } => inode,
        Synced::Data { inode, .. } => inode,
        Synced::Directory(directory) => directory,
    }
}

/// Returns the number without which a sync settles nothing: none of the edits is about it. `None` if no number decides that.
fn decisive(settles: Settles, synced: Synced) -> Option<u64>
    ensures { result ≡ decisive settles synced }
{
    match settles {
        Settles::Own => Some(number_of(synced)),
        Settles::Names => Some(number_of(synced)),
        Settles::UpToLast => None,
        Settles::UpToLastOrSize => None,
        Settles::All => None,
    }
}

/// Puts a number into an index, if there is one. The only error is out of memory.
fn add_other(index: &mut BTreeSet<u64>, number: Option<u64>) -> Result<(), AllocError>
    ensures keeps { KeepsAll index.old index.new }
    ensures added { OnOk result (has_other index.new number ≡ true) }
{
    if let Some(number) = number {
        index.insert(number)?;
    }
    Ok(())
}

/// Puts what an edit is about into an index. The only error is out of memory.
fn add_about(index: &mut BTreeSet<u64>, about: &About) -> Result<(), AllocError>
    ensures keeps { KeepsAll index.old index.new }
    ensures added { OnOk result (has_about index.new about.now ≡ true) }
{
    add_other(index, Some(about.inode))?;
    add_other(index, Some(about.directory))?;
    add_other(index, about.other)?;
    add_other(index, about.other_directory)
}

/// Puts what these edits are about into an index. The only error is out of memory.
fn add_all(index: &mut BTreeSet<u64>, edits: &[Unsettled]) -> Result<(), AllocError>
    ensures keeps { KeepsAll index.old index.new }
    ensures added { OnOk result (list_all (is_indexed index.new) edits.now ≡ true) }
{
    for edit in edits {
        add_about(index, &edit.about)?;
    }
    Ok(())
}

/// Returns whether one of these edits is about an inode or a directory.
fn about_any(edits: &[Unsettled], number: u64) -> bool
    ensures { result ≡ about_any number edits.now }
{
    for edit in edits {
        if edit.about.touches(false, number) {
            return true;
        }
    }
    false
}

/// Notes of the edits from an index on that a sync has seen them and wants none. Of those before it that is noted.
fn pass_over(edits: &mut [Unsettled], from: usize)
    requires within { from ≤ length edits.old }
    requires noted { list_all is_noted (take from edits.old) ≡ true }
    ensures { edits.new ≡ map (marked (λ _. false)) edits.old }
{
    for at in from..edits.len() {
        edits[at].pass_over();
    }
}

impl UnsettledEdits {
    ghost use Rattle.blob_directory.specs.UnsettledEdits.{HasSpace, edits_listed};

    /// Returns a list without edits. Doesn't allocate.
    pub fn new(alloc: Global) -> UnsettledEdits
        ensures { edits_listed result ≡ [] }
    {
        UnsettledEdits {
            alloc,
            edits: Vec::new(alloc),
            index: BTreeSet::new(alloc),
            indexed: 0,
            noted: 0,
        }
    }

    /// Returns a copy of the edits. The only error is out of memory.
    pub fn copy(&self) -> Result<UnsettledEdits, AllocError>
        ensures { IfOk result (λ copy. AreCopies (edits_listed self.now) (edits_listed copy)) }
    {
        let edits = self.edits.clone()?;
        Ok(UnsettledEdits {
            alloc: self.alloc,
            edits,
            index: BTreeSet::new(self.alloc),
            indexed: 0,
            noted: 0,
        })
    }

    /// Returns the edits.
    pub fn as_slice(&self) -> &[Unsettled]
        ensures { result.now ≡ edits_listed self.now }
    {
        &self.edits
    }

    /// Reserves space for one more edit. The only error is out of memory.
    pub fn reserve(&mut self) -> Result<(), AllocError>
        ensures items { edits_listed self.new ≡ edits_listed self.old }
        ensures ok { OnOk result (HasSpace self.new) }
    {
        self.edits.reserve(1)
    }

    /// Appends an edit.
    pub fn push_reserved(&mut self, edit: Unsettled)
        requires { HasSpace self.old }
        ensures items { edits_listed self.new ≡ edits_listed self.old ++ edit ∷ [] }
    {
        self.edits.push_reserved(edit);
    }

    /// Drops all edits.
    pub fn clear(&mut self)
        ensures { edits_listed self.new ≡ [] }
    {
        self.edits.clear();
        self.index = BTreeSet::new(self.alloc);
        self.indexed = 0;
        self.noted = 0;
    }

    /// Notes that the new name of each file that moved into this directory has an edit of its own. The moves are then in the old
    /// directory alone.
    pub fn note_bound(&mut self, directory: u64)
        ensures { edits_listed self.new ≡ map (unbound directory) (edits_listed self.old) }
    {
        note_bound(&mut self.edits, directory);
    }

    /// Returns whether a sync of an inode or a directory has to look at each edit, since one of them is about it or there are few. The
    /// only error is out of memory. No edit changes.
    pub fn concerns(&mut self, number: u64) -> Result<bool, AllocError>
        ensures none { IfOk result (λ some. some ≡ false → about_any number (edits_listed self.old) ≡ false) }
        ensures same { edits_listed self.new ≡ edits_listed self.old }
    {
        if self.edits.len() < MANY {
            return Ok(true);
        }
        add_all(&mut self.index, &self.edits[self.indexed..])?;
        self.indexed = self.edits.len();
        if !self.index.contains(&number) {
            return Ok(false);
        }
        if about_any(&self.edits, number) {
            return Ok(true);
        }
        self.index.remove(&number);
        Ok(false)
    }

    /// Notes that a sync has seen the edits and wants none.
    fn pass_over(&mut self)
        ensures { edits_listed self.new ≡ map (marked (λ _. false)) (edits_listed self.old) }
    {
        pass_over(&mut self.edits, self.noted);
        self.noted = self.edits.len();
    }

    /// Marks the edits that a sync settles, and no other, and all as seen by a sync. Returns whether one may be marked. The only error is
    /// out of memory, and then none is marked.
    pub fn want(&mut self, settles: Settles, synced: Synced) -> Result<bool, AllocError>
        ensures marks { OnOk result (Marks settles synced (edits_listed self.old) (edits_listed self.new)) }
        ensures none { IfOk result (λ some. some ≡ false → list_all unwanted (edits_listed self.new) ≡ true) }
        ensures refused { OnErr result (edits_listed self.new ≡ edits_listed self.old) }
    {
        if let Some(number) = decisive(settles, synced) {
            if !self.concerns(number)? {
                self.pass_over();
                return Ok(false);
            }
        }
        self.mark(settles, synced)?;
        Ok(true)
    }

    /// Marks the edits that a sync settles, and looks at each.
    fn mark(&mut self, settles: Settles, synced: Synced) -> Result<(), AllocError>
        ensures marks { OnOk result (Marks settles synced (edits_listed self.old) (edits_listed self.new)) }
        ensures refused { OnErr result (edits_listed self.new ≡ edits_listed self.old) }
    {
        self.noted = 0;
        want(self.alloc, &mut self.edits, settles, synced)?;
        Ok(())
    }

    /// Drops the marked edits.
    pub fn drop_wanted(&mut self)
        ensures { edits_listed self.new ≡ filter unwanted (edits_listed self.old) }
    {
        let is_indexed = self.indexed == self.edits.len();
        self.edits.retain(|edit| !edit.is_wanted);
        self.indexed = if is_indexed { self.edits.len() } else { 0 };
        self.noted = 0;
    }
}
