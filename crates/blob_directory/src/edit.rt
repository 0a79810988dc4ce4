//! Edits of names.
ghost use Rattle.std.specs.Prelude.{◌≡◌, ◌≤◌, true, [], ◌∷◌, length, option_map, IfOk, IfSome};
ghost use Rattle.blob_directory.specs.Names.{binds_any, change_of, changed, edit_of, edited, entry, exchanges, is_binding, moves, new_name, resizes};
ghost use Rattle.blob_directory.specs.Records.{Fits, FitsRecord, change_bytes};

use crate::record::inode_told;
use std::alloc::{AllocError, Global};

/// What a number is that a name is bound to.
#[derive(Clone, Copy, Debug, PartialEq, Eq)]
pub enum Kind {
    File,
    Directory,
}

/// What a name is bound to: the number of an inode, and what it is.
#[derive(Clone, Copy, Debug, PartialEq, Eq)]
pub struct Binding {
    pub inode: u64,
    pub kind: Kind,
}

/// A new binding of one name, or none: the name is freed.
///
/// An entry is a name in a directory: the directory's number in eight bytes, the high one first, and the name.
#[derive(Debug, Drop)]
pub struct Change {
    pub entry: Vec<u8>,
    pub to: Option<Binding>,
}

/// A change of one name, or of two in one step.
#[derive(Debug, Drop)]
pub struct Edit {
    pub first: Change,
    pub second: Option<Change>,
}

/// How many bytes the changes of an edit may take.
pub(crate) const LONGEST: usize = 1024;

/// How many bytes a change takes without its entry: those of the entry's length, the kind and the inode.
const OVERHEAD: usize = 17;

impl Change {
    /// Returns what an entry is bound to after the change, if it was bound to this.
    fn apply(&self, was: Option<Binding>, entry: &[u8]) -> Option<Binding>
        ensures { result ≡ changed (λ _. was) (change_of self.now) entry.now }
    {
        if self.entry[..] == entry[..] {
            self.to
        } else {
            was
        }
    }

    /// Returns how many bytes of a record the change takes. `None` if its entry is empty or too long.
    fn size(&self) -> Option<usize>
        ensures fits { IfSome result (λ _. Fits (change_of self.now)) }
        ensures size { IfSome result (λ size. size ≡ length (change_bytes (change_of self.now))) }
        ensures short { IfSome result (λ size. size ≤ 1024) }
    {
        let entry = self.entry.len();
        if entry == 0 || entry > LONGEST - OVERHEAD {
            return None;
        }
        // as a number of 64 bits, which the proof has to know
        let _inode = inode_told(self.to);
        Some(OVERHEAD + entry)
    }
}

impl Edit {
    /// Returns the edit that changes one name.
    pub fn one(entry: Vec<u8>, to: Option<Binding>) -> Edit
        ensures { edit_of result ≡ (entry.items, to) ∷ [] }
    {
        Edit {
            first: Change { entry, to },
            second: None,
        }
    }

    /// Returns the edit that changes two names in one step.
    pub fn two(first: Change, second: Change) -> Edit
        ensures { edit_of result ≡ change_of first ∷ change_of second ∷ [] }
    {
        Edit {
            first,
            second: Some(second),
        }
    }

    /// Returns the edit that frees one name and gives its binding to another, in one step.
    pub fn moving(from: Vec<u8>, to: Vec<u8>, moved: Binding) -> Edit
        ensures { edit_of result ≡ moves from.items to.items moved }
    {
        let freed = Change {
            entry: from,
            to: None,
        };
        let bound = Change {
            entry: to,
            to: Some(moved),
        };
        Edit::two(freed, bound)
    }

    /// Returns the edit that exchanges the bindings of two names, in one step. The first has `moved`.
    pub fn exchanging(from: Vec<u8>, to: Vec<u8>, moved: Binding, was: Binding) -> Edit
        ensures { edit_of result ≡ exchanges from.items to.items moved was }
    {
        let first = Change {
            entry: from,
            to: Some(was),
        };
        let second = Change {
            entry: to,
            to: Some(moved),
        };
        Edit::two(first, second)
    }

    /// Returns what an entry is bound to after the edit, if it was bound to this.
    pub(crate) fn apply(&self, was: Option<Binding>, entry: &[u8]) -> Option<Binding>
        ensures { result ≡ edited (λ _. was) (edit_of self.now) entry.now }
    {
        let to = self.first.apply(was, entry);
        match &self.second {
            None => to,
            Some(second) => second.apply(to, entry),
        }
    }

    /// Returns whether the edit binds a name, and not only frees some.
    pub fn binds_any(&self) -> bool
        ensures { result ≡ binds_any (edit_of self.now) }
    {
        match &self.second {
            None => self.first.to.is_some(),
            Some(second) => self.first.to.is_some() || second.to.is_some(),
        }
    }

    /// Returns whether the edit binds the first name that it changes. Otherwise it frees that.
    pub fn is_binding(&self) -> bool
        ensures { result ≡ is_binding (edit_of self.now) }
    {
        self.first.to.is_some()
    }

    /// Returns the second name that the edit changes, with what it binds that to. `None` if it frees the name, or changes one name. Fails
    /// only if memory runs out.
    pub fn new_name(&self, alloc: Global) -> Result<Option<(Vec<u8>, Binding)>, AllocError>
        ensures { IfOk result (λ name. option_map (λ n. (n.0.items, n.1)) name ≡ new_name (edit_of self.now)) }
    {
        let Some(second) = &self.second else {
            return Ok(None);
        };
        let Some(to) = second.to else {
            return Ok(None);
        };
        Ok(Some((Vec::from_slice(alloc, &second.entry)?, to)))
    }

    /// Returns whether the edit fits in a record, and no entry of it is empty.
    pub fn fits(&self) -> bool
        ensures { result ≡ true → FitsRecord (edit_of self.now) }
    {
        let Some(first) = self.first.size() else {
            return false;
        };
        let Some(second) = &self.second else {
            return true;
        };
        let Some(second) = second.size() else {
            return false;
        };
        first + second <= LONGEST
    }
}

/// Returns the edit of a truncation of a file. It changes no name: it frees the entry of the file's number with an empty
/// name. Fails only if memory runs out.
pub fn truncation_of(alloc: Global, inode: u64) -> Result<Edit, AllocError>
    ensures { IfOk result (λ edit. edit_of edit ≡ resizes inode) }
{
    let entry = entry_of(alloc, inode, &[])?;
    Ok(Edit::one(entry, None))
}

/// Returns the entry of a name in a directory. Fails only if memory runs out.
pub fn entry_of(alloc: Global, directory: u64, name: &[u8]) -> Result<Vec<u8>, AllocError>
    ensures { IfOk result (λ e. e.items ≡ entry directory name.now) }
{
    let mut entry = Vec::with_capacity(alloc, name.len().saturating_add(8))?;
    entry.extend_from_slice(&directory.to_be_bytes())?;
    entry.extend_from_slice(name)?;
    Ok(entry)
}
