//! The names of all directories, as a table of entries.
ghost use Rattle.std.specs.Prelude.{◌≡◌, ◌&&◌, is_none, is_some, None, Some, IfOk, OnOk, OnErr, false, true};
ghost use Rattle.blob_directory.specs.Logs.{frees_any};
ghost use Rattle.blob_directory.specs.Names.{Same, change_of, changed, edit_of, edited, entry};
ghost use Rattle.blob_directory.specs.Tables.{HasAll, HasNoName, HasOnly, HasRoom, HasRoomAlone, HasRoomFor, IsWithin, KeepsRoom, bound};

use crate::edit::{Binding, Change, Edit, entry_of};
use blob_names::order::Sought;
use std::alloc::{AllocError, Global};
use std::collections::BTreeMap;

/// Returns whether these are the same binding, or none.
fn are_same(one: Option<Binding>, other: Option<Binding>) -> bool
    ensures { result ≡ true → one ≡ other }
{
    match (one, other) {
        (None, None) => true,
        (Some(one), Some(other)) => one.inode == other.inode && one.kind == other.kind,
        _ => false,
    }
}

/// What each entry is bound to.
#[derive(Drop)]
pub struct Table {
    alloc: Global,
    // a key with no binding is room that a refused call made
    entries: BTreeMap<Vec<u8>, Option<Binding>>,
}

impl Table {
    /// Returns an empty table. Doesn't allocate.
    pub fn new(alloc: Global) -> Table
        ensures { Same (bound result) (λ _. None) }
    {
        Table {
            alloc,
            entries: BTreeMap::new(alloc),
        }
    }

    /// Returns a copy. The only error is out of memory.
    pub fn copy(&self) -> Result<Table, AllocError>
        ensures { IfOk result (λ copy. bound copy ≡ bound self.now) }
    {
        Ok(Table {
            alloc: self.alloc,
            entries: self.entries.clone()?,
        })
    }

    /// Returns what an entry is bound to.
    pub fn get(&self, entry: &[u8]) -> Option<Binding>
        ensures { result ≡ bound self.now entry.now }
    {
        match self.entries.get(Sought { bytes: entry }) {
            None => None,
            Some(binding) => *binding,
        }
    }

    /// Returns whether a change frees an entry that is bound.
    fn is_freed_by(&self, change: &Change) -> bool
        ensures { result ≡ (is_none change.now.to && is_some (bound self.now change.now.entry.items)) }
    {
        change.to.is_none() && self.get(&change.entry).is_some()
    }

    /// Returns whether an edit frees an entry that is bound.
    pub fn frees_any(&self, edit: &Edit) -> bool
        ensures { result ≡ frees_any (bound self.now) (edit_of edit.now) }
    {
        match &edit.second {
            None => self.is_freed_by(&edit.first),
            Some(second) => self.is_freed_by(&edit.first) || self.is_freed_by(second),
        }
    }

    /// Makes room for a binding of an entry, and changes none. Fails only if memory runs out.
    fn prepare_entry(&mut self, entry: &[u8]) -> Result<(), AllocError>
        ensures same { Same (bound self.old) (bound self.new) }
        ensures keeps { KeepsRoom self.old self.new }
        ensures room { OnOk result (HasRoom self.new entry.now) }
    {
        if self.entries.contains_key(Sought { bytes: entry }) {
            return Ok(());
        }
        let key = Vec::from_slice(self.alloc, entry)?;
        self.entries.insert(key, None)?;
        Ok(())
    }

    /// Binds or frees an entry for which room was made.
    fn set(&mut self, entry: &[u8], to: Option<Binding>)
        ensures set { HasRoom self.old entry.now → Same (bound self.new) (changed (bound self.old) (entry.now, to)) }
        ensures keeps { KeepsRoom self.old self.new }
    {
        let Some(binding) = self.entries.get_mut(Sought { bytes: entry }) else {
            return;
        };
        *binding = to;
    }

    /// Binds or frees an entry. Fails only if memory runs out, and then changes no binding.
    fn put(&mut self, entry: Vec<u8>, to: Option<Binding>) -> Result<(), AllocError>
        ensures put { OnOk result (Same (bound self.new) (changed (bound self.old) (entry.items, to))) }
        ensures refused { OnErr result (Same (bound self.old) (bound self.new)) }
    {
        self.entries.insert(entry, to)?;
        Ok(())
    }

    /// Frees an entry, and gives back its room.
    fn free(&mut self, entry: &[u8])
        ensures { Same (bound self.new) (changed (bound self.old) (entry.now, None)) }
    {
        self.entries.remove(Sought { bytes: entry });
    }

    /// Gives back the room of an entry that is bound to nothing.
    fn tidy(&mut self, entry: &[u8])
        ensures { Same (bound self.old) (bound self.new) }
    {
        if self.get(entry).is_none() {
            self.entries.remove(Sought { bytes: entry });
        }
    }

    /// Gives back the room of an entry that a change freed, if it is bound to nothing.
    fn tidy_after(&mut self, change: &Change)
        ensures { Same (bound self.old) (bound self.new) }
    {
        if change.to.is_none() {
            self.tidy(&change.entry);
        }
    }

    /// Makes room for a change that is made alone, and changes no binding. Fails only if memory runs out.
    fn prepare_one(&mut self, change: &Change) -> Result<(), AllocError>
        ensures same { Same (bound self.old) (bound self.new) }
        ensures room { OnOk result (HasRoomAlone self.new (change_of change.now)) }
    {
        if change.to.is_none() {
            return Ok(());
        }
        self.prepare_entry(&change.entry)
    }

    /// Makes room for an edit, and changes no binding. Fails only if memory runs out.
    pub fn prepare(&mut self, edit: &Edit) -> Result<(), AllocError>
        ensures same { Same (bound self.old) (bound self.new) }
        ensures room { OnOk result (HasRoomFor self.new (edit_of edit.now)) }
    {
        let Some(second) = &edit.second else {
            return self.prepare_one(&edit.first);
        };
        self.prepare_entry(&edit.first.entry)?;
        self.prepare_entry(&second.entry)
    }

    /// Applies a change for which room was made.
    fn apply_one(&mut self, change: &Change)
        ensures { HasRoomAlone self.old (change_of change.now) → Same (bound self.new) (changed (bound self.old) (change_of change.now)) }
    {
        match change.to {
            None => self.free(&change.entry),
            Some(to) => self.set(&change.entry, Some(to)),
        }
    }

    /// Applies an edit for which room was made.
    pub fn apply(&mut self, edit: &Edit)
        ensures { HasRoomFor self.old (edit_of edit.now) → Same (bound self.new) (edited (bound self.old) (edit_of edit.now)) }
    {
        let Some(second) = &edit.second else {
            self.apply_one(&edit.first);
            return;
        };
        self.set(&edit.first.entry, edit.first.to);
        self.set(&second.entry, second.to);
        self.tidy_after(second);
        self.tidy_after(&edit.first);
    }

    /// Changes one entry. Fails only if memory runs out, and then changes no binding.
    fn make_one(&mut self, change: &Change) -> Result<(), AllocError>
        ensures made { OnOk result (Same (bound self.new) (changed (bound self.old) (change_of change.now))) }
        ensures refused { OnErr result (Same (bound self.old) (bound self.new)) }
    {
        match change.to {
            None => {
                self.free(&change.entry);
                Ok(())
            }
            Some(to) => {
                let entry = Vec::from_slice(self.alloc, &change.entry)?;
                self.put(entry, Some(to))
            }
        }
    }

    /// Makes room for an edit and applies it. Fails only if memory runs out, and then changes no binding.
    pub fn make(&mut self, edit: &Edit) -> Result<(), AllocError>
        ensures made { OnOk result (Same (bound self.new) (edited (bound self.old) (edit_of edit.now))) }
        ensures refused { OnErr result (Same (bound self.old) (bound self.new)) }
    {
        // One change needs no room before it: one look-up in place of four.
        if edit.second.is_none() {
            return self.make_one(&edit.first);
        }
        self.prepare(edit)?;
        self.apply(edit);
        Ok(())
    }

    /// Binds a name in a directory. Fails only if memory runs out.
    pub fn bind(&mut self, directory: u64, name: &[u8], to: Binding) -> Result<(), AllocError>
        ensures { OnOk result (Same (bound self.new) (changed (bound self.old) (entry directory name.now, Some to))) }
    {
        let entry = entry_of(self.alloc, directory, name)?;
        self.put(entry, Some(to))
    }

    /// Returns the names in a directory with their bindings, in the order of their bytes. Fails only if memory runs out.
    pub fn names_in(&self, directory: u64) -> Result<Vec<(Vec<u8>, Binding)>, AllocError>
        ensures told { IfOk result (λ names. HasOnly (bound self.now) directory names.items) }
        ensures all { IfOk result (λ names. HasAll (bound self.now) directory names.items) }
    {
        let start = directory.to_be_bytes();
        let mut names = Vec::new(self.alloc);
        for (entry, to) in self.entries.range(Vec::from_slice(self.alloc, &start)?..) {
            let Some(name) = entry.strip_prefix(&start) else {
                break;
            };
            if let Some(binding) = *to {
                names.push((Vec::from_slice(self.alloc, name)?, binding))?;
            }
        }
        Ok(names)
    }

    /// Returns whether another table binds each entry that this one binds, to the same.
    fn is_within(&self, other: &Table) -> bool
        ensures { result ≡ true → IsWithin (bound self.now) (bound other.now) }
    {
        for (entry, binding) in &self.entries {
            if !are_same(other.get(entry), *binding) {
                return false;
            }
        }
        true
    }

    /// Returns whether another table binds the same entries to the same.
    pub fn is_same(&self, other: &Table) -> bool
        ensures { result ≡ true → Same (bound self.now) (bound other.now) }
    {
        self.is_within(other) && other.is_within(self)
    }

    /// Returns whether a directory has no name. Fails only if memory runs out.
    pub fn is_empty(&self, directory: u64) -> Result<bool, AllocError>
        ensures empty { IfOk result (λ empty. empty ≡ true → HasNoName (bound self.now) directory) }
        ensures named { IfOk result (λ empty. empty ≡ false → HasNoName (bound self.now) directory → ⊥) }
    {
        let start = directory.to_be_bytes();
        for (entry, _) in self.entries.range(Vec::from_slice(self.alloc, &start)?..) {
            let Some(_) = entry.strip_prefix(&start) else {
                break;
            };
            if self.get(entry).is_some() {
                return Ok(false);
            }
        }
        Ok(true)
    }
}
