//! The paths of directories and files by their numbers.
use crate::path_text::print_path;
use blob_fs::{Change, Edit, FileSystem, Kind, ROOT};
use blob_lab::ScriptedRng;
use std::alloc::{AllocError, Global};
use std::collections::BTreeMap;

/// The directory and the name by which a number was bound.
#[derive(Drop)]
struct Place {
    directory: u64,
    name: Vec<u8>,
}

/// Where each directory and each file was bound last.
#[derive(Drop)]
pub(crate) struct Paths {
    alloc: Global,
    places: BTreeMap<u64, Place>,
}

/// Returns the number of the directory of an entry, and the name in it. That of a truncation has the file's number and no name.
pub(crate) fn parts_of(entry: &[u8]) -> Option<(u64, &[u8])> {
    let (number, name) = entry.split_first_chunk::<8>()?;
    Some((u64::from_be_bytes(*number), name))
}

impl Paths {
    /// Returns the paths of a root without names.
    pub(crate) fn new(alloc: Global) -> Paths {
        Paths {
            alloc,
            places: BTreeMap::new(alloc),
        }
    }

    /// Returns the paths that the root reaches. Of several names of a file the first counts.
    pub(crate) fn read(alloc: Global, fs: &FileSystem<ScriptedRng>) -> Result<Paths, AllocError> {
        let mut paths = Paths::new(alloc);
        let mut left = Vec::new(alloc);
        left.push(ROOT)?;
        for _ in 0..u64::MAX {
            let Some(directory) = left.pop() else {
                break;
            };
            let Ok(names) = fs.list_at(directory) else {
                return Err(AllocError);
            };
            for (name, binding) in &names {
                if !paths.places.contains_key(&binding.inode) {
                    paths.bind(binding.inode, directory, name)?;
                }
                if binding.kind == Kind::Directory {
                    left.push(binding.inode)?;
                }
            }
        }
        Ok(paths)
    }

    fn bind(&mut self, number: u64, directory: u64, name: &[u8]) -> Result<(), AllocError> {
        let name = Vec::from_slice(self.alloc, name)?;
        self.places.insert(number, Place { directory, name })?;
        Ok(())
    }

    fn note_change(&mut self, change: &Change) -> Result<(), AllocError> {
        match (change.to, parts_of(&change.entry)) {
            (Some(binding), Some((directory, name))) => self.bind(binding.inode, directory, name),
            _ => Ok(()),
        }
    }

    /// Notes the names that an edit binds.
    pub(crate) fn note(&mut self, edit: &Edit) -> Result<(), AllocError> {
        self.note_change(&edit.first)?;
        match &edit.second {
            None => Ok(()),
            Some(second) => self.note_change(second),
        }
    }

    /// Appends the path of a number, nothing for the root. Returns whether it has one.
    pub(crate) fn push_path(&self, number: u64, text: &mut String) -> Result<bool, AllocError> {
        let mut chain = Vec::new(self.alloc);
        let mut at = number;
        for _ in 0..=self.places.len() {
            if at == ROOT {
                break;
            }
            let Some(place) = self.places.get(&at) else {
                return Ok(false);
            };
            chain.push(at)?;
            at = place.directory;
        }
        for number in chain.iter().rev() {
            if let Some(place) = self.places.get(number) {
                text.push('/')?;
                print_path(&place.name, text)?;
            }
        }
        Ok(true)
    }

    /// Appends the path of a file.
    pub(crate) fn push_file(&self, inode: u64, text: &mut String) -> Result<(), AllocError> {
        if !self.push_path(inode, text)? {
            write!(text, "inode {inode}")?;
        }
        Ok(())
    }

    /// Appends the path of an entry.
    pub(crate) fn push_entry(&self, entry: &[u8], text: &mut String) -> Result<(), AllocError> {
        let Some((directory, name)) = parts_of(entry) else {
            return Ok(());
        };
        if !self.push_path(directory, text)? {
            write!(text, "directory {directory}")?;
        }
        text.push('/')?;
        print_path(name, text)
    }
}
