//! All files and directories at once, for a reader that looks at the outcome of a test.
ghost use Rattle.blob_fs.specs.States.{KeepsState};

use crate::error::FsError;
use crate::file_system::{FileSystem, ROOT};
use blob_directory::edit::{Binding, Kind};
use rand_core::Rng;
use std::alloc::{AllocError, Global};

/// A path, from the root on, what it is bound to, and the bytes of a file.
#[derive(Drop)]
pub struct TreeEntry {
    pub path: Vec<u8>,
    pub binding: Binding,
    pub bytes: Vec<u8>,
}

/// A path that is still to be looked at.
#[derive(Drop)]
struct Left {
    path: Vec<u8>,
    binding: Binding,
}

/// Adds the names of a directory, the last one first.
fn push_names(
    alloc: Global,
    left: &mut Vec<Left>,
    above: &[u8],
    names: &[(Vec<u8>, Binding)],
) -> Result<(), AllocError> {
    for (name, binding) in names.iter().rev() {
        let mut path = Vec::from_slice(alloc, above)?;
        path.push(b'/')?;
        path.extend_from_slice(name)?;
        left.push(Left {
            path,
            binding: *binding,
        })?;
    }
    Ok(())
}

impl<R: Rng + Drop> FileSystem<R> {
    /// Returns all bytes of a file by its number, as a read returns them. Makes no draw, and opens no descriptor.
    ///
    /// # Errors
    ///
    /// `NotFound`, `Crashed`, `Memory`.
    pub fn bytes_of(&mut self, inode: u64) -> Result<Vec<u8>, FsError>
        ensures { KeepsState self.old self.new }
    {
        self.begin_call()?;
        self.draw_nothing();
        let Some(file) = self.files.get(&inode) else {
            return Err(FsError::NotFound);
        };
        let file = file.as_ref();
        let mut bytes = Vec::new(self.alloc);
        let Ok(len) = usize::try_from(file.size()) else {
            return Err(AllocError.into());
        };
        bytes.resize(len, 0)?;
        if len == 0 {
            return Ok(bytes);
        }
        file.read_into(&mut self.store, 0, &mut bytes)?;
        Ok(bytes)
    }

    /// Returns each path that the root reaches, with the bytes of files: a directory before what is in it, names in the order of
    /// their bytes. Makes no draw, and opens no descriptor.
    ///
    /// # Errors
    ///
    /// `Crashed`, `Memory`.
    pub fn tree(&mut self) -> Result<Vec<TreeEntry>, FsError>
        ensures { KeepsState self.old self.new }
    {
        let mut found = Vec::new(self.alloc);
        let mut left = Vec::new(self.alloc);
        let root = self.list_at(ROOT)?;
        push_names(self.alloc, &mut left, b"", &root)?;
        for _ in 0..u64::MAX {
            let Some(Left { path, binding }) = left.pop() else {
                break;
            };
            let bytes = match binding.kind {
                Kind::File => self.bytes_of(binding.inode)?,
                Kind::Directory => {
                    let names = self.list_at(binding.inode)?;
                    push_names(self.alloc, &mut left, &path, &names)?;
                    Vec::new(self.alloc)
                }
            };
            found.push(TreeEntry {
                path,
                binding,
                bytes,
            })?;
        }
        Ok(found)
    }
}
