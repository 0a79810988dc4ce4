//! Files on the heap.
ghost use Rattle.std.specs.Prelude.{◌≡◌, IfOk};
ghost use Rattle.std.specs.Borrow.{sem};
ghost use Rattle.blob_fs.specs.Boxed.{LendsFile};

use crate::file_system::File;
use std::alloc::{AllocError, Global};
use std::marker::Model;

/// A file on the heap. The nodes of a map are about half full, and a file is large, so the map of files has pointers.
#[derive(Drop)]
pub(crate) struct BoxedFile {
    file: Box<File>,
}

impl Model for BoxedFile {
    ghost use Rattle.blob_fs.specs.declared.file_system.File.{File};

    ghost Value = { File };

    ghost view = { λ boxed. boxed.file.value };
}

impl BoxedFile {
    /// Moves a file to the heap. The only error is out of memory.
    pub(crate) fn new(alloc: Global, file: File) -> Result<BoxedFile, AllocError>
        ensures { IfOk result (λ boxed. boxed ≡ file) }
    {
        Ok(BoxedFile {
            file: Box::new(alloc, file)?,
        })
    }

    /// Returns the file.
    pub(crate) fn as_ref(&self) -> &File
        ensures { result.now ≡ self.now }
    {
        self.file.as_ref()
    }

    /// Returns the file for a change.
    pub(crate) fn as_mut(&mut self) -> &mut File
        ensures* writes_back { sem 𝓛 (LendsFile self.entry result) }
        ensures value { result.now ≡ self.old }
    {
        self.file.as_mut()
    }
}
