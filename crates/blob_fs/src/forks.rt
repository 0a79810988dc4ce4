//! A second file system in the same state.
ghost use Rattle.std.specs.Prelude.{◌≡◌, ◌⊎◌, IfErr, IfOk};
ghost use Rattle.blob_fs.specs.Errors.{IsOutOfMemory};
ghost use Rattle.blob_fs.specs.Files.{generator_of};
ghost use Rattle.blob_fs.specs.Fixed.{KeepsFixed};
ghost use Rattle.blob_fs.specs.Forks.{CrashesSame, IsCopy, IsFork, LooksSame};
ghost use Rattle.blob_fs.specs.declared.error.FsError.TheVariants.{Crashed};

use crate::base::copy_of;
use crate::boxed_file::BoxedFile;
use crate::error::FsError;
use crate::file_system::{File, FileSystem, Options};
use blob_journal::laws::copies;
use rand_core::Rng;
use std::alloc::AllocError;

impl Clone for File {
    ghost is_clone = { IsCopy };

    /// Returns a copy, for a fork. The only error is out of memory.
    fn clone(&self) -> Result<File, AllocError> {
        let alloc = *self.truncations.allocator();
        let shown = match &self.shown {
            None => None,
            Some(bytes) => Some(Vec::from_slice(alloc, bytes)?),
        };
        let truncations = Vec::from_slice(alloc, &self.truncations)?;
        Ok(File {
            blob: self.blob.copy()?,
            links: self.links,
            opens: self.opens,
            synced: self.synced,
            found: self.found,
            sized: self.sized,
            shown,
            truncations,
            is_gone: self.is_gone,
            gone_at: self.gone_at,
        })
    }
}

impl Clone for BoxedFile {
    ghost is_clone = { IsCopy };

    /// Returns a copy, for a fork. The only error is out of memory.
    fn clone(&self) -> Result<BoxedFile, AllocError> {
        let file = self.as_ref().clone()?;
        let alloc = *file.truncations.allocator();
        BoxedFile::new(alloc, file)
    }
}

/// Returns a copy.
fn copy_of_options(options: &Options) -> Options
    ensures { result ≡ options.now }
{
    Options {
        profile: options.profile,
        faults: copy_of(&options.faults),
        edit_rate: options.edit_rate,
        max_bytes: options.max_bytes,
        max_files: options.max_files,
        failed_sync: options.failed_sync,
        syncs: options.syncs,
        failed_write: options.failed_write,
    }
}

impl<R: Rng + Drop> FileSystem<R> {
    /// Returns a second file system in the same state: the same names, files and open descriptors, the same bytes, durable and pending,
    /// and the same options. Its draws come from `rng`. No later call on one changes the other, so several continuations of one run can be
    /// tried without making the calls before them again.
    ///
    /// # Errors
    ///
    /// `Crashed` if the recovery of the last crash failed, `Memory`. `rng` is dropped then.
    pub fn fork(&self, rng: R) -> Result<FileSystem<R>, FsError>
        ensures fork { IfOk result (IsFork self.now) }
        ensures generator { IfOk result (λ fork. generator_of fork ≡ rng) }
        ensures looks { IfOk result (LooksSame self.now) }
        ensures crashes { IfOk result (CrashesSame self.now) }
        ensures fixed { IfOk result (KeepsFixed self.now) }
        ensures errors { IfErr result (λ e. (e ≡ Crashed) ⊎ IsOutOfMemory e) }
    {
        copies::<R>();
        if self.is_down || self.kept.is_some() {
            return Err(FsError::Crashed);
        }
        let options = copy_of_options(&self.options);
        let directories = self.directories.clone()?;
        let files = self.files.clone()?;
        let opens = self.opens.clone()?;
        let gone = self.gone.clone()?;
        let store = self.store.fork(rng)?;
        Ok(FileSystem {
            alloc: self.alloc,
            store,
            options,
            directories,
            files,
            opens,
            next_inode: self.next_inode,
            next_open: self.next_open,
            gone,
            used: self.used,
            is_down: false,
            kept: None,
        })
    }
}
