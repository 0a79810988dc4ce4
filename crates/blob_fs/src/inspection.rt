//! What is unsynced and unsettled, and what a crash found, for a reader that explains a run.
ghost use Rattle.std.specs.Prelude.{◌≡◌, ◌⊎◌, None, Some, IfErr, IfOk, IsSome, OnOk};
ghost use Rattle.blob_fs.specs.declared.error.FsError.TheVariants.{NotFound};
ghost use Rattle.blob_fs.specs.Files.{durable_of, file_of, found_size, journaled_of, synced_size};
ghost use Rattle.blob_journal.specs.Settling.{unsettled_of};

use crate::error::FsError;
use crate::file_system::FileSystem;
use blob_directory::unsettled::Unsettled;
use rand_core::Rng;

impl<R: Rng + Drop> FileSystem<R> {
    /// Returns the edits that nothing settled, in the order of their calls.
    pub fn unsettled(&self) -> &[Unsettled]
        ensures { result.now ≡ unsettled_of (journaled_of self.now) }
    {
        self.store.unsettled()
    }

    /// Returns the durable bytes of a file by its number, to which a crash applies what it keeps of the calls since.
    ///
    /// # Errors
    ///
    /// `NotFound`, `Memory`.
    pub fn durable_bytes_of(&self, inode: u64) -> Result<Vec<u8>, FsError>
        ensures bytes { IfOk result (λ bytes. durable_of self.now inode ≡ Some bytes.items) }
        ensures found { OnOk result (IsSome (file_of self.now inode)) }
        ensures missing { IfErr result (λ e. e ≡ NotFound → (file_of self.now inode ≡ None) ⊎ (durable_of self.now inode ≡ None)) }
    {
        if self.file(inode).is_none() {
            return Err(FsError::NotFound);
        }
        match self.store.durable_file(inode)? {
            None => Err(FsError::NotFound),
            Some(bytes) => Ok(bytes),
        }
    }

    /// Returns a file's size in bytes at its last sync or crash by its number, 0 if there is no such file.
    pub fn synced_size_of(&self, inode: u64) -> u64
        ensures { result ≡ synced_size self.now inode }
    {
        self.file(inode).map_or(0, |file| file.synced)
    }

    /// Returns the size in bytes that the last crash found of a file, before the profile truncated it. 0 if the file is newer or
    /// there is no such file.
    pub fn found_size_of(&self, inode: u64) -> u64
        ensures { result ≡ found_size self.now inode }
    {
        self.file(inode).map_or(0, |file| file.found)
    }
}
