//! A second store with the same files.
ghost use Rattle.std.specs.Prelude.{◌≡◌, OnErr, IfOk};
ghost use Rattle.blob_header.specs.Refusals.{IsMemory};

use crate::blob::Blob;
use crate::storage::Storage;
use blob_base::Error;
use std::alloc::AllocError;

impl Storage {
    ghost use Rattle.blob_memory.specs.Store.{directory, durable, listing};

    /// Makes a second store with the same files and the same next number. No later call on one store changes the other.
    ///
    /// For a blob of more than 16 KB the two share each page that hasn't changed since a sync. Other pages, smaller blobs
    /// and raw files are copied; reserved capacity isn't. The counts of shared pages aren't atomic, so a fork stays on its
    /// store's thread.
    ///
    /// A handle that is current in the store is current in the fork too. From then on both give out the same numbers, so
    /// use a handle that is opened later only with its own store.
    ///
    /// # Errors
    ///
    /// `Memory` if an allocation fails.
    pub fn fork(&self) -> Result<Storage, Error>
        ensures directory { IfOk result (λ fork. directory fork ≡ directory self.now) }
        ensures durable { IfOk result (λ fork. durable fork ≡ durable self.now) }
        ensures listing { IfOk result (λ fork. listing fork ≡ listing self.now) }
        ensures memory { OnErr result (IsMemory result) }
    {
        let contents = self.contents.copy()?;
        Ok(Storage {
            alloc: self.alloc,
            contents,
        })
    }
}

impl Blob {
    ghost use Rattle.blob_memory.specs.Store.{place, live};

    /// Returns a second handle on the same incarnation, with the same live bytes, to be used with a fork of the store. No later
    /// call through one handle changes the other. The two share pages as a fork's files do, and reserved capacity isn't copied.
    ///
    /// The only error is out of memory.
    pub fn copy(&self) -> Result<Blob, AllocError>
        ensures place { IfOk result (λ copy. place copy ≡ place self.now) }
        ensures live { IfOk result (λ copy. live copy ≡ live self.now) }
    {
        Ok(Blob {
            origin: self.origin.clone()?,
            live: self.live.copy()?,
        })
    }
}
