//! A second set of names with their journal in the same state, and copies of open files for it.
ghost use Rattle.std.specs.Prelude.{◌≡◌, IfOk, OnErr};
ghost use Rattle.blob_header.specs.Refusals.{IsMemory};
ghost use Rattle.blob_journal.specs.Fixed.{KeepsOpen};
ghost use Rattle.blob_journal.specs.Forks.{FindsSame, IsCopy, IsFork};
ghost use Rattle.blob_journal.specs.Keeping.{generator_in};
ghost use Rattle.blob_journal.specs.Writes.{SameCrashes};

use crate::journaled::Journaled;
use crate::store::FileBlob;
use blob_base::Error;
use blob_faulty::laws::leaves;
use std::alloc::AllocError;

impl FileBlob {
    /// Returns a second handle on the same blob, to be used with a fork of its names. No later call through one handle changes the
    /// other. The only error is out of memory.
    pub fn copy(&self) -> Result<FileBlob, AllocError>
        ensures { IfOk result (IsCopy self.now) }
    {
        Ok(FileBlob {
            blob: self.blob.copy()?,
        })
    }
}

impl<R> Journaled<R> {
    /// Returns a second set of names over a fork of the store, with the same names, edits and files, durable and pending. Its draws come
    /// from `rng`. No later call on one changes the other. A handle for the fork is a copy of one of these names (`FileBlob::copy`).
    ///
    /// # Errors
    ///
    /// `Memory` if an allocation fails. `rng` is dropped then.
    pub fn fork(&self, rng: R) -> Result<Journaled<R>, Error>
    where
        R: Drop,
        ensures fork { IfOk result (IsFork self.now) }
        ensures generator { IfOk result (λ fork. generator_in fork ≡ rng) }
        ensures finds { IfOk result (FindsSame self.now) }
        ensures crashes { IfOk result (SameCrashes self.now) }
        ensures still { IfOk result (KeepsOpen self.now) }
        ensures memory { OnErr result (IsMemory result) }
    {
        leaves::same_bytes::<blob_memory::Storage, R>();
        let journal = self.journal.copy()?;
        let names = self.names.copy()?;
        let unsettled = self.unsettled.copy()?;
        let log = self.log.copy()?;
        let store = self.store.fork(rng)?;
        Ok(Journaled {
            alloc: self.alloc,
            store,
            journal,
            names,
            unsettled,
            log,
            next_edit: self.next_edit,
            opened: self.opened,
        })
    }
}
