//! A second wrapper with the same files and the same pending lists, and copies of handles for it.
ghost use Rattle.std.specs.Prelude.{◌≡◌, IfOk, OnErr};
ghost use Rattle.blob_header.specs.Refusals.{IsMemory};
ghost use Rattle.blob_faulty.specs.Keeps.{LosesNothing};
ghost use Rattle.blob_faulty.specs.Names.{Steps};
ghost use Rattle.blob_faulty.specs.Wrapper.{KeepsRecords, inner_of, inside, rng_of, size_of};
ghost use Rattle.blob_memory.specs.Store.{directory, durable, live, place};

use crate::blob::Blob;
use crate::storage::Storage;
use blob_base::Error;
use blob_draws::config::Config;
use std::alloc::AllocError;

impl<R> Storage<blob_memory::Storage, R> {
    /// Returns a second wrapper over a fork of the inner store (`blob_memory::Storage::fork`), with a copy of what is pending, the
    /// same configuration and the same next numbers. It draws from `rng`. No later call on one wrapper changes the other, so
    /// several continuations of one run can be tried without making the calls before them again.
    ///
    /// Reserved capacity isn't copied. A handle for the fork is a copy of this wrapper's (`Blob::copy`). A started sync may be
    /// finished once in each.
    ///
    /// # Errors
    ///
    /// `Memory` if an allocation fails. `rng` is dropped then.
    pub fn fork(&self, rng: R) -> Result<Storage<blob_memory::Storage, R>, Error>
    where
        R: Drop,
        ensures rng { IfOk result (λ fork. rng_of fork ≡ rng) }
        ensures records { IfOk result (λ fork. KeepsRecords (λ o. o) self.now fork) }
        ensures directory { IfOk result (λ fork. directory (inner_of fork) ≡ directory (inner_of self.now)) }
        ensures durable { IfOk result (λ fork. durable (inner_of fork) ≡ durable (inner_of self.now)) }
        ensures files { IfOk result (λ fork. Steps (λ o. o) directory durable self.now fork (λ files. files)) }
        ensures keeps { IfOk result (λ fork. LosesNothing self.now fork) }
        ensures memory { OnErr result (IsMemory result) }
    {
        Ok(Storage {
            inner: self.inner.fork()?,
            rng,
            config: Config { ..self.config },
            lists: self.lists.copy()?,
            next_write: self.next_write,
            next_marker: self.next_marker,
            alloc: self.alloc,
        })
    }
}

impl Blob<blob_memory::Blob> {
    /// Returns a second handle on the same incarnation, with the same live bytes and tracked size, to be used with a fork of the
    /// wrapper. No later call through one handle changes the other.
    ///
    /// The only error is out of memory.
    pub fn copy(&self) -> Result<Blob<blob_memory::Blob>, AllocError>
        ensures place { IfOk result (λ copy. place (inside copy) ≡ place (inside self.now)) }
        ensures live { IfOk result (λ copy. live (inside copy) ≡ live (inside self.now)) }
        ensures size { IfOk result (λ copy. size_of copy ≡ size_of self.now) }
    {
        Ok(Blob {
            inner: self.inner.copy()?,
            size: self.size,
            list: self.list,
        })
    }
}
