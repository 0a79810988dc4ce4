//! Exclusive opens.
ghost use Rattle.std.specs.Prelude.{◌≡◌, ◌≢◌, ◌≤◌, ◌+◌, ◌-◌, ◌^◌, ◌⊎◌, ℕ, Some, None, OnOk, OnErr, IfOk, IfErr, length, option_copied, is_some, false, ◌<◌};
ghost use Rattle.std.specs.Range.{range_inclusive_exhausted};
ghost use Rattle.hex.specs.Hex.{encode_lower};
ghost use Rattle.blob_base.specs.StoreChanges.{DropsBytes, DropsNames, SameFiles};
ghost use Rattle.blob_header.specs.Refusals.{error_of, refusal_of, BlobAlreadyOpen, FailsWith, GenerationsExhausted, IsMemory, IsMemoryError};
ghost use Rattle.blob_header.specs.Versions.{lower, upper};
ghost use Rattle.blob_opens.specs.OpenNames.{open_name, release, end_names, none_open, with_registration, IsExhausted};
ghost use Rattle.blob_opens.specs.Opens.{names_of, next_registration, registration_of, store_handle, EndsNames, HasNoNumber, OpensHandle, OpensName};

pub mod history;

use crate::open::{Blob, Registration};
use blob_base::{BlobVersion, Error, Storage};
use blob_names::names::Names;
use std::alloc::{AllocError, Global};
use std::ops::RangeInclusive;

/// A registry of open names. It allows one open handle per name.
#[derive(Drop)]
pub struct Opens {
    pub(crate) names: Names<u64>,
    pub(crate) next: u64,
    alloc: Global,
}

impl Opens {
    /// Returns a registry without open names.
    pub fn new(alloc: Global) -> Opens
        ensures { names_of result ≡ none_open 0 }
    {
        Opens {
            names: Names::new(alloc),
            next: 0,
            alloc,
        }
    }

    /// Returns a copy of the registry: the same names are open in it, by the same numbers, and it gives the same numbers next.
    /// Each of the two needs registrations of its own (`Registration::copy`). The only error is out of memory.
    pub fn copy(&self) -> Result<Opens, AllocError>
        ensures { IfOk result (λ copy. names_of copy ≡ names_of self.now) }
    {
        Ok(Opens {
            names: self.names.copy()?,
            next: self.next,
            alloc: self.alloc,
        })
    }

    /// Opens a blob that isn't open in this registry. Returns its handle, its size in logical bytes and its version. `versions`
    /// must not be empty nor iterated to its end.
    ///
    /// Over a fault wrapper, this does not discard pending writes. The wrapper's `open_exclusive` makes this call and `admit`.
    ///
    /// # Errors
    ///
    /// After each error the same names are open.
    ///
    /// - `GenerationsExhausted` if the name isn't open and no number is left. The store isn't called.
    /// - Those of the store's open, which is made even if the name is open.
    /// - `BlobAlreadyOpen` if the name is open. The draw and the effects of the store's open stay.
    /// - `Memory` also if the registration or the texts of an error can't be allocated. The store isn't called then.
    pub fn open<S: Storage>(
        &mut self,
        store: &mut S,
        partition: &str,
        name: &[u8],
        versions: RangeInclusive<BlobVersion>,
    ) -> Result<(Blob<S::Blob>, u64, BlobVersion), Error>
        requires fresh { range_inclusive_exhausted versions ≡ false }
        requires some { lower versions ≤ upper versions }
        ensures answer { OpensName S.Storage self.old store.old store.new partition.now name.now versions (error_of result) }
        ensures exhausted { IsExhausted (names_of self.old) partition.now name.now → FailsWith result GenerationsExhausted }
        ensures registered { OnOk result (names_of self.new ≡ open_name (names_of self.old) partition.now name.now) }
        ensures err { OnErr result (names_of self.new ≡ names_of self.old) }
        ensures handle { IfOk result (λ opened. registration_of opened.0 ≡ next_registration self.old partition.now name.now) }
        ensures opened { IfOk result (OpensHandle S.Durable S.Blob.Blob store.old store.new partition.now name.now versions) }
        ensures size { IfOk result (λ opened. opened.1 ≡ length (S.Blob.live (store_handle opened.0))) }
        ensures kept_size { IfOk result (λ opened. S.keeps_size (store_handle opened.0) opened.1) }
    {
        if self.held_by(partition, name).is_some() {
            let refusal = self.already_open(partition, name)?;
            store.open_versioned(partition, name, versions)?;
            return Err(refusal);
        }
        let registration = self.register(partition, name)?;
        match store.open_versioned(partition, name, versions) {
            Ok((inner, size, version)) => {
                self.next += 1;
                let blob = Blob {
                    inner,
                    registration,
                };
                Ok((blob, size, version))
            }
            Err(e) => {
                let Registration {
                    partition,
                    name,
                    number: _,
                } = registration;
                self.withdraw(&partition, &name);
                Err(e)
            }
        }
    }

    /// Removes a blob, or with no name a partition, from the store. After Ok, none of these names is open. Their handles are
    /// stale and must still be closed.
    ///
    /// # Errors
    ///
    /// Those of the store's removal. The same names are open.
    pub fn remove<S: Storage>(
        &mut self,
        store: &mut S,
        partition: &str,
        name: Option<&[u8]>,
    ) -> Result<(), Error>
        ensures allowed { S.allows_remove store.old partition.now (option_copied name.entry) (error_of result) }
        ensures leaves { S.leaves_remove store.old partition.now (option_copied name.entry) (error_of result) store.new }
        ensures directory { OnOk result (DropsNames S.Durable store.old store.new partition.now (option_copied name.entry)) }
        ensures durable { OnOk result (DropsBytes S.Durable store.old store.new partition.now (option_copied name.entry)) }
        ensures kept { OnErr result (SameFiles S.Durable store.old store.new) }
        ensures ended { OnOk result (EndsNames self.old self.new partition.now (option_copied name.entry)) }
        ensures err { OnErr result (names_of self.new ≡ names_of self.old) }
    {
        store.remove(partition, name)?;
        self.end(partition, name);
        Ok(())
    }

    /// Calls the closure once and returns its result. After Ok the name, or with none the whole partition, is no longer open.
    /// After an error the same names are open.
    pub fn replace<R, F: FnOnce() -> Result<R, Error>>(
        &mut self,
        partition: &str,
        name: Option<&[u8]>,
        call: F,
    ) -> Result<R, Error>
        requires { F.pre call }
        ensures answer { F.post call result }
        ensures ended { OnOk result (EndsNames self.old self.new partition.now (option_copied name.entry)) }
        ensures err { OnErr result (names_of self.new ≡ names_of self.old) }
    {
        let replaced = call()?;
        self.end(partition, name);
        Ok(replaced)
    }

    /// Closes a handle and drops its live bytes. Its name is then no longer open, unless it was removed and another handle has
    /// opened it since. Can't fail. Allocates nothing.
    pub fn close<B: Drop>(&mut self, blob: Blob<B>)
        ensures { names_of self.new ≡ release (names_of self.old) (registration_of blob) }
    {
        let Blob {
            inner: _,
            registration,
        } = blob;
        self.release(registration);
    }

    /// Ends the open of a handle that `into_parts` took apart, as `close` does.
    pub fn release(&mut self, registration: Registration)
        ensures { names_of self.new ≡ release (names_of self.old) registration }
    {
        let Registration {
            partition,
            name,
            number,
        } = registration;
        if self.held_by(&partition, &name) == Some(number) {
            self.withdraw(&partition, &name);
        }
    }

    /// Ends all opens, for a store that is rebuilt. Numbers aren't reused.
    pub fn end_all(&mut self)
        ensures { names_of self.new ≡ none_open (names_of self.old).next }
    {
        self.names = Names::new(self.alloc);
    }

    /// Returns the error of an open of this name while it is open. The only error of its own is `Memory`.
    fn already_open(&self, partition: &str, name: &[u8]) -> Result<Error, Error>
        ensures ok { IfOk result (λ e. refusal_of e ≡ BlobAlreadyOpen partition.now (encode_lower name.now)) }
        ensures err { OnErr result (IsMemory result) }
    {
        let partition = String::from_str(self.alloc, partition)?;
        let name = hex::encode(self.alloc, name)?;
        Ok(Error::BlobAlreadyOpen(partition, name))
    }

    /// Returns the number of a name's open.
    fn held_by(&self, partition: &str, name: &[u8]) -> Option<u64>
        ensures { result ≡ (names_of self.now).registered partition.now name.now }
    {
        self.names.get(partition, name).copied()
    }

    /// Registers a name that isn't open under the next number. Doesn't increment that number.
    fn register(&mut self, partition: &str, name: &[u8]) -> Result<Registration, Error>
        requires { (names_of self.old).registered partition.now name.now ≡ None }
        ensures ok { IfOk result (λ r. r ≡ next_registration self.old partition.now name.now) }
        ensures left { OnOk result ((names_of self.old).next < 2 ^ 64 - 1) }
        ensures registered { OnOk result (names_of self.new ≡ with_registration (names_of self.old) partition.now name.now) }
        ensures exhausted { HasNoNumber self.old → FailsWith result GenerationsExhausted }
        ensures refused { IfErr result (λ e. IsMemoryError e ⊎ ((refusal_of e ≡ GenerationsExhausted) × HasNoNumber self.old)) }
        ensures err { OnErr result (names_of self.new ≡ names_of self.old) }
    {
        if self.next == u64::MAX {
            return Err(Error::GenerationsExhausted);
        }
        let partition_copy = String::from_str(self.alloc, partition)?;
        let name_copy = Vec::from_slice(self.alloc, name)?;
        self.names.add(partition, name, self.next)?;
        Ok(Registration {
            partition: partition_copy,
            name: name_copy,
            number: self.next,
        })
    }

    /// Ends the open of a name.
    fn withdraw(&mut self, partition: &str, name: &[u8])
        ensures { names_of self.new ≡ end_names (names_of self.old) partition.now (Some name.now) }
    {
        self.names.remove(partition, name);
    }

    fn end(&mut self, partition: &str, name: Option<&[u8]>)
        ensures { names_of self.new ≡ end_names (names_of self.old) partition.now (option_copied name.entry) }
    {
        match name {
            Some(name) => self.names.remove(partition, name),
            None => self.names.remove_partition(partition),
        }
    }
}
