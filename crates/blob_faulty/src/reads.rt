//! Reads into a slice, over a memory store.
ghost use Rattle.std.specs.Prelude.{◌≡◌, ◌≤◌, ◌+◌, OnOk, OnErr, length, take, drop};
ghost use Rattle.blob_header.specs.Refusals.{error_of};
ghost use Rattle.blob_faulty.specs.HandleLeaves.{ReadLeaves};
ghost use Rattle.blob_faulty.specs.Keeps.{LosesNothing};
ghost use Rattle.blob_faulty.specs.Names.{Steps};
ghost use Rattle.blob_faulty.specs.OverMemory.{memory_store, MayReadInto};
ghost use Rattle.blob_faulty.specs.Wrapper.{inner_of, inside};
ghost use Rattle.blob_memory.specs.Store.{directory, durable, place, live};

use crate::blob::Blob;
use crate::storage::Storage;
use blob_base::Error;
use blob_draws::faults::draws;
use rand_core::Rng;

impl Blob<blob_memory::Blob> {
    /// Draws the read rate, then fills `buf` with live bytes from the logical `offset` on. Allocates nothing.
    ///
    /// # Errors
    ///
    /// `Injected`; then `OffsetOverflow`, `BlobInsufficientLength`. `buf` is unchanged.
    pub fn read_into<R: Rng>(
        &self,
        store: &mut Storage<blob_memory::Storage, R>,
        offset: u64,
        buf: &mut [u8],
    ) -> Result<(), Error>
        ensures allowed { MayReadInto R.stream self.now store.old offset (length buf.old) (error_of result) }
        ensures bytes { OnOk result (buf.new ≡ take (length buf.old) (drop offset (live (inside self.now)))) }
        ensures within { OnOk result (offset + length buf.old ≤ length (live (inside self.now))) }
        ensures err { OnErr result (buf.new ≡ buf.old) }
        ensures inner { inner_of store.new ≡ inner_of store.old }
        ensures leaves { ReadLeaves memory_store R.stream (λ inner. inner ≡ inner_of store.old) store.old store.new }
        ensures files { Steps (λ o. o) directory durable store.old store.new (λ files. files) }
        ensures keeps { LosesNothing store.old store.new }
    {
        if draws(store.config.read_rate, &mut store.rng) {
            return Err(Error::Injected);
        }
        self.inner.read_into(offset, buf)
    }
}
