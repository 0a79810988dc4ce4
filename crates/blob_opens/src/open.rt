//! Handles of exclusive opens.
ghost use Rattle.std.specs.Prelude.{◌≡◌, ◌≢◌, ◌+◌, ◌≤◌, ℕ, List, [], Bool, true, false, Option, Some, None, IsSome, OnOk, OnErr, IfOk, length, take, drop};
ghost use Rattle.blob_model.specs.Bytes.{overlay, resize};
ghost use Rattle.blob_model.specs.Directory.{is_current};
ghost use Rattle.blob_model.specs.Durable.{with_changed};
ghost use Rattle.blob_base.specs.Handles.{outcome_of};
ghost use Rattle.blob_model.specs.Live.{live_written, live_after};
ghost use Rattle.blob_base.specs.Options.{is_sync};
ghost use Rattle.blob_header.specs.Refusals.{Refusal, error_of, IsMemory};

use blob_base::{Durable, Error, Handle, IoBufs, IoBufsMut, ReadOptions, WriteOptions};
use std::alloc::AllocError;
use std::marker::Model;

/// An accepted open, by a number that no other open has. It can't be dropped: `Opens::release` ends it, or `Opens::close` with its
/// handle.
pub struct Registration {
    pub(crate) partition: String,
    pub(crate) name: Vec<u8>,
    pub(crate) number: u64,
}

impl Model for Registration {
    ghost use Rattle.std.specs.String.{string_bytes};
    ghost use Rattle.blob_opens.specs.OpenNames.{Registration};

    ghost Value = { Registration };

    ghost view = { λ r. record { partition = string_bytes r.partition; name = r.name.items; number = r.number } };
}

impl Registration {
    /// Returns a copy, for a copy of the registry that gave this one. The only error is out of memory.
    pub fn copy(&self) -> Result<Registration, AllocError>
        ensures { IfOk result (λ copy. copy ≡ self.now) }
    {
        let alloc = *self.name.allocator();
        let partition = String::from_str(alloc, &self.partition)?;
        let name = Vec::from_slice(alloc, &self.name)?;
        Ok(Registration {
            partition,
            name,
            number: self.number,
        })
    }
}

/// The only open handle of a name in its registry. It can't be dropped: pass it to `Opens::close`.
///
/// Each call is that of the store's own handle, with the same result. The handle and its registration stay together until
/// `into_parts`, and can't be swapped with those of another handle.
pub struct Blob<B> {
    pub(crate) inner: B,
    pub(crate) registration: Registration,
}

impl<B> Blob<B> {
    ghost use Rattle.blob_opens.specs.Opens.{registration_of, store_handle};

    /// Returns the store's own handle and the registration of its open, for an owner that keeps handles of several kinds in one
    /// table. The owner ends the open by `Opens::release`. The two can't be joined again.
    pub fn into_parts(self) -> (B, Registration)
        ensures inner { result.0 ≡ store_handle self }
        ensures registration { result.1 ≡ registration_of self }
    {
        let Blob {
            inner,
            registration,
        } = self;
        (inner, registration)
    }

    /// Returns the store's own handle, for calls that aren't in the traits, such as a wrapper's tracked size.
    pub fn inner(&self) -> &B
        ensures { result.now ≡ store_handle self.now }
    {
        &self.inner
    }
}

impl<S: Durable, B: blob_base::Blob<S>> blob_base::Blob<S> for Blob<B> {
    ghost use Rattle.blob_opens.specs.Opens.{registration_of};

    ghost live = { λ b. B.live b.inner };

    ghost place = { λ b. B.place b.inner };

    ghost room = { λ b. B.room b.inner };

    ghost live_room = { λ b. B.live_room b.inner };

    ghost is_direct = { B.is_direct };

    ghost allows_read = { λ b. B.allows_read b.inner };

    ghost allows_read_buf = { λ b. B.allows_read_buf b.inner };

    ghost allows_write = { λ b. B.allows_write b.inner };

    ghost allows_resize = { λ b. B.allows_resize b.inner };

    ghost allows_sync = { λ b. B.allows_sync b.inner };

    ghost allows_start_sync = { λ b. B.allows_start_sync b.inner };

    ghost allows_reserve = { λ b. B.allows_reserve b.inner };

    // what the store's own handle leaves; it stays the handle of the same open
    ghost leaves = { λ call b before answer c after. B.leaves call b.inner before answer c.inner after × (registration_of c ≡ registration_of b) };

    ghost reads_alike = { λ b. B.reads_alike b.inner };

    ghost stale_refused = { λ b. B.stale_refused b.inner };

    ghost uninjected = { λ b. B.uninjected b.inner };

    ghost resize_uninjected = { λ b. B.resize_uninjected b.inner };

    ghost within_room = { λ b. B.within_room b.inner };

    ghost done_within = { λ b. B.done_within b.inner };

    ghost plain_done_within = { λ b. B.plain_done_within b.inner };

    ghost reserve_refused = { λ b. B.reserve_refused b.inner };

    /// The read of the store's own handle, with its errors.
    fn read_at(
        &self,
        store: &mut S,
        offset: u64,
        len: usize,
        options: ReadOptions,
    ) -> Result<IoBufsMut, Error> {
        self.inner.read_at(store, offset, len, options)
    }

    /// The read into a buffer of the store's own handle, with its errors.
    fn read_at_buf(
        &self,
        store: &mut S,
        offset: u64,
        len: usize,
        buf: IoBufsMut,
        options: ReadOptions,
    ) -> Result<IoBufsMut, Error> {
        self.inner.read_at_buf(store, offset, len, buf, options)
    }

    /// The write of the store's own handle, with its errors and what they leave.
    fn write_at(
        &mut self,
        store: &mut S,
        offset: u64,
        bytes: IoBufs,
        options: WriteOptions,
    ) -> Result<(), Error> {
        self.inner.write_at(store, offset, bytes, options)
    }

    /// The write of a slice of the store's own handle, with its errors and what they leave.
    fn write_from(
        &mut self,
        store: &mut S,
        offset: u64,
        bytes: &[u8],
        options: WriteOptions,
    ) -> Result<(), Error> {
        self.inner.write_from(store, offset, bytes, options)
    }

    /// The resize of the store's own handle, with its errors and what they leave.
    fn resize(&mut self, store: &mut S, len: u64) -> Result<(), Error> {
        self.inner.resize(store, len)
    }

    /// The sync of the store's own handle, with its errors.
    fn sync(&mut self, store: &mut S) -> Result<(), Error> {
        self.inner.sync(store)
    }

    /// The started sync of the store's own handle, with its outcome, to be given to the store's `finish`.
    fn start_sync(&mut self, store: &mut S) -> Handle {
        self.inner.start_sync(store)
    }

    /// The reservation of the store's own handle, with its errors.
    fn reserve(&mut self, store: &mut S, end: u64) -> Result<(), Error> {
        self.inner.reserve(store, end)
    }

    /// Returns a copy of the incarnation that the store's own handle was opened on, with its errors.
    fn origin(&self) -> Result<S::Origin, Error> {
        self.inner.origin()
    }

    /// Borrows the incarnation that the store's own handle was opened on. Allocates nothing.
    fn origin_ref(&self) -> &S::Origin {
        self.inner.origin_ref()
    }
}
