//! The changes of durable bytes that a crash makes: the parts of pending writes and resizes that it keeps.
ghost use Rattle.std.specs.Prelude.{◌≡◌, ◌≤◌, ◌+◌, ℕ, OnOk, IfSome, is_some, length};
ghost use Rattle.std.specs.Borrow.{sem};
ghost use Rattle.std.specs.Option.{option_copied_mut};
ghost use Rattle.blob_model.specs.Bytes.{resize};
ghost use Rattle.blob_model.specs.Directory.{is_current};
ghost use Rattle.blob_model.specs.Runs.{is_chosen};

use crate::blob::Blob;
use crate::origin::Origin;
use crate::storage::Storage;
use blob_base::{Error, IoBufs};
use blob_pages::{Bytes, overlay};

impl Storage {
    ghost use Rattle.blob_memory.specs.Retained.{KeepsRoom, NeedsRoom, NeedsWriteRoom, Retains, RetainsWrite};
    ghost use Rattle.blob_memory.specs.Contents.{bytes_of};
    ghost use Rattle.blob_memory.specs.StorageLends.{LendsKept};
    ghost use Rattle.blob_memory.specs.Store.{directory, durable, HasCrashRoom};

    /// Writes the selected bytes to durable storage at logical `offset`. `keep[i]` selects `bytes[i]`. The blob grows
    /// only as far as the last selected byte. Does nothing if the incarnation isn't current. Open handles keep their
    /// live bytes.
    ///
    /// # Errors
    ///
    /// With nothing changed:
    /// - `OffsetOverflow` if the physical end doesn't fit in 64 bits. Checked first.
    /// - `Memory` if the durable bytes can't grow.
    pub fn retain_write(
        &mut self,
        origin: &Origin,
        offset: u64,
        bytes: &IoBufs,
        keep: &[bool],
    ) -> Result<(), Error>
        requires { length keep.now ≡ length bytes.now }
        ensures room { NeedsWriteRoom result self.old origin.now offset (length bytes.now) (is_chosen keep.now) }
        ensures retained { RetainsWrite result self.old self.new origin.now offset bytes.now keep.now }
    {
        origin.logical_end(offset, bytes.remaining())?;
        let Some(durable) = self.contents.bytes_mut(origin) else {
            return Ok(());
        };
        overlay::write_chosen(durable, offset as usize, bytes, keep)?;
        Ok(())
    }

    /// Truncates the durable bytes to the logical length `len`, or extends them with zeros. Does nothing if the
    /// incarnation isn't current. Open handles keep their live bytes.
    ///
    /// # Errors
    ///
    /// With nothing changed:
    /// - `OffsetOverflow` if the physical end doesn't fit in 64 bits. Checked first.
    /// - `Memory` if the durable bytes can't grow.
    pub fn retain_resize(&mut self, origin: &Origin, len: u64) -> Result<(), Error>
        ensures room { NeedsRoom result self.old origin.now (len + origin.now.start) len }
        ensures retained { Retains result self.old self.new origin.now (λ x. resize x len) }
    {
        let len = origin.logical_end(len, 0)?;
        let Some(durable) = self.contents.bytes_mut(origin) else {
            return Ok(());
        };
        overlay::resize(durable, len)?;
        Ok(())
    }

    /// Returns the durable logical bytes of an incarnation for the change that a crash makes, or None if the
    /// incarnation isn't current. Open handles keep their live bytes.
    pub fn durable_mut(&mut self, origin: &Origin) -> Option<&mut Bytes>
        ensures* writes_back { sem 𝓛 (LendsKept self.entry origin.now result) }
        ensures value { bytes_of (option_copied_mut result) ≡ durable self.old origin.now }
        ensures current { is_some result ≡ is_current (directory self.old) origin.now }
        ensures room { (n : ℕ) → HasCrashRoom self.old origin.now n → IfSome result (λ bytes. n ≤ bytes.now.capacity) }
    {
        self.contents.bytes_mut(origin)
    }

    /// Reserves capacity for `len` durable logical bytes of an incarnation. Does nothing if the incarnation isn't
    /// current. No durable byte changes.
    ///
    /// # Errors
    ///
    /// - `OffsetOverflow` if the physical end doesn't fit in 64 bits. Checked first.
    /// - `Memory` if the capacity can't be allocated.
    pub fn reserve_crash(&mut self, origin: &Origin, len: u64) -> Result<(), Error>
        ensures room { NeedsRoom result self.old origin.now (len + origin.now.start) len }
        ensures ok { OnOk result (HasCrashRoom self.new origin.now len) }
        ensures durable { durable self.new ≡ durable self.old }
        ensures kept { KeepsRoom self.old self.new }
    {
        let len = origin.logical_end(len, 0)?;
        let Some(durable) = self.contents.bytes_mut(origin) else {
            return Ok(());
        };
        overlay::make_room(durable, len)?;
        Ok(())
    }
}

impl Blob {
    ghost use Rattle.blob_memory.specs.Retained.{NeedsRoom, NeedsWriteRoom, Retains, RetainsWrite};
    ghost use Rattle.blob_memory.specs.Store.{place};

    /// Writes the selected bytes to durable storage at logical `offset`. `keep[i]` selects `bytes[i]`. The blob grows
    /// only as far as the last selected byte. Does nothing if the handle is stale. Open handles keep their live bytes.
    ///
    /// # Errors
    ///
    /// With nothing changed:
    /// - `OffsetOverflow` if the physical end doesn't fit in 64 bits. Checked first.
    /// - `Memory` if the durable bytes can't grow.
    pub fn retain_crash_write(
        &self,
        store: &mut Storage,
        offset: u64,
        bytes: &IoBufs,
        keep: &[bool],
    ) -> Result<(), Error>
        requires { length keep.now ≡ length bytes.now }
        ensures room { NeedsWriteRoom result store.old (place self.now) offset (length bytes.now) (is_chosen keep.now) }
        ensures retained { RetainsWrite result store.old store.new (place self.now) offset bytes.now keep.now }
    {
        store.retain_write(&self.origin, offset, bytes, keep)
    }

    /// Truncates the durable bytes to the logical length `len`, or extends them with zeros. Does nothing if the handle
    /// is stale. Open handles keep their live bytes.
    ///
    /// # Errors
    ///
    /// With nothing changed:
    /// - `OffsetOverflow` if the physical end doesn't fit in 64 bits. Checked first.
    /// - `Memory` if the durable bytes can't grow.
    pub fn retain_crash_resize(&self, store: &mut Storage, len: u64) -> Result<(), Error>
        ensures room { NeedsRoom result store.old (place self.now) (len + (place self.now).start) len }
        ensures retained { Retains result store.old store.new (place self.now) (λ x. resize x len) }
    {
        store.retain_resize(&self.origin, len)
    }
}
