//! A handle on a blob of the memory store.
ghost use Rattle.std.specs.Prelude.{◌≡◌, ℕ, ◌≤◌, ◌+◌, ◌≢◌, [], true, false, None, OnOk, IfOk, OnErr, length, take, drop};
ghost use Rattle.blob_model.specs.Bytes.{resize, write_live};
ghost use Rattle.blob_model.specs.Directory.{Directory, is_current};
ghost use Rattle.blob_model.specs.Durable.{with_overlay};
ghost use Rattle.blob_model.specs.Live.{live_after};
ghost use Rattle.blob_header.specs.Refusals.{error_of, refusal_of, IsMemory};
ghost use Rattle.blob_memory.specs.Answers.{missing, read_refusal};

use crate::origin::Origin;
use crate::storage::Storage;
use blob_base::{Error, Handle, IoBufs, IoBufsMut, ReadOptions, WriteOptions};
use blob_pages::{Bytes, overlay};
use std::alloc::AllocError;

/// A handle on a blob of the memory store. It has its own live bytes, and names the incarnation that it was opened on.
///
/// Offsets and lengths are logical, in bytes. The physical end is the logical end plus the length of the header. A call
/// with an offset or a length returns `OffsetOverflow` if the physical end doesn't fit in 64 bits, before any other
/// error. A call that returns `Memory` changes nothing, unless it says otherwise.
#[derive(Drop)]
pub struct Blob {
    pub(crate) origin: Origin,
    pub(crate) live: Bytes,
}

/// Replaces the bytes of a buffer with those of a range. Does not allocate.
fn fill(buf: &mut IoBufsMut, live: &Bytes, at: usize, len: usize)
    requires within { at + len ≤ length live.now.items }
    requires room { len ≤ buf.old.capacity }
    ensures bytes { buf.new.bytes ≡ take len (drop at live.now.items) }
    ensures room { buf.old.capacity ≤ buf.new.capacity }
{
    let _there = live.len();
    buf.set(&[]);
    let mut done = 0;
    while done < len {
        let part = live.part(at + done, len - done);
        buf.put_slice(part);
        done += part.len();
    }
}

impl Blob {
    ghost use Rattle.blob_memory.specs.Store.{place, live};

    /// Checks that a range is within the live bytes.
    pub(crate) fn readable(&self, offset: u64, len: usize) -> Result<(), Error>
        ensures within { OnOk result (offset + len ≤ length (live self.now)) }
        ensures refusal { error_of result ≡ read_refusal (place self.now) (live self.now) offset len }
    {
        let end = self.origin.logical_end(offset, len)?;
        if end > self.live.len() {
            return Err(Error::BlobInsufficientLength);
        }
        Ok(())
    }

    /// Makes the `BlobMissing` error of this handle's blob. The only error is out of memory.
    fn missing(&self) -> Result<Error, AllocError>
        ensures { IfOk result (λ error. refusal_of error ≡ missing (place self.now)) }
    {
        let alloc = self.live.allocator();
        let partition = String::from_str(alloc, self.origin.partition())?;
        let name = hex::encode(alloc, self.origin.name())?;
        Ok(Error::BlobMissing(partition, name))
    }
}

impl Blob {
    ghost use Rattle.blob_memory.specs.Store.{place, live, directory, durable, live_room, room, WriteMayReturn};
    ghost use Rattle.blob_memory.specs.declared.storage.Storage.{Storage};

    /// Writes the live bytes, and the same range of the durable bytes if the incarnation is current. Copies nothing
    /// first.
    fn write_sync(&mut self, store: &mut Storage, offset: u64, run: &[u8]) -> Result<(), Error>
        ensures allowed { WriteMayReturn self.old store.old offset run.now true (error_of result) }
        ensures live { live self.new ≡ live_after true (live self.old) offset run.now (error_of result) }
        ensures durable { OnOk result (durable store.new ≡ with_overlay (durable store.old) (place self.old) offset run.now) }
        ensures current { OnOk result (run.now ≢ [] → is_current (directory store.old) (place self.old) ≡ true) }
        ensures stale { is_current (directory store.old) (place self.old) ≡ false → durable store.new ≡ durable store.old }
        ensures err { OnErr result (durable store.new ≡ durable store.old) }
        ensures room { room self.old store.old ≤ room self.new store.new }
        ensures live_room { live_room self.old ≤ live_room self.new }
        ensures directory { directory store.new ≡ directory store.old }
        ensures place { place self.new ≡ place self.old }
    {
        if run.is_empty() {
            return Ok(());
        }
        let end = self.origin.logical_end(offset, run.len())?;
        let Some(durable) = store.contents.bytes_mut(&self.origin) else {
            let missing = self.missing()?;
            overlay::make_room(&mut self.live, end)?;
            overlay::write_live_slice(&mut self.live, offset as usize, run);
            return Err(missing);
        };
        overlay::make_room(&mut self.live, end)?;
        overlay::write_slice(durable, offset as usize, run)?;
        overlay::write_live_slice(&mut self.live, offset as usize, run);
        Ok(())
    }

    /// Writes several pieces, as `write_sync`.
    fn write_pieces_sync(
        &mut self,
        store: &mut Storage,
        offset: u64,
        bytes: &IoBufs,
    ) -> Result<(), Error>
        ensures allowed { WriteMayReturn self.old store.old offset bytes.now true (error_of result) }
        ensures live { live self.new ≡ live_after true (live self.old) offset bytes.now (error_of result) }
        ensures durable { OnOk result (durable store.new ≡ with_overlay (durable store.old) (place self.old) offset bytes.now) }
        ensures current { OnOk result (bytes.now ≢ [] → is_current (directory store.old) (place self.old) ≡ true) }
        ensures stale { is_current (directory store.old) (place self.old) ≡ false → durable store.new ≡ durable store.old }
        ensures err { OnErr result (durable store.new ≡ durable store.old) }
        ensures room { room self.old store.old ≤ room self.new store.new }
        ensures live_room { live_room self.old ≤ live_room self.new }
        ensures directory { directory store.new ≡ directory store.old }
        ensures place { place self.new ≡ place self.old }
    {
        if bytes.is_empty() {
            return Ok(());
        }
        let end = self.origin.logical_end(offset, bytes.remaining())?;
        let Some(durable) = store.contents.bytes_mut(&self.origin) else {
            let missing = self.missing()?;
            overlay::make_room(&mut self.live, end)?;
            overlay::write_live(&mut self.live, offset as usize, bytes);
            return Err(missing);
        };
        overlay::make_room(&mut self.live, end)?;
        overlay::write(durable, offset as usize, bytes)?;
        overlay::write_live(&mut self.live, offset as usize, bytes);
        Ok(())
    }
}

impl blob_base::Blob<Storage> for Blob {
    ghost use Rattle.blob_memory.specs.AnswerLaws.{reads_alike, stale_refused, write_uninjected, resize_uninjected, done_within, plain_done_within, reserve_refused, within_room};
    ghost use Rattle.blob_memory.specs.Answers.{OrMemory, AllowsWrite, end_refusal, sync_refusal};
    ghost use Rattle.blob_memory.specs.Leaves.{Leaves};
    ghost use Rattle.blob_memory.specs.Store.{place, live, directory, durable, live_room, room, room_for};

    ghost live = { live };

    ghost place = { place };

    ghost room = { room };

    ghost live_room = { live_room };

    ghost is_direct = { true };

    ghost allows_read = { λ b s offset len. OrMemory (read_refusal (place b) (live b) offset len) };

    ghost allows_read_buf = { λ b s offset len answer. answer ≡ read_refusal (place b) (live b) offset len };

    ghost allows_write = { λ b s offset bytes sync. AllowsWrite (directory s) (place b) (room_for b s) offset bytes sync };

    ghost allows_resize = { λ b s len. OrMemory (end_refusal (place b) len) };

    ghost allows_sync = { λ b s. OrMemory (sync_refusal (directory s) (place b)) };

    ghost allows_start_sync = { λ b s. OrMemory (sync_refusal (directory s) (place b)) };

    ghost allows_reserve = { λ b s end. OrMemory (end_refusal (place b) end) };

    ghost leaves = { λ call b before answer c after. Leaves call before after };

    ghost reads_alike = { reads_alike };

    ghost stale_refused = { stale_refused };

    ghost uninjected = { write_uninjected };

    ghost resize_uninjected = { resize_uninjected };

    ghost done_within = { done_within };

    ghost plain_done_within = { plain_done_within };

    ghost reserve_refused = { reserve_refused };

    ghost within_room = { within_room };

    /// Reads the handle's live bytes. A stale handle can read too. The store isn't read.
    ///
    /// # Errors
    ///
    /// With nothing changed, in this order:
    /// - `OffsetOverflow` if the physical end doesn't fit in 64 bits.
    /// - `BlobInsufficientLength` if the range ends after the live bytes.
    /// - `Memory` if the buffer can't be allocated.
    fn read_at(
        &self,
        store: &mut Storage,
        offset: u64,
        len: usize,
        options: ReadOptions,
    ) -> Result<IoBufsMut, Error> {
        let _ = store;
        let _ = options;
        self.readable(offset, len)?;
        let mut buf = IoBufsMut::with_capacity(self.live.allocator(), len)?;
        fill(&mut buf, &self.live, offset as usize, len);
        Ok(buf)
    }

    /// Reads the handle's live bytes into a buffer with a capacity of at least `len`. Does not allocate.
    ///
    /// # Errors
    ///
    /// The buffer is dropped. In this order:
    /// - `OffsetOverflow` if the physical end doesn't fit in 64 bits.
    /// - `BlobInsufficientLength` if the range ends after the live bytes.
    fn read_at_buf(
        &self,
        store: &mut Storage,
        offset: u64,
        len: usize,
        buf: IoBufsMut,
        options: ReadOptions,
    ) -> Result<IoBufsMut, Error> {
        let _ = store;
        let _ = options;
        self.readable(offset, len)?;
        let mut buf = buf;
        fill(&mut buf, &self.live, offset as usize, len);
        Ok(buf)
    }

    /// Writes the live bytes, and with SYNC the same range of the durable bytes. A gap is filled with zeros.
    ///
    /// A plain write without bytes after the end extends the live bytes with zeros to `offset`. A SYNC write without
    /// bytes returns Ok before any check and changes nothing.
    ///
    /// # Errors
    ///
    /// - `OffsetOverflow` if the physical end doesn't fit in 64 bits. Checked first.
    /// - `BlobMissing` for a SYNC write by a stale handle. The live bytes are written.
    /// - `Memory` if an allocation fails. Never for a SYNC write by a current handle within its capacity.
    fn write_at(
        &mut self,
        store: &mut Storage,
        offset: u64,
        bytes: IoBufs,
        options: WriteOptions,
    ) -> Result<(), Error> {
        if options.contains(WriteOptions::SYNC) {
            return self.write_pieces_sync(store, offset, &bytes);
        }
        let end = self.origin.logical_end(offset, bytes.remaining())?;
        overlay::make_room(&mut self.live, end)?;
        overlay::write_live(&mut self.live, offset as usize, &bytes);
        Ok(())
    }

    /// Writes a slice, as `write_at` writes its pieces. Copies nothing first.
    ///
    /// # Errors
    ///
    /// - `OffsetOverflow` if the physical end doesn't fit in 64 bits. Checked first.
    /// - `BlobMissing` for a SYNC write by a stale handle. The live bytes are written.
    /// - `Memory` if an allocation fails. Never for a SYNC write by a current handle within its capacity.
    #[inline(always)]
    fn write_from(
        &mut self,
        store: &mut Storage,
        offset: u64,
        bytes: &[u8],
        options: WriteOptions,
    ) -> Result<(), Error> {
        if options.contains(WriteOptions::SYNC) {
            return self.write_sync(store, offset, bytes);
        }
        let Some(end) = self.origin.checked_end(offset, bytes.len()) else {
            return Err(Error::OffsetOverflow);
        };
        overlay::make_room(&mut self.live, end)?;
        overlay::write_live_slice(&mut self.live, offset as usize, bytes);
        Ok(())
    }

    /// Truncates the live bytes to `len`, or extends them with zeros. A stale handle can resize too. No durable byte
    /// changes.
    ///
    /// # Errors
    ///
    /// With nothing changed, in this order:
    /// - `OffsetOverflow` if the physical end doesn't fit in 64 bits.
    /// - `Memory` if the live bytes can't grow.
    fn resize(&mut self, store: &mut Storage, len: u64) -> Result<(), Error> {
        let _ = store;
        let len = self.origin.logical_end(len, 0)?;
        overlay::resize(&mut self.live, len)?;
        Ok(())
    }

    /// Replaces the durable bytes of the incarnation with this handle's live bytes. The live bytes of other handles
    /// don't count.
    ///
    /// # Errors
    ///
    /// With no durable byte changed:
    /// - `BlobMissing` if the handle is stale.
    /// - `Memory` if an allocation fails.
    fn sync(&mut self, store: &mut Storage) -> Result<(), Error> {
        let Some(durable) = store.contents.bytes_mut(&self.origin) else {
            return Err(self.missing()?);
        };
        overlay::replace(durable, &mut self.live)?;
        Ok(())
    }

    /// Syncs immediately. The returned handle has the outcome and no marker, and may be dropped.
    ///
    /// # Errors
    ///
    /// The outcome is the result of `sync`. With no durable byte changed:
    /// - `BlobMissing` if the handle is stale.
    /// - `Memory` if an allocation fails.
    fn start_sync(&mut self, store: &mut Storage) -> Handle {
        let outcome = self.sync(store);
        Handle::ready(outcome)
    }

    /// Reserves capacity for the live bytes up to the logical `end`. A current handle reserves it for the durable bytes
    /// too.
    ///
    /// # Errors
    ///
    /// In this order:
    /// - `OffsetOverflow` if the physical end doesn't fit in 64 bits.
    /// - `Memory` if the capacity can't be allocated. That of the live bytes may have grown.
    fn reserve(&mut self, store: &mut Storage, end: u64) -> Result<(), Error> {
        let end = self.origin.logical_end(end, 0)?;
        overlay::make_room(&mut self.live, end)?;
        let Some(durable) = store.contents.bytes_mut(&self.origin) else {
            return Ok(());
        };
        overlay::make_room(durable, end)?;
        Ok(())
    }

    /// Returns a copy of the origin that the handle was opened on.
    ///
    /// # Errors
    ///
    /// `Memory` if the copy can't be allocated, with nothing changed.
    fn origin(&self) -> Result<Origin, Error> {
        Ok(self.origin.clone()?)
    }

    /// Returns a reference to the origin that the handle was opened on. Does not allocate.
    fn origin_ref(&self) -> &Origin {
        &self.origin
    }
}
