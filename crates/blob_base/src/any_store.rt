// Operations over any store. They rely only on the laws of the traits.
ghost use Rattle.std.specs.Prelude.{◌≡◌, ◌+◌, ◌<◌, ◌≤◌, ℕ, List, [], true, false, Some, None, OnOk, OnErr, IfOk, length, option_copied};
ghost use Rattle.blob_model.specs.Bytes.{resize, write_live};
ghost use Rattle.blob_base.specs.Callers.{BeforeOrBetween, MayWriteLive, MayWriteOnErr, MayWriteRange, PublishesResize, PublishesWrite, ResizesAndStarts, WriteDrops, WritesAndRemoves, WritesAndSyncs};
ghost use Rattle.blob_base.specs.StoreChanges.{DropsNames, Overlays};
ghost use Rattle.blob_model.specs.Directory.{is_current};
ghost use Rattle.blob_model.specs.Live.{live_written};
ghost use Rattle.blob_base.specs.Options.{is_sync};
ghost use Rattle.blob_header.specs.Refusals.{error_of, IsMemory};

use crate::{Blob, Durable, IoBufs, Storage, WriteOptions};
use blob_header::Error;

/// Writes without SYNC, then syncs. The written bytes are durable. No other incarnation changes.
///
/// # Errors
///
/// Those of the write and of the sync. If the sync fails, the live bytes keep the write.
pub fn write_and_sync<S: Durable, B: Blob<S>>(
    store: &mut S,
    blob: &mut B,
    offset: u64,
    bytes: IoBufs,
    plain: WriteOptions,
) -> Result<(), Error>
    requires { is_sync plain ≡ false }
    ensures answer { WritesAndSyncs S.Durable B.Blob blob.old store.old offset bytes (error_of result) }
    ensures live { OnOk result (B.live blob.new ≡ write_live (B.live blob.old) offset bytes) }
    ensures durable { OnOk result (PublishesWrite S.Durable B.Blob blob.old store.old store.new offset bytes) }
    ensures directory { S.directory store.new ≡ S.directory store.old }
{
    blob.write_at(store, offset, bytes, plain)?;
    blob.sync(store)
}

/// Resizes, then starts a sync and finishes it.
///
/// # Errors
///
/// Those of the resize, or the outcome of the sync. No durable byte changes. If the sync fails, the live bytes keep the
/// resize.
pub fn resize_and_start_sync<S: Storage, B: Blob<S>>(
    store: &mut S,
    blob: &mut B,
    len: u64,
) -> Result<(), Error>
    ensures answer { ResizesAndStarts S.Durable B.Blob blob.old store.old len (error_of result) }
    ensures live { OnOk result (B.live blob.new ≡ resize (B.live blob.old) len) }
    ensures durable { OnOk result (PublishesResize S.Durable B.Blob blob.old store.old store.new len) }

    // after an error
    ensures memory { IsMemory result → BeforeOrBetween (B.live blob.old) (resize (B.live blob.old) len) (B.live blob.new) }
    ensures err { OnErr result (S.durable store.new ≡ S.durable store.old) }

    ensures directory { S.directory store.new ≡ S.directory store.old }
{
    blob.resize(store, len)?;
    let handle = blob.start_sync(store);
    store.finish(handle)
}

/// Writes with SYNC, then removes `name` from `partition`.
///
/// # Errors
///
/// Those of the write and of the removal. If the removal fails, the write stays.
pub fn write_and_remove<S: Storage, B: Blob<S>>(
    store: &mut S,
    blob: &mut B,
    offset: u64,
    bytes: IoBufs,
    synced: WriteOptions,
    partition: &str,
    name: &[u8],
) -> Result<(), Error>
    requires { is_sync synced ≡ true }
    ensures answer { WritesAndRemoves S.Storage B.Blob blob.old store.old offset bytes partition.now name.now result }
    ensures live { OnOk result (B.live blob.new ≡ live_written true (B.live blob.old) offset bytes) }
    ensures durable { WriteDrops S.Durable B.Blob blob.old store.old store.new offset bytes partition.now name.now result }
    ensures directory { OnOk result (DropsNames S.Durable store.old store.new partition.now (Some name.now)) }

    // after an error of the write or of the removal
    ensures memory_live { IsMemory result → MayWriteLive (B.live blob.old) offset bytes (B.live blob.new) }
    ensures memory { IsMemory result → MayWriteRange S.Durable B.Blob blob.old store.old store.new offset bytes }
    ensures direct { B.is_direct ≡ true → MayWriteOnErr S.Durable B.Blob blob.old store.old store.new offset bytes result }
    ensures err { OnErr result (S.directory store.new ≡ S.directory store.old) }
{
    blob.write_at(store, offset, bytes, synced)?;
    store.remove(partition, Some(name))
}

/// Reserves capacity up to `end`, then writes with SYNC within it. The handle must be current, and the store must
/// inject nothing; then the write returns Ok.
///
/// # Errors
///
/// Those of the reservation; no byte changes. The inner result is the write's, always Ok.
pub fn write_within_room<S: Durable, B: Blob<S>>(
    store: &mut S,
    blob: &mut B,
    end: u64,
    offset: u64,
    bytes: IoBufs,
    synced: WriteOptions,
) -> Result<Result<(), Error>, Error>
    requires synced { is_sync synced ≡ true }
    requires direct { B.is_direct ≡ true }
    requires current { is_current (S.directory store.old) (B.place blob.old) ≡ true }
    requires inside { offset + length bytes ≤ end }
    ensures reserved { OnErr result (B.allows_reserve blob.old store.old end (error_of result)) }
    ensures done { IfOk result (λ done. done ≡ Ok tt) }
    ensures live { OnOk result (B.live blob.new ≡ live_written true (B.live blob.old) offset bytes) }
    ensures durable { OnOk result (Overlays S.Durable store.old store.new (B.place blob.old) offset bytes) }
    ensures err { OnErr result ((B.live blob.new ≡ B.live blob.old) × (S.durable store.new ≡ S.durable store.old)) }
    ensures directory { S.directory store.new ≡ S.directory store.old }
{
    blob.reserve(store, end)?;
    Ok(blob.write_at(store, offset, bytes, synced))
}

/// Reserves capacity up to `end`, then writes without SYNC within it. The store must inject nothing; then the write
/// returns Ok, on a stale handle too.
///
/// # Errors
///
/// Those of the reservation; no byte changes. The inner result is the write's, always Ok.
pub fn plain_write_within_room<S: Durable, B: Blob<S>>(
    store: &mut S,
    blob: &mut B,
    end: u64,
    offset: u64,
    bytes: IoBufs,
    plain: WriteOptions,
) -> Result<Result<(), Error>, Error>
    requires plain { is_sync plain ≡ false }
    requires direct { B.is_direct ≡ true }
    requires some { 0 < offset + length bytes }
    requires inside { offset + length bytes ≤ end }
    ensures reserved { OnErr result (B.allows_reserve blob.old store.old end (error_of result)) }
    ensures done { IfOk result (λ done. done ≡ Ok tt) }
    ensures live { OnOk result (B.live blob.new ≡ write_live (B.live blob.old) offset bytes) }
    ensures err { OnErr result (B.live blob.new ≡ B.live blob.old) }
    ensures durable { S.durable store.new ≡ S.durable store.old }
    ensures directory { S.directory store.new ≡ S.directory store.old }
{
    blob.reserve(store, end)?;
    Ok(blob.write_at(store, offset, bytes, plain))
}
