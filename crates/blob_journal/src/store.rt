//! The store below files, and the blob of a file in it.
ghost use Rattle.std.specs.Prelude.{◌≡◌, ◌≤◌, codes, length, take, IfOk, None, OnErr, OnOk, Some, [], true};
ghost use Rattle.blob_model.specs.Directory.{current, is_current};
ghost use Rattle.blob_model.specs.Places.{Place};
ghost use Rattle.blob_memory.specs.Store.{directory, durable, live, place};
ghost use Rattle.blob_faulty.specs.Wrapper.{inner_of, inside, size_of};
ghost use Rattle.blob_journal.specs.Incarnations.{IsIncarnation, KeepsOtherBlobs};
ghost use Rattle.blob_header.specs.PartitionName.{is_partition_name};
ghost use Rattle.blob_header.specs.Refusals.{IsMemory, error_of, refusal_of};
ghost use Rattle.blob_journal.specs.Limits.{DrawsNothing, FailsAtLimits, IsRemoval, OpensQuietly, is_missing};
ghost use Rattle.blob_journal.specs.Currents.{BeginsNext, HasNoBlob, IsGiven, KeepsBytes, KeepsPending, SamePending};
ghost use Rattle.blob_journal.specs.Stores.{KeepsStore, KeepsStoreBut};

use blob_base::laws::opens::{accepted_opens, numbers_are_given};
use blob_base::{Blob, Error, Storage};
use blob_faulty::laws::leaves;
use blob_faulty::laws::names::{opens, removals};
use rand_core::Rng;
use std::alloc::Global;

/// A fault wrapper over the memory store.
pub type Store<R> = blob_faulty::Storage<blob_memory::Storage, R>;

/// The wrapper's handle of a blob.
pub type Handle = blob_faulty::Blob<blob_memory::Blob>;

/// The partition of files.
pub(crate) const FILES: &str = "f";

/// The partition of journals.
pub(crate) const JOURNALS: &str = "j";

/// Opens a blob, and returns its size. No incarnation ends. The errors are those of the layer's open.
pub(crate) fn open<R: Rng>(
    store: &mut Store<R>,
    partition: &str,
    name: &[u8],
) -> Result<(Handle, u64), Error>
    ensures partition { IfOk result (λ r. (place (inside r.0)).partition ≡ partition.now) }
    ensures name { IfOk result (λ r. (place (inside r.0)).name ≡ name.now) }
    ensures current { IfOk result (λ r. is_current (directory (inner_of store.new)) (place (inside r.0)) ≡ true) }
    ensures found { IfOk result (λ r. (o : Place) → current (directory (inner_of store.old)) partition.now name.now ≡ Some o → durable (inner_of store.old) o ≡ Some (live (inside r.0))) }
    ensures durable { IfOk result (λ r. durable (inner_of store.new) (place (inside r.0)) ≡ Some (live (inside r.0))) }
    ensures size { IfOk result (λ r. r.1 ≡ length (live (inside r.0))) }
    ensures keeps { KeepsStore store.old store.new }
    ensures given { IfOk result (λ r. IsGiven store.new (place (inside r.0))) }
    ensures pending { SamePending store.old store.new }
    ensures begun { IfOk result (λ r. (directory (inner_of store.old)).file partition.now name.now ≡ None → live (inside r.0) ≡ []) }
    ensures numbered { IfOk result (λ r. BeginsNext partition.now name.now store.old (place (inside r.0))) }
    ensures others { KeepsOtherBlobs partition.now name.now store.old store.new }
    ensures incarnation { IfOk result (λ r. IsIncarnation store.new partition.now name.now (place (inside r.0))) }
    ensures tracked { IfOk result (λ r. size_of r.0 ≡ length (live (inside r.0))) }
    ensures errors { OpensQuietly store.old → is_partition_name partition.now ≡ true → FailsAtLimits store.new result }
{
    accepted_opens();
    numbers_are_given::<blob_memory::Storage>();
    opens::<blob_memory::Storage, R>();
    leaves::accepted_opens::<blob_memory::Storage, R>();
    leaves::same_bytes::<blob_memory::Storage, R>();
    let (blob, size) = store.open(partition, name)?;
    Ok((blob, size))
}

/// Opens a blob, and discards what is pending of it. No incarnation ends. The errors are those of the layer's open.
pub(crate) fn reopen<R: Rng>(
    store: &mut Store<R>,
    partition: &str,
    name: &[u8],
) -> Result<Handle, Error>
    ensures partition { IfOk result (λ blob. (place (inside blob)).partition ≡ partition.now) }
    ensures keeps { KeepsStore store.old store.new }
    ensures given { IfOk result (λ blob. IsGiven store.new (place (inside blob))) }
    ensures incarnation { IfOk result (λ blob. IsIncarnation store.new partition.now name.now (place (inside blob))) }
    ensures durable { IfOk result (λ blob. durable (inner_of store.new) (place (inside blob)) ≡ Some (live (inside blob))) }
    ensures tracked { IfOk result (λ blob. size_of blob ≡ length (live (inside blob))) }
{
    leaves::same_bytes::<blob_memory::Storage, R>();
    let (blob, _) = open(store, partition, name)?;
    let _ = store.admit(partition, name);
    Ok(blob)
}

/// Removes a blob. Nothing has changed after an error, which is one of the layer's removal.
pub(crate) fn remove<R: Rng>(
    store: &mut Store<R>,
    partition: &str,
    name: &[u8],
) -> Result<(), Error>
    ensures gone { OnOk result (HasNoBlob partition.now name.now store.new) }
    ensures missing { is_missing (error_of result) ≡ true → HasNoBlob partition.now name.now store.new }
    ensures keeps { KeepsStoreBut partition.now name.now store.old store.new }
    ensures bytes { KeepsBytes partition.now name.now store.old store.new }
    ensures pending { KeepsPending partition.now name.now store.old store.new }
    ensures others { KeepsOtherBlobs partition.now name.now store.old store.new }
    ensures errors { DrawsNothing store.old → is_partition_name partition.now ≡ true → IsRemoval (error_of result) }
{
    leaves::same_bytes::<blob_memory::Storage, R>();
    removals::<blob_memory::Storage, R>();
    store.remove(partition, Some(name))?;
    Ok(())
}

/// Returns whether a removal was refused since there is no such blob.
fn says_missing(error: &Error) -> bool
    ensures { result ≡ is_missing (Some (refusal_of error.now)) }
{
    matches!(error, Error::BlobMissing(..) | Error::PartitionMissing(..))
}

/// Removes a blob if there is one. Nothing has changed after an error. If the wrapper draws nothing, that is `Memory` only.
pub(crate) fn discard<R: Rng>(
    store: &mut Store<R>,
    partition: &str,
    name: &[u8],
) -> Result<(), Error>
    ensures gone { OnOk result (HasNoBlob partition.now name.now store.new) }
    ensures keeps { KeepsStoreBut partition.now name.now store.old store.new }
    ensures others { KeepsOtherBlobs partition.now name.now store.old store.new }
    ensures errors { DrawsNothing store.old → is_partition_name partition.now ≡ true → OnErr result (IsMemory result) }
{
    let Err(error) = remove(store, partition, name) else {
        return Ok(());
    };
    if says_missing(&error) {
        return Ok(());
    }
    Err(error)
}

/// Returns all bytes of a blob that calls see, by its size. The errors are those of the layer's read, and `Memory`.
pub(crate) fn read_all<R: Rng>(
    alloc: Global,
    store: &mut Store<R>,
    blob: &Handle,
    size: u64,
) -> Result<Vec<u8>, Error>
    ensures bytes { IfOk result (λ bytes. size ≡ length (live (inside blob.now)) → bytes.items ≡ live (inside blob.now)) }
    ensures read { IfOk result (λ bytes. bytes.items ≡ take size (live (inside blob.now))) }
    ensures inner { inner_of store.new ≡ inner_of store.old }
    ensures keeps { KeepsStore store.old store.new }
    ensures pending { SamePending store.old store.new }
    ensures errors { DrawsNothing store.old → size ≤ length (live (inside blob.now)) → FailsAtLimits store.new result }
{
    leaves::same_bytes::<blob_memory::Storage, R>();
    let mut bytes = Vec::new(alloc);
    bytes.resize(size as usize, 0)?;
    let buf = bytes.as_mut_slice();
    blob.read_into(store, 0, buf)?;
    Ok(bytes)
}

/// The open blob of a file.
#[derive(Drop)]
pub struct FileBlob {
    pub(crate) blob: Handle,
    ghost partition: { (place (inside blob)).partition ≡ codes "f" },
}
