//! The calls of the wrapper that a disk makes, each by what it does to the outcomes of a crash.
ghost use Rattle.std.specs.Prelude.{◌≡◌, ◌⊎◌, ◌≤◌, ◌<◌, ℕ, List, Some, false, length, OnOk, OnErr};
ghost use Rattle.std.specs.IoError.{error_kind};
ghost use Rattle.blob_header.specs.Refusals.{refusal_of, error_of};
ghost use Rattle.blob_faulty.specs.OverMemory.{MayReadInto};
ghost use Rattle.blob_faulty.specs.Wrapper.{inner_of, KeepsRecords};
ghost use Rattle.blob_memory.specs.Store.{durable};
ghost use Rattle.sqlite_disk.specs.Disk.{Holds, Only, Torn, Mixed, Cut, Follows, MoreFaults};
ghost use Rattle.sqlite_disk.specs.Refusal.{is_no_room};
ghost use Rattle.blob_disk.specs.Answers.{kind_of};
ghost use Rattle.blob_disk.specs.Crashes.{IsLeft, MayCrash, MayReopen};
ghost use Rattle.blob_disk.specs.Outcomes.{KeepsOutcomes, LeavesDisk, Leads, IsCurrent, IsFile, IsDrawn, IsOpenable, durable_at, live_of, outcomes};

use crate::{NAME, PARTITION};
use blob_base::laws::opens::accepted_opens;
use blob_base::{Blob, Error, Storage, WriteOptions};
use blob_faulty::laws::current_handles::{found, live_bytes, sizes};
use blob_faulty::laws::kept_records;
use blob_faulty::laws::outcomes::{entries, recorded};
use rand_core::Rng;
use std::io;

pub(crate) type Wrapper<R> = blob_faulty::Storage<blob_memory::Storage, R>;

pub(crate) type Handle = blob_faulty::Blob<blob_memory::Blob>;

/// Counts a call that failed, and says why.
pub(crate) fn count(faults: &mut u64, error: Error) -> io::Error
    ensures kind { error_kind result ≡ kind_of (refusal_of error) }
    ensures room { is_no_room result ≡ false }
    ensures more { MoreFaults faults.old faults.new }
    ensures grows { faults.old ≤ faults.new }
{
    *faults = faults.saturating_add(1);
    match error {
        Error::Memory(_) => io::ErrorKind::OutOfMemory.into(),
        _ => io::Error::other("a fault of the blob"),
    }
}

/// Reads the bytes at an offset.
pub(crate) fn read<R: Rng>(
    store: &mut Wrapper<R>,
    blob: &Handle,
    at: usize,
    buf: &mut [u8],
) -> Result<(), Error>
    ensures bytes { OnOk result (Holds (live_of blob.now) at buf.new) }
    ensures allowed { MayReadInto R.stream blob.now store.old at (length buf.old) (error_of result) }
    ensures keeps { LeavesDisk blob.now store.old blob.now store.new }
    ensures outcomes { KeepsOutcomes blob.now store.old blob.now store.new }
{
    kept_records::<blob_memory::Storage, R>();
    blob.read_into(store, at as u64, buf)?;
    Ok(())
}

/// A plain write of bytes at an offset.
pub(crate) fn write<R: Rng>(
    store: &mut Wrapper<R>,
    blob: &mut Handle,
    at: usize,
    bytes: &[u8],
) -> Result<(), Error>
    requires { IsFile blob.old store.old }
    ensures written { OnOk result (0 < length bytes.now → Holds (live_of blob.new) at bytes.now) }
    ensures others { Torn at (length bytes.now) (live_of blob.old) (live_of blob.new) }
    ensures keeps { LeavesDisk blob.old store.old blob.new store.new }
    ensures allowed { ⟦<Handle as Blob<Wrapper<R>>>⟧.allows_write blob.old store.old at bytes.now false (error_of result) }
    ensures durable { OnOk result (durable_at blob.new store.new ≡ durable_at blob.old store.old) }
    ensures mixes { Mixed at bytes.now (live_of blob.old) (live_of blob.new) }
    ensures mixed { Follows (Mixed at bytes.now) (outcomes blob.old store.old) (outcomes blob.new store.new) }
    ensures leads { Leads (Mixed at bytes.now) (outcomes blob.old store.old) (outcomes blob.new store.new) }
    ensures crash { Follows (Torn at (length bytes.now)) (outcomes blob.old store.old) (outcomes blob.new store.new) }
{
    recorded::<blob_memory::Storage, R>();
    entries();
    found::<R>();
    sizes();
    live_bytes();
    blob.write_from(store, at as u64, bytes, WriteOptions::default())
}

/// Makes the live bytes as long as `len`, or leaves them.
pub(crate) fn resize<R: Rng>(
    store: &mut Wrapper<R>,
    blob: &mut Handle,
    len: usize,
) -> Result<(), Error>
    requires { IsFile blob.old store.old }
    ensures len { OnOk result (length (live_of blob.new) ≡ len) }
    ensures others { Cut len (live_of blob.old) (live_of blob.new) }
    ensures allowed { ⟦<Handle as Blob<Wrapper<R>>>⟧.allows_resize blob.old store.old len (error_of result) }
    ensures durable { durable_at blob.new store.new ≡ durable_at blob.old store.old }
    ensures keeps { LeavesDisk blob.old store.old blob.new store.new }
    ensures crash { Follows (Cut len) (outcomes blob.old store.old) (outcomes blob.new store.new) }
    ensures leads { Leads (Cut len) (outcomes blob.old store.old) (outcomes blob.new store.new) }
{
    recorded::<blob_memory::Storage, R>();
    entries();
    sizes();
    live_bytes();
    blob.resize(store, len as u64)
}

/// Makes the live bytes durable.
pub(crate) fn sync<R: Rng>(store: &mut Wrapper<R>, blob: &mut Handle) -> Result<(), Error>
    ensures durable { OnOk result (Only (live_of blob.old) (outcomes blob.new store.new)) }
    ensures keeps { LeavesDisk blob.old store.old blob.new store.new }
    ensures live { live_of blob.new ≡ live_of blob.old }
    ensures allowed { ⟦<Handle as Blob<Wrapper<R>>>⟧.allows_sync blob.old store.old (error_of result) }
    ensures kept { OnErr result (KeepsOutcomes blob.old store.old blob.new store.new) }
    ensures crash { (c : List ℕ) → outcomes blob.new store.new c → outcomes blob.old store.old c }
{
    kept_records::<blob_memory::Storage, R>();
    blob.sync(store)?;
    Ok(())
}

/// Opens what is durable, and replaces the handle. Keeps the handle if the open fails.
fn reopen<R: Rng>(store: &mut Wrapper<R>, blob: &mut Handle) -> Result<(), Error>
    requires here { IsCurrent blob.old store.old }
    requires openable { IsOpenable store.old }
    ensures answer { MayReopen R.stream store.old (error_of result) }
    ensures found { OnOk result (durable_at blob.old store.old ≡ Some (live_of blob.new)) }
    ensures kept { OnErr result (live_of blob.new ≡ live_of blob.old) }
    ensures live { (live_of blob.new ≡ live_of blob.old) ⊎ (durable_at blob.old store.old ≡ Some (live_of blob.new)) }
    ensures durable { durable (inner_of store.new) ≡ durable (inner_of store.old) }
    ensures records { KeepsRecords (λ o. o) store.old store.new }
    ensures keeps { LeavesDisk blob.old store.old blob.new store.new }
{
    accepted_opens();
    kept_records::<blob_memory::Storage, R>();
    match store.open(PARTITION, NAME) {
        Ok((opened, _)) => {
            *blob = opened;
            Ok(())
        }
        Err(error) => Err(error),
    }
}

/// Loses what is drawn of what was not synced, and opens what is left. If memory runs out for either, or the draw of
/// the open is true, all that was written stays, as when only the process dies.
pub(crate) fn lose<R: Rng>(store: &mut Wrapper<R>, blob: &mut Handle) -> Result<(), Error>
    requires here { IsCurrent blob.old store.old }
    requires openable { IsOpenable store.old }
    ensures answer { MayCrash R.stream store.old (error_of result) }
    ensures drawn { OnOk result (IsLeft R.stream blob.old store.old (live_of blob.new)) }
    ensures lost { OnOk result (IsDrawn blob.old store.old (live_of blob.new)) }
    ensures kept { OnErr result (live_of blob.new ≡ live_of blob.old) }
    ensures left { outcomes blob.old store.old (live_of blob.new) }
    ensures keeps { LeavesDisk blob.old store.old blob.new store.new }
    ensures crash { (c : List ℕ) → outcomes blob.new store.new c → outcomes blob.old store.old c }
{
    kept_records::<blob_memory::Storage, R>();
    match store.crash() {
        Ok(_) => reopen(store, blob),
        Err(error) => Err(error),
    }
}
