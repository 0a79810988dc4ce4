//! A crash of the machine, and the records after it.
ghost use Rattle.std.specs.Prelude.{◌≡◌, OnErr, IfOk, length};
ghost use Rattle.blob_header.specs.Refusals.{IsMemory};
ghost use Rattle.blob_model.specs.Opened.{IsNamed};
ghost use Rattle.blob_faulty.specs.Wrapper.{config_of};
ghost use Rattle.blob_records.specs.Records.{AreOpen, FindsNoMore, FindsRead, PutsRecord, WritesSlotsWhole, len_of, place_of};

use crate::records::{Records, Store};
use blob_base::Error;
use blob_faulty::laws::leaves;
use rand_core::Rng;
use std::alloc::Global;

/// Crashes the store. Of each blob only what might have been found before may be found.
///
/// # Errors
///
/// `Memory` only. What may be found is unchanged.
pub fn crash<R: Rng>(store: &mut Store<R>) -> Result<(), Error>
    ensures found { FindsNoMore store.old store.new }
    ensures config { config_of store.new ≡ config_of store.old }
    ensures memory { OnErr result (IsMemory result) }
{
    leaves::crashed::<R>();
    leaves::same_bytes::<blob_memory::Storage, R>();
    store.crash()?;
    Ok(())
}

/// Puts a record, crashes the store whether that succeeded or not, and recovers the records.
///
/// Its index has the record, or what it might have had before; every other index what it might have had before. The next crash
/// loses none of it.
///
/// # Errors
///
/// `Memory` of the crash, and the errors of `recover`.
pub fn put_and_crash<R: Rng>(
    alloc: Global,
    store: &mut Store<R>,
    partition: &str,
    name: &[u8],
    mut records: Records,
    index: u64,
    bytes: &[u8],
) -> Result<Records, Error>
    requires len { length bytes.now ≡ len_of records }
    requires whole { WritesSlotsWhole (config_of store.old) (len_of records) }
    ensures found { IfOk result (λ r. IsNamed (place_of records) partition.now name.now → PutsRecord records store.old r store.new index bytes.now) }
    ensures synced { IfOk result (λ r. AreOpen records store.old → FindsRead r store.new) }
{
    let len = records.record_len();
    let _ = records.put(store, index, bytes);
    crash(store)?;
    Records::recover(alloc, store, partition, name, len)
}
