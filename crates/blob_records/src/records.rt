//! Records of one length in one blob, each in its slot.
ghost use Rattle.std.specs.Prelude.{◌≡◌, ◌≢◌, ◌↔◌, ℕ, IsTrue, List, OnOk, OnErr, IfOk, length};
ghost use Rattle.blob_header.specs.Refusals.{IsMemory, error_of};
ghost use Rattle.blob_faulty.specs.Wrapper.{config_of};
ghost use Rattle.blob_records.specs.Answers.{MayGet, MayPut, MayRecover, MaySync};
ghost use Rattle.blob_records.specs.Records.{AreOpen, AreSlots, FindsNoMore, FindsRead, FindsReadFrom, FindsRecords, PutsRecord, SameRecords, StillPasses, WritesSlotsWhole, len_of, place_of, record_at};

use blob_base::laws::opens::{accepted_opens, numbers_are_given};
use blob_base::{Blob, Error, Storage, WriteOptions};
use blob_faulty::laws::current_handles::{found, sizes};
use blob_faulty::laws::fits::writes;
use blob_faulty::laws::leaves;
use blob_faulty::laws::names::opens;
use blob_faulty::{Config, PartialWriteMode};
use rand_core::Rng;
use std::alloc::Global;

/// A fault wrapper over the memory store.
pub type Store<R> = blob_faulty::Storage<blob_memory::Storage, R>;

/// The wrapper's handle of the records' blob.
pub type Handle = blob_faulty::Blob<blob_memory::Blob>;

/// Open records of `len` bytes each. Index `i` has the bytes from `i * len` on. A record that was never put is zeros.
#[derive(Drop)]
pub struct Records {
    alloc: Global,
    blob: Handle,
    len: u64,
}

/// Returns whether a sector is one slot or several.
fn is_slots(mode: PartialWriteMode, len: u64) -> bool
    ensures { IsTrue result ↔ AreSlots mode len }
{
    match mode {
        PartialWriteMode::Prefix | PartialWriteMode::Subset => false,
        PartialWriteMode::Sectors(size) => len > 0 && size.get() % len == 0,
    }
}

/// Returns whether `put` may be called under this configuration with records of `len` bytes: in `Sectors` mode, with a retention
/// rate above zero, if a sector is one slot or several. Then an unsynced slot survives a crash whole or not at all.
pub fn keeps_slots_whole(config: &Config, len: u64) -> bool
    ensures { IsTrue result ↔ WritesSlotsWhole config.now len }
{
    let Some(writes) = &config.write_rate else {
        return false;
    };
    !writes.retention_rate.is_zero() && is_slots(writes.mode, len)
}

impl Records {
    /// Returns the length of a record.
    pub fn record_len(&self) -> u64
        ensures { result ≡ len_of self.now }
    {
        self.len
    }

    /// Writes a record, without a sync. From now on its index has it, or what the index had before: never a mixture.
    /// `get` returns it if the call returned Ok.
    ///
    /// # Errors
    ///
    /// `OffsetOverflow` if the slot's end doesn't fit in 64 bits, `Memory`, and the other errors of the wrapper's write. Other
    /// indices are unchanged. `Memory` changes no record.
    pub fn put<R: Rng>(
        &mut self,
        store: &mut Store<R>,
        index: u64,
        bytes: &[u8],
    ) -> Result<(), Error>
        requires len { length bytes.now ≡ len_of self.old }
        requires whole { WritesSlotsWhole (config_of store.old) (len_of self.old) }
        ensures answer { MayPut R.stream self.old store.old index bytes.now (error_of result) }
        ensures found { PutsRecord self.old store.old self.new store.new index bytes.now }
        ensures read { OnOk result (record_at self.new index ≡ bytes.now) }
        ensures others { AreOpen self.old store.old → (i : ℕ) → i ≢ index → record_at self.new i ≡ record_at self.old i }
        ensures memory { IsMemory result → SameRecords self.old store.old self.new store.new }
        ensures len { len_of self.new ≡ len_of self.old }
        ensures place { place_of self.new ≡ place_of self.old }
        ensures config { config_of store.new ≡ config_of store.old }
    {
        leaves::written::<blob_memory::Storage, R>();
        writes();
        found::<R>();
        sizes();
        let Some(offset) = index.checked_mul(self.len) else {
            return Err(Error::OffsetOverflow);
        };
        self.blob
            .write_from(store, offset, bytes, WriteOptions::default())
    }

    /// Makes each record durable that `get` returns. No crash loses it before its index is put again.
    ///
    /// # Errors
    ///
    /// Those of the wrapper's sync. No record and no durable byte changes.
    pub fn sync<R: Rng>(&mut self, store: &mut Store<R>) -> Result<(), Error>
        ensures answer { MaySync R.stream self.old store.old (error_of result) }
        ensures synced { OnOk result (AreOpen self.old store.old → FindsRead self.new store.new) }
        ensures found { StillPasses self.old store.old self.new store.new }
        ensures read { (i : ℕ) → record_at self.new i ≡ record_at self.old i }
        ensures err { OnErr result (SameRecords self.old store.old self.new store.new) }
        ensures len { len_of self.new ≡ len_of self.old }
        ensures place { place_of self.new ≡ place_of self.old }
        ensures config { config_of store.new ≡ config_of store.old }
    {
        leaves::synced::<blob_memory::Storage, R>();
        leaves::same_bytes::<blob_memory::Storage, R>();
        self.blob.sync(store)
    }

    /// Returns the record at an index: the bytes of its slot, with zeros after the end of the blob.
    ///
    /// # Errors
    ///
    /// `OffsetOverflow` if the slot's start doesn't fit in 64 bits; then `Memory`; then `Injected` if the draw of the read is
    /// true, and `OffsetOverflow` if the physical end of the read doesn't fit.
    pub fn get<R: Rng>(&self, store: &mut Store<R>, index: u64) -> Result<Vec<u8>, Error>
        ensures answer { AreOpen self.now store.old → MayGet R.stream self.now store.old index (error_of result) }
        ensures read { IfOk result (λ bytes. AreOpen self.now store.old → bytes.items ≡ record_at self.now index) }
        ensures found { FindsNoMore store.old store.new }
        ensures config { config_of store.new ≡ config_of store.old }
    {
        leaves::same_bytes::<blob_memory::Storage, R>();
        let Some(offset) = index.checked_mul(self.len) else {
            return Err(Error::OffsetOverflow);
        };
        let size = self.blob.size();
        let from = offset.min(size);
        let there = (size - from).min(self.len);
        let mut bytes = Vec::with_capacity(self.alloc, self.len as usize)?;
        bytes.resize(there as usize, 0)?;
        self.blob.read_into(store, from, bytes.as_mut_slice())?;
        bytes.resize(self.len as usize, 0)?;
        Ok(bytes)
    }

    /// Opens the records of `len` bytes in a blob, and syncs it, so that no crash loses what `get` returns. Each record is one
    /// that might be found before. A new blob has zeros.
    ///
    /// # Errors
    ///
    /// `Injected` if the draw of the open is true; then `PartitionNameInvalid`, `BlobCorrupt`, `BlobVersionMismatch`,
    /// `GenerationsExhausted`, or `Memory`; then `Injected` if the draw of the sync is true, or `Memory`. What may be found is
    /// unchanged.
    pub fn recover<R: Rng>(
        alloc: Global,
        store: &mut Store<R>,
        partition: &str,
        name: &[u8],
        len: u64,
    ) -> Result<Records, Error>
        ensures answer { MayRecover R.stream store.old partition.now name.now (error_of result) }
        ensures found { IfOk result (λ r. FindsRecords store.old partition.now name.now r store.new) }
        ensures synced { IfOk result (λ r. FindsReadFrom store.old r store.new) }
        ensures len { IfOk result (λ r. len_of r ≡ len) }
        ensures kept { FindsNoMore store.old store.new }
        ensures config { config_of store.new ≡ config_of store.old }
    {
        accepted_opens();
        numbers_are_given::<blob_memory::Storage>();
        opens::<blob_memory::Storage, R>();
        leaves::accepted_opens::<blob_memory::Storage, R>();
        leaves::found::<blob_memory::Storage, R>();
        leaves::same_bytes::<blob_memory::Storage, R>();
        leaves::other_blobs::<blob_memory::Storage, R>();
        leaves::synced::<blob_memory::Storage, R>();
        let (mut blob, _) = store.open(partition, name)?;
        blob.sync(store)?;
        Ok(Records { alloc, blob, len })
    }
}
