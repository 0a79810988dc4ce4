//! The journal: a blob with one edit in each record.
ghost use Rattle.std.specs.Prelude.{◌≡◌, ◌+◌, Some, None, [], true, codes, length, IfOk, OnOk, OnErr};
ghost use Rattle.std.specs.Int.{w64, to_be_bytes};
ghost use Rattle.blob_model.specs.Directory.{current, is_current};
ghost use Rattle.blob_model.specs.Places.{Place};
ghost use Rattle.blob_directory.specs.Names.{edit_of};
ghost use Rattle.blob_memory.specs.Store.{directory, durable, place};
ghost use Rattle.blob_faulty.specs.Wrapper.{inner_of, inside};
ghost use Rattle.blob_journal.specs.Incarnations.{ChangesOnly, KeepsPartition};
ghost use Rattle.blob_journal.specs.Currents.{BeginsAs, BeginsNext, FixesBytes, IsGiven, SamePending};
ghost use Rattle.blob_draws.specs.Faults.{retention};
ghost use Rattle.blob_journal.specs.Draws.{DrawsWhole, LogsEdit, kept_whole};
ghost use Rattle.blob_journal.specs.Found.{AddsEdit, KeepsRecords, SettlesEdit, WritesJournal};
ghost use Rattle.blob_journal.specs.Keeping.{bytes_in, with_record};
ghost use Rattle.blob_journal.specs.Limits.{DrawsNothing, FailsAtLimits, OpensQuietly};
ghost use Rattle.blob_journal.specs.Settling.{Changes, with_settled};
ghost use Rattle.blob_journal.specs.Stores.{KeepsStore};

use crate::store::{Handle, JOURNALS, Store, open, read_all};
use blob_base::{Blob, Error, Probability, SectorSize, WriteOptions};
use blob_directory::edit::Edit;
use blob_directory::record::encode;
use blob_directory::unsettled::Unsettled;
use blob_faulty::laws::current_handles::found;
use blob_faulty::laws::keeps::writes;
use blob_faulty::laws::leaves;
use blob_faulty::laws::outcomes::recorded;
use blob_faulty::{Config, PartialWriteMode, WriteConfig};
use blob_packed::laws::records;
use rand_core::Rng;
use std::alloc::{AllocError, Global};

/// The open journal.
#[derive(Drop)]
pub(crate) struct Journal {
    pub(crate) blob: Handle,
    /// The number that is its name.
    pub(crate) generation: u64,
    /// How many records it has.
    pub(crate) records: u64,
    /// Its length in bytes, where the next record begins.
    pub(crate) end: u64,
}

/// Returns the configuration of a journal's writes: none fails, and a crash keeps each by this rate, whole. All bytes of a write
/// are in one sector, since none ends at 2^64 or later.
fn faults_of(rate: Probability) -> Config
    ensures whole { DrawsWhole result }
    ensures kept { retention result.write_rate ≡ kept_whole rate }
{
    let mode = SectorSize::new(u64::MAX).map_or(
        PartialWriteMode::Prefix,
        PartialWriteMode::Sectors,
    );
    Config::default().write(WriteConfig {
        failure_rate: Probability::ZERO,
        retention_rate: rate,
        mode,
    })
}

impl Journal {
    /// Opens the journal of a generation and returns its bytes. The wrapper must draw nothing. The journal counts no records: it
    /// is for reading, or empty. The errors are those of its open and of its read.
    pub(crate) fn open<R: Rng>(
        alloc: Global,
        store: &mut Store<R>,
        generation: u64,
    ) -> Result<(Journal, Vec<u8>), Error>
        ensures partition { IfOk result (λ r. (place (inside r.0.blob)).partition ≡ codes "j") }
        ensures name { IfOk result (λ r. (place (inside r.0.blob)).name ≡ to_be_bytes w64 r.0.generation) }
        ensures generation { IfOk result (λ r. r.0.generation ≡ generation) }
        ensures current { IfOk result (λ r. is_current (directory (inner_of store.new)) (place (inside r.0.blob)) ≡ true) }
        ensures found { IfOk result (λ r. (o : Place) → current (directory (inner_of store.old)) (codes "j") (to_be_bytes w64 generation) ≡ Some o → durable (inner_of store.old) o ≡ Some r.1.items) }
        ensures durable { IfOk result (λ r. durable (inner_of store.new) (place (inside r.0.blob)) ≡ Some r.1.items) }
        ensures keeps { KeepsStore store.old store.new }
        ensures pending { SamePending store.old store.new }
        ensures bytes { IfOk result (λ r. bytes_in r.0 ≡ r.1.items) }
        ensures records { IfOk result (λ r. r.0.records ≡ 0) }
        ensures end { IfOk result (λ r. r.0.end ≡ 0) }
        ensures begun { IfOk result (λ r. (directory (inner_of store.old)).file (codes "j") (to_be_bytes w64 generation) ≡ None → r.1.items ≡ []) }
        ensures numbered { IfOk result (λ r. BeginsNext (codes "j") (to_be_bytes w64 generation) store.old (place (inside r.0.blob))) }
        ensures given { IfOk result (λ r. IsGiven store.new (place (inside r.0.blob))) }
        ensures blobs { OnOk result (KeepsPartition (codes "f") store.old store.new) }
        ensures errors { OpensQuietly store.old → FailsAtLimits store.new result }
    {
        let (blob, size) = open(store, JOURNALS, &generation.to_be_bytes())?;
        let bytes = read_all(alloc, store, &blob, size)?;
        let journal = Journal {
            blob,
            generation,
            records: 0,
            end: 0,
        };
        Ok((journal, bytes))
    }

    /// Returns a copy, to be used with a fork of the store. The only error is out of memory.
    pub(crate) fn copy(&self) -> Result<Journal, AllocError>
        ensures place { IfOk result (λ copy. place (inside copy.blob) ≡ place (inside self.now.blob)) }
        ensures bytes { IfOk result (λ copy. bytes_in copy ≡ bytes_in self.now) }
        ensures same { IfOk result (λ copy. copy ≡ record self.now { blob = copy.blob }) }
    {
        Ok(Journal {
            blob: self.blob.copy()?,
            generation: self.generation,
            records: self.records,
            end: self.end,
        })
    }

    /// Writes an edit in one more record, unsynced. Returns the number of the record, and where it begins.
    ///
    /// # Errors
    ///
    /// `Memory`, `GenerationsExhausted`, `OffsetOverflow`. The journal is unchanged.
    pub(crate) fn add<R: Rng>(
        &mut self,
        alloc: Global,
        store: &mut Store<R>,
        edit: &Edit,
        rate: Probability,
    ) -> Result<(u64, u64), Error>
        ensures writes { WritesJournal store.old self.old store.new self.new }
        ensures bytes { OnOk result (bytes_in self.new ≡ with_record self.old (edit_of edit.now)) }
        ensures records { OnOk result (self.new.records ≡ self.old.records + 1) }
        ensures number { IfOk result (λ r. r.0 ≡ self.old.records) }
        ensures offset { IfOk result (λ r. r.1 ≡ self.old.end) }
        ensures refused { OnErr result (bytes_in self.new ≡ bytes_in self.old) }
        ensures left { OnOk result (AddsEdit (edit_of edit.now) store.old self.old store.new self.new) }
        ensures same { OnErr result (KeepsRecords store.old self.old store.new self.new) }
        ensures logged { OnOk result (LogsEdit (edit_of edit.now) rate self.old store.old store.new) }
    {
        leaves::other_blobs::<blob_memory::Storage, R>();
        records();
        let (number, offset) = (self.records, self.end);
        let bytes = encode(alloc, number, edit, false)?;
        let Some(next) = number.checked_add(1) else {
            return Err(Error::OffsetOverflow);
        };
        let Some(end) = offset.checked_add(bytes.len() as u64) else {
            return Err(Error::OffsetOverflow);
        };
        store.set_config(faults_of(rate));
        self.blob
            .write_from(store, offset, &bytes, WriteOptions::default())?;
        self.records = next;
        self.end = end;
        Ok((number, offset))
    }

    /// Makes the record of an edit durable, marked as settled.
    ///
    /// # Errors
    ///
    /// `Memory`, `OffsetOverflow`. The record is as it was.
    pub(crate) fn settle<R: Rng>(
        &mut self,
        alloc: Global,
        store: &mut Store<R>,
        edit: &Unsettled,
    ) -> Result<(), Error>
        ensures writes { WritesJournal store.old self.old store.new self.new }
        ensures settled { OnOk result (Changes store.old store.new (place (inside self.old.blob)) (with_settled edit.now)) }
        ensures records { self.new.records ≡ self.old.records }
        ensures left { OnOk result (SettlesEdit edit.now store.old self.old store.new self.new) }
        ensures same { OnErr result (KeepsRecords store.old self.old store.new self.new) }
    {
        leaves::other_blobs::<blob_memory::Storage, R>();
        writes::<blob_memory::Storage, R, blob_memory::Blob>();
        recorded::<blob_memory::Storage, R>();
        found::<R>();
        records();
        let bytes = encode(alloc, edit.record, &edit.edit, true)?;
        store.set_config(Config::default());
        self.blob
            .write_from(store, edit.offset, &bytes, WriteOptions::SYNC)?;
        Ok(())
    }

    /// Makes these bytes, of so many records, those of the journal, durably. It must be empty. `Memory` is the only error of a
    /// wrapper that draws nothing.
    pub(crate) fn begin<R: Rng>(
        &mut self,
        store: &mut Store<R>,
        bytes: &[u8],
        count: u64,
    ) -> Result<(), Error>
        ensures writes { WritesJournal store.old self.old store.new self.new }
        ensures bytes { OnOk result (BeginsAs (place (inside self.old.blob)) bytes.now store.old store.new) }
        ensures fixed { OnOk result (FixesBytes (place (inside self.old.blob)) bytes.now store.old store.new) }
        ensures live { OnOk result (bytes_in self.old ≡ [] → bytes_in self.new ≡ bytes.now) }
        ensures records { OnOk result (self.new.records ≡ count) }
        ensures end { OnOk result (self.new.end ≡ length bytes.now) }
        ensures only { OnOk result (ChangesOnly (place (inside self.old.blob)) store.old store.new) }
        ensures errors { DrawsNothing store.old → is_current (directory (inner_of store.old)) (place (inside self.old.blob)) ≡ true → FailsAtLimits store.new result }
    {
        writes::<blob_memory::Storage, R, blob_memory::Blob>();
        recorded::<blob_memory::Storage, R>();
        leaves::other_blobs::<blob_memory::Storage, R>();
        self.blob.write_from(store, 0, bytes, WriteOptions::SYNC)?;
        self.records = count;
        self.end = bytes.len() as u64;
        Ok(())
    }
}
