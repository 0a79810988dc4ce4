//! Writes of the inner blob, and what they record.
ghost use Rattle.std.specs.Prelude.{◌≡◌, ◌≢◌, ◌≤◌, ◌<◌, ◌+◌, ◌-◌, ◌^◌, ◌∷◌, [], Some, true, false, OnOk, OnErr, length};
ghost use Rattle.blob_header.specs.Refusals.{error_of};
ghost use Rattle.blob_model.specs.Pending.{has_barrier};
ghost use Rattle.blob_base.specs.HandleCalls.{Write};
ghost use Rattle.blob_faulty.specs.Allowed.{MayWritePlain, MayWriteSynced, MayWriteAs, HasListRoom, LeavesRoom};
ghost use Rattle.blob_faulty.specs.StepResults.{CallsInner, MayCallInner, AsksAs, WritesUnrecorded, RecordsPlain, RecordsRun, WroteAs, FailsAs};
ghost use Rattle.blob_faulty.specs.Wrapper.{pending_of};
ghost use Rattle.blob_faulty.specs.Writes.{LaidRuns};
ghost use Rattle.blob_draws.specs.Fates.{write_fate_of, IsSized};
ghost use Rattle.blob_draws.specs.Faults.{retention};

use crate::blob::Blob;
use crate::storage::Storage;
use blob_base::{Error, WriteOptions};
use blob_draws::config::WriteConfig;
use blob_draws::faults::{WriteFate, retained};
use blob_pending::content::Content;
use blob_pending::room::Room;
use blob_pending::write::PendingWrite;

impl<B> Blob<B> {
    /// Writes to the inner blob without SYNC and records nothing.
    #[inline(always)]
    fn write_unrecorded<S: blob_base::Storage, R>(
        &mut self,
        store: &mut Storage<S, R>,
        offset: u64,
        end: u64,
        bytes: &[u8],
    ) -> Result<(), Error>
    where
        B: blob_base::Blob<S>,
        requires end { end ≡ offset + length bytes.now }
        ensures allowed { B.allows_write self.old.inner store.old.inner offset bytes.now false (error_of result) }
        ensures asked { CallsInner B.Blob self.old store.old self.new store.new (Write offset bytes.now false) result }
        ensures wrote { WritesUnrecorded S.Durable B.Blob self.old store.old self.new store.new offset bytes.now result }
        ensures untracked { OnErr result (self.new.size ≡ self.old.size) }
        ensures rest { store.new ≡ record store.old { inner = store.new.inner } }
    {
        let plain = WriteOptions::default();
        let wrote = self
            .inner
            .write_from(&mut store.inner, offset, bytes, plain);
        if wrote.is_ok() {
            self.size = self.size.max(end);
        }
        wrote
    }

    /// Writes some bytes without SYNC while retention is set. The write is pending from then on and takes the next number. It isn't
    /// inlined, so that a write that isn't recorded doesn't pay for its locals.
    #[inline(never)]
    fn write_recorded<S: blob_base::Storage, R>(
        &mut self,
        store: &mut Storage<S, R>,
        offset: u64,
        end: u64,
        bytes: &[u8],
        config: WriteConfig,
    ) -> Result<(), Error>
    where
        B: blob_base::Blob<S>,
        requires some { 0 < length bytes.now }
        requires end { end ≡ offset + length bytes.now }
        requires retained { retention store.old.config.write_rate ≡ Some (config.mode, config.retention_rate) }
        ensures allowed { MayWritePlain B.Blob self.old store.old offset bytes.now (error_of result) }
        ensures asked { MayCallInner B.Blob self.old store.old self.new store.new (Write offset bytes.now false) result }
        ensures recorded { RecordsPlain S.Durable B.Blob self.old store.old self.new store.new offset bytes.now result }
    {
        if store.next_write == u64::MAX {
            return Err(Error::GenerationsExhausted);
        }
        let list = store.lists.room_for(&self.inner, self.list, Room::Entry)?;
        let copy = Content::from_slice(store.alloc, bytes)?;
        self.write_unrecorded(store, offset, end, bytes)?;
        let number = store.next_write;
        store.next_write = number + 1;
        let holes = Vec::new(store.alloc);
        let write = PendingWrite {
            number,
            offset,
            bytes: copy,
            mode: config.mode,
            rate: config.retention_rate,
            holes,
        };
        store.lists.push_write(list, write);
        self.list = list;
        Ok(())
    }

    /// Writes without SYNC. If retention is set, a write of some bytes is pending from then on and takes the next number.
    #[inline(always)]
    fn write_plain<S: blob_base::Storage, R>(
        &mut self,
        store: &mut Storage<S, R>,
        offset: u64,
        end: u64,
        bytes: &[u8],
    ) -> Result<(), Error>
    where
        B: blob_base::Blob<S>,
        requires end { end ≡ offset + length bytes.now }
        ensures allowed { MayWritePlain B.Blob self.old store.old offset bytes.now (error_of result) }
        ensures asked { MayCallInner B.Blob self.old store.old self.new store.new (Write offset bytes.now false) result }
        ensures recorded { RecordsPlain S.Durable B.Blob self.old store.old self.new store.new offset bytes.now result }
    {
        match retained(store.config.write_rate) {
            Some(config) if offset < end => {
                self.write_recorded(store, offset, end, bytes, config)
            }
            _ => self.write_unrecorded(store, offset, end, bytes),
        }
    }
}

impl<B> Blob<B> {
    /// Makes a range durable by a SYNC write of the inner blob and updates the list at `list`, which has capacity for it.
    /// `copy` has the range's bytes if the list queues it.
    pub(crate) fn lay_range<S: blob_base::Storage, R>(
        &mut self,
        store: &mut Storage<S, R>,
        list: usize,
        offset: u64,
        run: &[u8],
        copy: Vec<u8>,
    ) -> Result<(), Error>
    where
        B: blob_base::Blob<S>,
        requires some { 0 < length run.now }
        requires fits { offset + length run.now < 2 ^ 64 }
        requires len { length copy.items ≤ length run.now }
        requires copied { has_barrier (pending_of S.place store.old (B.place self.old.inner)) ≡ true → copy.items ≡ run.now }
        requires room { HasListRoom S.Durable B.Blob self.old store.old list ((offset, offset + length run.now) ∷ []) }
        ensures allowed { B.allows_write self.old.inner store.old.inner offset run.now true (error_of result) }
        ensures asked { CallsInner B.Blob self.old store.old self.new store.new (Write offset run.now true) result }
        ensures recorded { RecordsRun S.Durable B.Blob self.old store.old self.new store.new (offset, run.now) result }
        ensures laid { OnOk result (LaidRuns S.Durable B.Blob self.old store.old self.new store.new ((offset, run.now) ∷ [])) }
        ensures kept_room { OnOk result (B.room self.old.inner store.old.inner ≤ B.room self.new.inner store.new.inner) }
        ensures left { OnOk result (LeavesRoom S.Durable B.Blob self.old store.old self.new store.new list (offset, run.now)) }
    {
        let len = run.len() as u64;
        self.inner
            .write_from(&mut store.inner, offset, run, WriteOptions::SYNC)?;
        self.size = self.size.max(offset + len);
        store.lists.lay(list, offset, len, copy);
        Ok(())
    }

    /// Writes with SYNC. The range becomes durable, and a crash no longer applies pending writes to it.
    #[inline(never)]
    fn write_synced<S: blob_base::Storage, R>(
        &mut self,
        store: &mut Storage<S, R>,
        offset: u64,
        end: u64,
        bytes: &[u8],
    ) -> Result<(), Error>
    where
        B: blob_base::Blob<S>,
        requires some { bytes.now ≢ [] }
        requires end { end ≡ offset + length bytes.now }
        ensures allowed { MayWriteSynced B.Blob self.old store.old offset bytes.now (error_of result) }
        ensures asked { MayCallInner B.Blob self.old store.old self.new store.new (Write offset bytes.now true) result }
        ensures recorded { RecordsRun S.Durable B.Blob self.old store.old self.new store.new (offset, bytes.now) result }
    {
        let room = Room::Ranges(offset, end, 1);
        let list = store.lists.room_for(&self.inner, self.list, room)?;
        let copy = store.lists.copy_for(list, bytes)?;
        self.list = list;
        self.lay_range(store, list, offset, bytes, copy)
    }

    /// Performs a write by its drawn outcome. Copies the bytes only for what the pending lists record.
    #[inline(always)]
    pub(crate) fn write_by_fate<S: blob_base::Storage, R>(
        &mut self,
        store: &mut Storage<S, R>,
        fate: WriteFate,
        offset: u64,
        end: u64,
        bytes: &[u8],
        sync: bool,
    ) -> Result<(), Error>
    where
        B: blob_base::Blob<S>,
        requires some { sync ≡ true → bytes.now ≢ [] }
        requires end { end ≡ offset + length bytes.now }
        requires sized { IsSized (length bytes.now) (write_fate_of fate) }
        ensures allowed { MayWriteAs B.Blob self.old store.old fate sync offset bytes.now (error_of result) }
        ensures asked { AsksAs B.Blob self.old store.old self.new store.new fate sync offset bytes.now result }
        ensures wrote { WroteAs S.Durable B.Blob self.old store.old self.new store.new fate sync offset bytes.now result }
        ensures failed { FailsAs S.Durable B.Blob self.old store.old self.new store.new fate offset bytes.now result }
    {
        match fate {
            WriteFate::Done => {
                if sync {
                    return self.write_synced(store, offset, end, bytes);
                }
                self.write_plain(store, offset, end, bytes)
            }
            WriteFate::Unsynced => {
                self.write_plain(store, offset, end, bytes)?;
                Err(Error::Injected)
            }
            WriteFate::Failed(kept) => {
                self.lay_kept(store, offset, bytes, &kept)?;
                Err(Error::Injected)
            }
        }
    }
}
