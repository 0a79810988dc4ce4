//! A log of records in one blob of a fault wrapper.
ghost use Rattle.std.specs.Prelude.{◌≡◌, ◌∷◌, [], List, ℕ, OnOk, OnErr, IfOk};
ghost use Rattle.blob_header.specs.Refusals.{IsMemory, error_of};
ghost use Rattle.blob_model.specs.Opened.{IsNamed};
ghost use Rattle.blob_model.specs.Places.{Place};
ghost use Rattle.blob_faulty.specs.Admitted.{OpensAdmitted};
ghost use Rattle.blob_faulty.specs.Keeps.{Keeps};
ghost use Rattle.blob_faulty.specs.Wrapper.{config_of};
ghost use Rattle.blob_log.specs.Held.{AddsRecords, FindsRecords, HoldsFrom, StillHolds, log_place, record_bytes};
ghost use Rattle.blob_log.specs.Leaves.{AppendsFrame, MayOpenLog, SameBytes, TriesFrame, live_appended, log_live};
ghost use Rattle.blob_log.specs.Refused.{MayRecover};
ghost use Rattle.blob_log.specs.Runs.{MayAppendTo};

use crate::frame::{frame_of, scan, scans_find_frames};
use blob_base::laws::opens::accepted_opens;
use blob_base::{Blob, Error, IoBufs, WriteOptions};
use blob_faulty::laws::keeps::{unrecorded_calls, writes};
use blob_faulty::laws::outcomes::{entries, recorded};
use rand_core::Rng;
use std::alloc::Global;

/// A fault wrapper over the memory store.
pub type Store<R> = blob_faulty::Storage<blob_memory::Storage, R>;

/// The wrapper's handle of a log's blob.
pub type Handle = blob_faulty::Blob<blob_memory::Blob>;

/// An open log, and the offset of its next frame.
#[derive(Drop)]
pub struct Log {
    alloc: Global,
    blob: Handle,
    end: u64,
}

impl Log {
    /// Writes the record's frame after those that the log holds, with a SYNC write. If it returns Ok, the log holds the
    /// record too.
    ///
    /// # Errors
    ///
    /// `OffsetOverflow` if the record has 2^32 bytes or more or the end of its frame doesn't fit in 64 bits, `Memory`,
    /// and the errors of the wrapper's SYNC write of the frame. The log holds what it held, and the next frame goes to
    /// the same offset, over whatever a failed write left there. `Memory` changes no live and no durable byte.
    pub fn append<R: Rng>(&mut self, store: &mut Store<R>, entry: &[u8]) -> Result<(), Error>
        ensures acknowledged { OnOk result (AddsRecords self.old store.old self.new store.new (entry.now ∷ [])) }
        ensures refused { OnErr result (StillHolds self.old store.old self.new store.new) }
        ensures place { log_place self.new ≡ log_place self.old }
        ensures appended { OnOk result (AppendsFrame self.old entry.now store.old store.new) }
        ensures failed { OnErr result (TriesFrame self.old entry.now store.old store.new) }
        ensures live { OnOk result (log_live self.new ≡ live_appended self.old entry.now) }
        ensures memory { IsMemory result → SameBytes self.old store.old self.new store.new }
        ensures config { config_of store.new ≡ config_of store.old }
        ensures answer { MayAppendTo R.stream self.old store.old entry.now (error_of result) }
    {
        writes::<blob_memory::Storage, R, blob_memory::Blob>();
        recorded::<blob_memory::Storage, R>();
        entries();
        if entry.len() > u32::MAX as usize {
            return Err(Error::OffsetOverflow);
        }
        let bytes = IoBufs::from_vec(frame_of(self.alloc, entry)?)?;
        let Some(end) = self.end.checked_add(bytes.remaining() as u64) else {
            return Err(Error::OffsetOverflow);
        };
        self.blob
            .write_at(store, self.end, bytes, WriteOptions::SYNC)?;
        self.end = end;
        Ok(())
    }

    /// Opens the log and returns the records that its blob begins with, up to the first frame that is cut short or has
    /// a wrong checksum. All records that were kept of it come first. The log holds what is returned, and no crash can
    /// lose that.
    ///
    /// # Errors
    ///
    /// The errors of the wrapper's open, `Injected` if the draw of its read is true, and `Memory`. What was kept is
    /// still kept.
    pub fn recover<R: Rng>(
        alloc: Global,
        store: &mut Store<R>,
        partition: &str,
        name: &[u8],
    ) -> Result<(Log, Vec<Vec<u8>>), Error>
        ensures held { IfOk result (λ r. HoldsFrom store.old r.0 store.new (record_bytes r.1.items)) }
        ensures found { IfOk result (λ r. FindsRecords store.old partition.now name.now r.0 (record_bytes r.1.items)) }
        ensures keeps { (o : Place) (bytes : List ℕ) → Keeps store.old o bytes → Keeps store.new o bytes }
        ensures named { IfOk result (λ r. IsNamed (log_place r.0) partition.now name.now) }
        ensures opened { OnOk result (OpensAdmitted store.old store.new partition.now name.now 0 0) }
        ensures failed { OnErr result (MayOpenLog store.old store.new partition.now name.now) }
        ensures config { config_of store.new ≡ config_of store.old }
        ensures answer { MayRecover R.stream store.old partition.now name.now (error_of result) }
    {
        accepted_opens();
        unrecorded_calls::<blob_memory::Storage, R>();
        scans_find_frames();
        let (blob, size) = store.open_admitted(partition, name)?;
        let mut bytes = Vec::new(alloc);
        bytes.resize(size as usize, 0)?;
        let found = bytes.as_mut_slice();
        blob.read_into(store, 0, found)?;
        let (records, end) = scan(alloc, found)?;
        let end = end as u64;
        Ok((Log { alloc, blob, end }, records))
    }
}
