//! A database's file over the fault wrapper: writes, resizes, reads and syncs fail by its draws, and a crash keeps of what wasn't
//! synced what the generator draws.
//!
//! A disk of the kit's databases (`sqlite_disk::Disk`) says what a read returns now and what a crash now may leave.
//! Here a read returns the live bytes of the one blob. A crash may leave all of them, as when only the process dies;
//! or, for some choices, what its pending list replays to over its durable bytes.
#![tactic(auto)]

ghost use Rattle.std.specs.Prelude.{◌≡◌, ℕ, List, [], true, IfOk, OnErr};
ghost use Rattle.blob_header.specs.Refusals.{IsMemory};
ghost use Rattle.blob_faulty.specs.Certain.{IsNever, partial_resizes};
ghost use Rattle.blob_disk.specs.Outcomes.{IsCurrent, IsOpenable, IsStanding, IsTracked, IsWhole, whole_prop};

mod calls;
mod disk;
pub mod laws;

use blob_base::laws::opens::accepted_opens;
use blob_base::{Error, Storage};
use blob_faulty::Config;
use blob_faulty::laws::names::{opens, without_faults};
use rand_core::Rng;
use sqlite_disk::Disk;
use std::alloc::Global;

const PARTITION: &str = "disk";

const NAME: &[u8] = b"0";

/// A wrapper over a memory store of its own, and the handle on its one blob.
///
/// A resize either reaches the length that was asked for or changes nothing: the configuration's `partial_rate` is
/// zero. A crash keeps a resize that failed in part as one to the length that it reached, even if the durable bytes are
/// shorter than both lengths, and no resize of those to the length that was asked for leaves that
/// (`laws::partial_resizes`). What a database is proved on has no such file.
#[derive(Drop)]
pub struct BlobDisk<R: Rng> {
    store: blob_faulty::Storage<blob_memory::Storage, R>,
    blob: blob_faulty::Blob<blob_memory::Blob>,
    is_mixing: bool,
    usable: bool,
    faults: u64,
    caught: u64,
    /// The answer of the last `Crash::crash`, which has none of its own.
    crashed: Result<(), Error>,
    ghost standing: { IsStanding store },
    ghost tracked: { IsTracked blob },
    ghost here: { IsCurrent blob store },
    ghost openable: { IsOpenable store },
    ghost whole: { IsWhole store } by { whole_prop store },
}

impl<R: Rng + Drop> BlobDisk<R> {
    ghost use Rattle.blob_disk.specs.Calls.{caught_of, faults_of, stream_of};
    ghost use Rattle.blob_disk.specs.Drawn.{rates_of};

    /// Returns an empty file. From here on its faults are drawn by these rates; the open itself draws nothing.
    ///
    /// A disk that is mixing says that a crash leaves each byte of a write old or new, and so lets a database commit by one sync.
    /// Each disk keeps that; one that doesn't say so is for databases that commit by two.
    ///
    /// # Errors
    ///
    /// `Memory`.
    pub fn new(alloc: Global, rng: R, config: Config, is_mixing: bool) -> Result<BlobDisk<R>, Error>
        requires { IsNever (partial_resizes config.resize_rate) }
        ensures empty { IfOk result (λ disk. ⟦<BlobDisk<R> as Disk>⟧.seen disk ≡ []) }
        ensures usable { IfOk result (λ disk. ⟦<BlobDisk<R> as Disk>⟧.is_usable disk ≡ true) }
        ensures mixing { IfOk result (λ disk. ⟦<BlobDisk<R> as Disk>⟧.is_mixing disk ≡ is_mixing) }
        ensures rates { IfOk result (λ disk. rates_of disk ≡ config) }
        ensures stream { IfOk result (λ disk. stream_of R.stream disk ≡ R.stream rng) }
        ensures counts { IfOk result (λ disk. (faults_of disk ≡ 0) × (caught_of disk ≡ 0)) }
        ensures memory { OnErr result (IsMemory result) }
    {
        let memory = blob_memory::Storage::new(alloc);
        let mut store = blob_faulty::Storage::new(alloc, memory, rng, Config::default());
        accepted_opens();
        opens::<blob_memory::Storage, R>();
        without_faults::<blob_memory::Storage, R>();
        let (blob, _) = store.open(PARTITION, NAME)?;
        store.set_config(config);
        Ok(BlobDisk {
            store,
            blob,
            is_mixing,
            usable: true,
            faults: 0,
            caught: 0,
            crashed: Ok(()),
        })
    }
}

impl<R: Rng> BlobDisk<R> {
    ghost use Rattle.blob_disk.specs.Calls.{KeepsBytes, counts_of, crash_of, faults_of, is_usable_of, outcomes_of, seen_of, stream_of};
    ghost use Rattle.blob_disk.specs.Drawn.{rates_of};

    /// Sets the rates of the faults from here on. The file stays, and what a crash may leave of it. Draws nothing.
    pub fn set_config(&mut self, config: Config)
        requires { IsNever (partial_resizes config.resize_rate) }
        ensures seen { seen_of self.new ≡ seen_of self.old }
        ensures outcomes { (c : List ℕ) → outcomes_of self.new c → outcomes_of self.old c }
        ensures usable { is_usable_of self.new ≡ is_usable_of self.old }
        ensures mixing { ⟦<BlobDisk<R> as Disk>⟧.is_mixing self.new ≡ ⟦<BlobDisk<R> as Disk>⟧.is_mixing self.old }
        ensures set { rates_of self.new ≡ config }
        ensures bytes { KeepsBytes self.old self.new }
        ensures stream { stream_of R.stream self.new ≡ stream_of R.stream self.old }
        ensures faults { faults_of self.new ≡ faults_of self.old }
        ensures counts { counts_of self.new ≡ counts_of self.old }
        ensures crash { crash_of self.new ≡ crash_of self.old }
    {
        self.store.set_config(config);
    }

    /// Returns the result of the last `Crash::crash`: Ok if what wasn't synced was lost by the draws, and before the
    /// first. After an error the file still holds all that was written, as when only the process dies.
    pub fn last_crash(&self) -> &Result<(), Error>
        ensures { result.now ≡ crash_of self.now }
    {
        &self.crashed
    }
}
