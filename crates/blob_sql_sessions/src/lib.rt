//! The toolchain's SQL database on two files over the fault wrapper. The power of each fails again in each session.
#![tactic(auto)]

ghost use Rattle.std.specs.Prelude.{IfOk};
ghost use Rattle.blob_faulty.specs.Certain.{IsNever, partial_resizes};
ghost use Rattle.blob_sql_sessions.specs.Ends.{LeadFromNothing};

use blob_disk::BlobDisk;
use blob_faulty::Config;
use disk_power::Power;
use rand_core::Rng;
use sql_sessions::{Session, sessions_survive};
use sqlite::{Connection, Error, ErrorCode, FileStore, Files, Options};
use std::alloc::Global;

/// How one of the two files fails.
#[derive(Drop)]
pub struct Faults<R> {
    /// The generator of its draws.
    pub rng: R,
    /// The rates of its faults, and the mode of its writes.
    pub config: Config,
    /// After how many calls its power fails, for each session, and for each open that is tried again. It doesn't fail in
    /// later ones.
    pub calls: Vec<u64>,
}

/// A file over the wrapper whose power fails.
pub type File<R> = Power<BlobDisk<R>>;

/// Starts with two empty files, opens a database in them and, for each list of texts, runs each text as a transaction up
/// to the first that fails, crashes the machine, and opens what is left.
///
/// The first open finds no rows. Each later one finds the database of the open before it with the acknowledged
/// transactions applied, in order. The one that failed may be applied too, whole. No other transaction is.
///
/// `is_mixing` lets the database commit by one sync, since a crash leaves each byte of a write old or new. A failed open
/// after a crash is tried again up to `retries` times, as by `sql_sessions::crash_and_open`.
///
/// Errors: that of an open, which ends the sessions, and `OutOfMemory`.
pub fn sessions_over_blobs<R: Rng + Drop>(
    alloc: Global,
    log: Faults<R>,
    db: Faults<R>,
    is_mixing: bool,
    options: Options,
    retries: usize,
    sessions: &[Vec<String>],
) -> Result<(Vec<Session>, Connection<FileStore<File<R>>>), Error>
    requires log { IsNever (partial_resizes log.config.resize_rate) }
    requires db { IsNever (partial_resizes db.config.resize_rate) }
    ensures survive { IfOk result (λ r. LeadFromNothing r.0.items sessions.now r.1) }
{
    let no_memory = Error::SqliteFailure(ErrorCode::OutOfMemory);
    let Ok(log_disk) = BlobDisk::new(alloc, log.rng, log.config, is_mixing) else {
        return Err(no_memory);
    };
    let Ok(db_disk) = BlobDisk::new(alloc, db.rng, db.config, is_mixing) else {
        return Err(no_memory);
    };
    let files = Files {
        log: Power::new(log_disk, log.calls),
        db: Power::new(db_disk, db.calls),
    };
    sessions_survive(alloc, files, options, retries, sessions)
}
