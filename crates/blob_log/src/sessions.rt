//! A log through crashes: what was acknowledged is found again.
ghost use Rattle.std.specs.Prelude.{◌≡◌, ◌≢◌, Some, IfOk, is_none, length};
ghost use Rattle.blob_header.specs.Refusals.{error_of, Memory};
ghost use Rattle.blob_log.specs.Held.{AddsRecords, AreAnswered, Survive, SurviveFrom, acknowledged_in, log_place, record_bytes};
ghost use Rattle.blob_log.specs.Refused.{MayStop};
ghost use Rattle.blob_log.specs.Runs.{AppendsEach, RunsAnew, RunsSessions};

use crate::log::{Log, Store};
use blob_base::Error;
use blob_faulty::Config;
use rand_core::Rng;
use std::alloc::{AllocError, Global};

/// What a session of a log found when it opened the log, and which of its appends returned Ok.
#[derive(Drop)]
pub struct Session {
    /// The records that it found, in order.
    pub before: Vec<Vec<u8>>,
    /// For each record that it was to append, in order, whether the append returned Ok.
    pub answers: Vec<bool>,
}

/// Returns whether an append succeeded. Fails if it ran out of memory.
fn settled(answer: Result<(), Error>) -> Result<bool, AllocError>
    ensures { IfOk result (λ done. (done ≡ is_none (error_of answer)) × (error_of answer ≢ Some Memory)) }
{
    match answer {
        Ok(()) => Ok(true),
        Err(Error::Memory(error)) => Err(error),
        Err(_) => Ok(false),
    }
}

/// Appends the records in order and returns which appends succeeded. Stops if memory runs out.
fn append_all<R: Rng>(
    alloc: Global,
    log: &mut Log,
    store: &mut Store<R>,
    entries: &[Vec<u8>],
) -> Result<Vec<bool>, AllocError>
    ensures count { IfOk result (λ answers. length answers.items ≡ length entries.now) }
    ensures held { IfOk result (λ a. AddsRecords log.old store.old log.new store.new (acknowledged_in a entries.now)) }
    ensures place { log_place log.new ≡ log_place log.old }
    ensures ran { IfOk result (AppendsEach R.stream log.old store.old entries.now log.new store.new) }
{
    let mut answers = Vec::with_capacity(alloc, entries.len())?;
    for entry in entries {
        let done = settled(log.append(store, entry))?;
        answers.push(done)?;
    }
    Ok(answers)
}

/// Opens the log and, for each list of records, appends them, crashes, and opens what is left. For each session, the
/// records that it found, followed by those for which an append returned Ok, in order, are a prefix of what is found in
/// the end, whatever the wrapper's faults, its generator and what it held before. Returns a session for each list, with
/// a result for each of its records.
///
/// # Errors
///
/// The errors of a recovery, and `Memory` if an append or a crash runs out of memory.
pub fn sessions_survive<R: Rng>(
    alloc: Global,
    store: &mut Store<R>,
    partition: &str,
    name: &[u8],
    sessions: &[Vec<Vec<u8>>],
) -> Result<(Vec<Session>, Vec<Vec<u8>>), Error>
    ensures answer { MayStop R.stream partition.now name.now (error_of result) }
    ensures answered { IfOk result (λ r. AreAnswered r.0.items sessions.now) }
    ensures ran { IfOk result (RunsSessions R.stream partition.now name.now store.old sessions.now store.new) }
    ensures survive { IfOk result (λ r. SurviveFrom store.old r.0.items sessions.now (record_bytes r.1.items)) }
{
    let (mut log, mut before) = Log::recover(alloc, store, partition, name)?;
    let mut done = Vec::with_capacity(alloc, sessions.len())?;
    for entries in sessions {
        let answers = append_all(alloc, &mut log, store, entries)?;
        store.crash()?;
        done.push(Session { before, answers })?;
        let (again, after) = Log::recover(alloc, store, partition, name)?;
        log = again;
        before = after;
    }
    Ok((done, before))
}

/// Opens a log over a new store and, for each list of records, appends them, crashes, and opens what is left. For each
/// session, the records that it found, followed by those for which an append returned Ok, in order, are a prefix of
/// what is found in the end.
///
/// # Errors
///
/// The errors of a recovery, and `Memory` if an append or a crash runs out of memory.
pub fn sessions_survive_anew<R: Rng + Drop>(
    alloc: Global,
    rng: R,
    config: Config,
    partition: &str,
    name: &[u8],
    sessions: &[Vec<Vec<u8>>],
) -> Result<(Vec<Session>, Vec<Vec<u8>>), Error>
    ensures answer { MayStop R.stream partition.now name.now (error_of result) }
    ensures answered { IfOk result (λ r. AreAnswered r.0.items sessions.now) }
    ensures ran { IfOk result (RunsAnew R.stream partition.now name.now rng config sessions.now) }
    ensures survive { IfOk result (λ r. Survive r.0.items sessions.now (record_bytes r.1.items)) }
{
    let memory = blob_memory::Storage::new(alloc);
    let mut store = blob_faulty::Storage::new(alloc, memory, rng, config);
    sessions_survive(alloc, &mut store, partition, name, sessions)
}
