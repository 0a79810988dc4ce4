// The log over every outcome of small runs, without seeds: which writes and syncs fail and what they leave, what each
// crash keeps, and after which append the power fails. It loses no acknowledged record and finds none that wasn't
// appended. Each mistake of `WrongLog` is found.
use crate::wrong_log::{Mistake, Tried};
use blob_base::{Error, Probability, SectorSize};
use blob_faulty::{Config, PartialWriteMode, WriteConfig};
use blob_lab_store::ScriptedRng;
use blob_log::log::Store;
use blob_tree::Explorer;
use std::alloc::{AllocError, Global};
use std::process::Abort;
use std::test::Fail;

/// The records of a run, in order. Their frames have 16, 16 and 9 bytes.
const RECORDS: [&[u8]; 3] = [b"record 1", b"record 2", b"3"];

/// The zeros after the words of a path. No run draws as many.
const SPARE: usize = 200;

/// More leaves than any of these explorations has.
const LIMIT: u64 = 100_000;

/// Two sessions of a log append the first `records` records between them. Each session ends in a crash and a recovery,
/// and then in another crash and recovery.
#[derive(Clone, Copy)]
struct Case {
    mistake: Option<Mistake>,
    records: usize,
    mode: PartialWriteMode,
    writes_fail: bool,
    syncs_fail: bool,
    recoveries_fail: bool,
    /// The first session ends in a reopen, without a crash.
    reopens: bool,
}

impl Case {
    /// A case in which nothing fails but the power.
    fn new(mode: PartialWriteMode, records: usize) -> Case {
        Case {
            mistake: None,
            records,
            mode,
            writes_fail: false,
            syncs_fail: false,
            recoveries_fail: false,
            reopens: false,
        }
    }

    fn config(&self) -> Config {
        Config::default()
            .write(WriteConfig {
                failure_rate: half_if(self.writes_fail),
                retention_rate: half_if(true),
                mode: self.mode,
            })
            .sync(half_if(self.syncs_fail))
            .open(half_if(self.recoveries_fail))
            .read(half_if(self.recoveries_fail))
    }
}

/// Draws with two outcomes, or none.
fn half_if(draws: bool) -> Probability {
    if draws {
        Probability::new(1, 2).unwrap_or(Probability::ZERO)
    } else {
        Probability::ZERO
    }
}

fn sectors() -> PartialWriteMode {
    SectorSize::new(8).map_or(PartialWriteMode::Subset, PartialWriteMode::Sectors)
}

/// What a recovery has to find: `records`, and after them at most one of `failed`, which are those with a failed
/// append.
#[derive(Drop)]
struct Promised {
    records: Vec<Vec<u8>>,
    failed: Vec<Vec<u8>>,
}

impl Promised {
    fn new(alloc: Global, records: Vec<Vec<u8>>) -> Promised {
        Promised {
            records,
            failed: Vec::new(alloc),
        }
    }

    /// Adds the record of an append that succeeded, or failed.
    fn add(&mut self, record: Vec<u8>, is_done: bool) -> Result<(), AllocError> {
        let records = if is_done {
            &mut self.records
        } else {
            &mut self.failed
        };
        Ok(records.push(record)?)
    }

    fn is_kept(&self, found: &[Vec<u8>]) -> bool {
        let count = self.records.len();
        if found.len() < count || !self.records.iter().zip(found).all(|(a, b)| a == b) {
            return false;
        }
        match found.get(count) {
            None => true,
            Some(more) => found.len() == count + 1
                && self.failed.iter().any(|failed| failed == more),
        }
    }
}

fn append_each(
    alloc: Global,
    store: &mut Store<ScriptedRng>,
    log: &mut Tried,
    entries: &[&[u8]],
    promised: &mut Promised,
) -> Result<(), Error> {
    for entry in entries {
        let is_done = log.append(alloc, store, entry).is_ok();
        promised.add(Vec::from_slice(alloc, entry)?, is_done)?;
    }
    Ok(())
}

// Only the proof of this function sees the contract of a crash.
fn crash(store: &mut Store<ScriptedRng>) -> Result<(), Error> {
    let _ = store.crash()?;
    Ok(())
}

/// Recovers. If the open or the read fails, the power does, and the next recovery meets no fault.
fn recover(
    alloc: Global,
    store: &mut Store<ScriptedRng>,
    mistake: Option<Mistake>,
) -> Result<(Tried, Vec<Vec<u8>>), Error> {
    if let Ok(recovered) = Tried::recover(alloc, store, mistake) {
        return Ok(recovered);
    }
    crash(store)?;
    store.set_config(Config::default());
    Tried::recover(alloc, store, mistake)
}

/// Returns whether two recoveries, with a crash between them, find what they have to, and the same.
fn recover_twice(
    alloc: Global,
    store: &mut Store<ScriptedRng>,
    mistake: Option<Mistake>,
    promised: &mut Promised,
) -> Result<(Tried, bool), Error> {
    let (_, found) = recover(alloc, store, mistake)?;
    let is_kept = promised.is_kept(&found);
    *promised = Promised::new(alloc, found);
    crash(store)?;
    let (log, again) = recover(alloc, store, mistake)?;
    let is_same = promised.is_kept(&again);
    Ok((log, is_kept && is_same))
}

/// Appends these records, ends the session by a crash or a reopen, and recovers. Returns whether the recoveries find
/// what they have to.
fn session(
    alloc: Global,
    store: &mut Store<ScriptedRng>,
    case: &Case,
    log: &mut Tried,
    promised: &mut Promised,
    (entries, crashes): (&[&[u8]], bool),
) -> Result<bool, Error> {
    store.set_config(case.config());
    append_each(alloc, store, log, entries, promised)?;
    if crashes {
        crash(store)?;
    }
    let (again, holds) = recover_twice(alloc, store, case.mistake, promised)?;
    *log = again;
    Ok(holds)
}

/// The records of two sessions, `at` in the first, and whether each ends in a crash.
fn parts(case: &Case, at: usize) -> [(&'static [&'static [u8]], bool); 2] {
    let (first, second) = RECORDS.split_at(at.min(3));
    let second = &second[..case.records.saturating_sub(at).min(second.len())];
    [(first, !case.reopens), (second, true)]
}

fn sessions(
    alloc: Global,
    store: &mut Store<ScriptedRng>,
    case: &Case,
    at: usize,
    log: &mut Tried,
) -> Result<bool, Error> {
    let mut promised = Promised::new(alloc, Vec::new(alloc));
    let mut holds = true;
    for part in parts(case, at) {
        holds &= session(alloc, store, case, log, &mut promised, part)?;
    }
    Ok(holds)
}

/// Two sessions, the first with the first `at` records. Returns whether each recovery finds what it has to.
fn run(
    alloc: Global,
    store: &mut Store<ScriptedRng>,
    case: &Case,
    at: usize,
) -> Result<bool, Error> {
    let (mut log, _) = Tried::recover(alloc, store, case.mistake)?;
    sessions(alloc, store, case, at, &mut log)
}

/// A new store that draws these words.
fn store_of(alloc: Global, words: Vec<u64>) -> Store<ScriptedRng> {
    let memory = blob_memory::Storage::new(alloc);
    let rng = ScriptedRng::new(words);
    blob_faulty::Storage::new(alloc, memory, rng, Config::default())
}

/// The words of the explorer's path, zeros, and a last word that isn't zero. Returns how many there are before that.
fn words_of(explorer: &Explorer) -> Result<(Vec<u64>, usize), Error> {
    let mut words = explorer.words()?;
    let given = words.len().saturating_add(SPARE);
    words.resize(given, 0)?;
    words.push(u64::MAX)?;
    Ok((words, given))
}

/// How many of the given words a run took, if it didn't take the last one.
fn taken(store: &Store<ScriptedRng>, given: usize) -> Result<usize, Error> {
    match store.rng().left() {
        Some(left) if left > 0 => Ok(given.saturating_sub(left - 1)),
        _ => Err(Error::GenerationsExhausted),
    }
}

/// Runs along the explorer's path. Returns the number of draws, and whether the run held.
fn visit(
    alloc: Global,
    explorer: &Explorer,
    case: &Case,
    at: usize,
) -> Result<(usize, bool), Error> {
    let (words, given) = words_of(explorer)?;
    let mut store = store_of(alloc, words);
    let holds = run(alloc, &mut store, case, at)?;
    Ok((taken(&store, given)?, holds))
}

/// The leaves of all runs of a case, and the number of those that don't hold.
#[derive(Clone, Copy)]
struct Explored {
    leaves: u64,
    broken: u64,
}

/// Visits each leaf. The power fails after each number of appends.
fn explore(alloc: Global, case: Case) -> Result<Explored, Error> {
    let mut explored = Explored {
        leaves: 0,
        broken: 0,
    };
    for at in 0..=case.records {
        let mut explorer = Explorer::new(alloc);
        let mut is_done = false;
        for _ in 0..LIMIT {
            let (taken, holds) = visit(alloc, &explorer, &case, at)?;
            explored.leaves = explored.leaves.saturating_add(1);
            explored.broken = explored.broken.saturating_add(u64::from(!holds));
            if !explorer.advance(taken)? {
                is_done = true;
                break;
            }
        }
        if !is_done {
            return Err(Error::GenerationsExhausted);
        }
    }
    Ok(explored)
}

fn prefixes(records: usize) -> Case {
    Case::new(PartialWriteMode::Prefix, records)
}

// Cases that lose nothing, with the number of their leaves, which is counted by hand. In prefix mode a crash or a failed
// write has n + 1 outcomes for a frame of n bytes. With sectors it has 4, since each of these frames touches two sectors.

/// Cases in which writes fail.
fn writes() -> [(Case, u64); 2] {
    let mut two = prefixes(2);
    two.writes_fail = true;
    let mut three = two;
    three.records = 3;
    // One more outcome for each write that succeeds: 18, 18 and 11, whichever session has which record.
    [(two, 3 * 324), (three, 4 * 324 * 11)]
}

/// Cases in which writes and syncs fail.
fn syncs() -> [(Case, u64); 4] {
    let mut two = prefixes(2);
    two.writes_fail = true;
    two.syncs_fail = true;
    let mut reopens = two;
    reopens.reopens = true;
    let mut in_sectors = two;
    in_sectors.mode = sectors();
    in_sectors.records = 3;
    let mut recoveries = two;
    recoveries.recoveries_fail = true;
    recoveries.records = 1;
    [
        // A record has 1 + 17 + 17 outcomes: Ok, a failed write, and a failed sync, after which the crash keeps a part.
        // If one session has both records and the first one's sync fails, the second is written over it, and a crash
        // makes no draw for it if it is covered: 35 + 17 * 35 + (1 + (16 * 17 + 1) + 17 * 17).
        (two, 1193 + 35 * 35 + 1193),
        // A reopen discards what is pending, so that in the first session a failed sync has one outcome.
        (reopens, 1193 + 19 * 35 + 19 * 19),
        // A record has 1 + 4 + 4 outcomes. Two records of one session have 75, or 81 if the second is shorter. All
        // three have 666.
        (in_sectors, 666 + 9 * 81 + 75 * 9 + 666),
        // A session's two recoveries have 5 outcomes: the open or the read of one fails, or none does.
        (recoveries, 2 * 5 * 5 * 35),
    ]
}

fn lose_nothing(rt: &impl Abort, alloc: Global, cases: &[(Case, u64)]) -> Result<(), Error> {
    for (case, leaves) in cases {
        let found = explore(alloc, *case)?;
        let (visited, broken) = (found.leaves, found.broken);
        assert!(rt;
            visited == *leaves && broken == 0,
            "{broken} of {visited}, not 0 of {leaves}"
        );
    }
    Ok(())
}

#[test]
fn failing_writes_lose_nothing(rt: HostRuntime) -> Result<(), Fail> {
    Ok(lose_nothing(&rt, rt.alloc(), &writes())?)
}

#[test]
fn failing_syncs_lose_nothing(rt: HostRuntime) -> Result<(), Fail> {
    Ok(lose_nothing(&rt, rt.alloc(), &syncs())?)
}

/// A case with a mistake, in which writes fail, syncs fail, or the first session ends in a reopen.
fn wrong(mistake: Mistake, mut case: Case, faults: [bool; 3]) -> Case {
    let [writes_fail, syncs_fail, reopens] = faults;
    case.mistake = Some(mistake);
    case.writes_fail = writes_fail;
    case.syncs_fail = syncs_fail;
    case.reopens = reopens;
    case
}

/// Cases with a mistake, and whether a leaf shows it.
fn mistaken() -> [(Case, bool); 6] {
    let unsynced = wrong(Mistake::NoSync, prefixes(1), [false, false, false]);
    let early = wrong(Mistake::EarlyOk, prefixes(1), [false, false, false]);
    let early_failing = wrong(Mistake::EarlyOk, prefixes(1), [false, true, false]);
    let zeros = wrong(
        Mistake::ZerosPass,
        Case::new(sectors(), 1),
        [false, true, false],
    );
    let unadmitted = wrong(Mistake::NoAdmit, prefixes(2), [true, true, false]);
    let unadmitted_reopening = wrong(Mistake::NoAdmit, prefixes(2), [true, true, true]);
    [
        (unsynced, true),
        (early, false),
        (early_failing, true),
        (zeros, true),
        (unadmitted, false),
        (unadmitted_reopening, true),
    ]
}

#[test]
fn each_mistake_is_found(rt: HostRuntime) -> Result<(), Fail> {
    for (number, (case, is_found)) in mistaken().into_iter().enumerate() {
        let broken = explore(rt.alloc(), case)?.broken;
        assert!(rt;
            (broken > 0) == is_found,
            "mistake {number}: {broken} leaves"
        );
    }
    Ok(())
}
