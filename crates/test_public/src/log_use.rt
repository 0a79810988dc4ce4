// A log is used as the README shows it, and its sessions over a new store.
use blob_base::{Error, Probability};
use blob_faulty::{Config, PartialWriteMode, WriteConfig};
use blob_log::Log;
use blob_log::log::Store;
use blob_log::sessions::{Session, sessions_survive, sessions_survive_anew};
use rand_core::SeedableRng;
use rand_xoshiro::Xoshiro256PlusPlus;
use std::alloc::Global;
use std::test::Fail;

/// Every write fails, or no write does; of what isn't synced a crash keeps half.
fn config(failure_rate: Probability) -> Config {
    Config::default().write(WriteConfig {
        failure_rate,
        retention_rate: Probability::new(1, 2).unwrap_or(Probability::ZERO),
        mode: PartialWriteMode::Prefix,
    })
}

#[test]
fn an_acknowledged_record_is_found(rt: HostRuntime) -> Result<(), Fail> {
    let alloc = rt.alloc();
    let rng = Xoshiro256PlusPlus::seed_from_u64(1);
    let config = config(Probability::ZERO);
    let memory = blob_memory::Storage::new(alloc);
    let mut store = blob_faulty::Storage::new(alloc, memory, rng, config);
    let (mut log, _) = Log::recover(alloc, &mut store, "wal", b"0")?;
    log.append(&mut store, b"first")?;
    store.crash()?;
    let (_, found) = Log::recover(alloc, &mut store, "wal", b"0")?;
    assert_eq!(rt;
        found.first().map(|r| r.as_slice()),
        Some(b"first".as_slice())
    );
    Ok(())
}

/// Two records and then one.
fn asked(alloc: Global) -> Result<Vec<Vec<Vec<u8>>>, Error> {
    let sessions: [&[&[u8]]; 2] = [&[b"a", b""], &[b"bc"]];
    let mut asked = Vec::new(alloc);
    for session in sessions {
        let mut records = Vec::new(alloc);
        for record in session {
            records.push(Vec::from_slice(alloc, record)?)?;
        }
        asked.push(records)?;
    }
    Ok(asked)
}

/// The number of sessions over a new store in which no write fails, and of the records that are found.
fn anew(alloc: Global, asked: &[Vec<Vec<u8>>]) -> Result<(usize, usize), Error> {
    let rng = Xoshiro256PlusPlus::seed_from_u64(1);
    let config = config(Probability::ZERO);
    let (sessions, found) = sessions_survive_anew(alloc, rng, config, "wal", b"0", asked)?;
    Ok((sessions.len(), found.len()))
}

/// A store in which every write fails.
fn failing(alloc: Global) -> Store<Xoshiro256PlusPlus> {
    let rng = Xoshiro256PlusPlus::seed_from_u64(1);
    let memory = blob_memory::Storage::new(alloc);
    blob_faulty::Storage::new(alloc, memory, rng, config(Probability::ONE))
}

fn is_done(sessions: &[Session]) -> bool {
    for session in sessions {
        if session.answers.contains(&true) {
            return true;
        }
    }
    false
}

/// Whether no append succeeds where every write fails, and no record is found.
fn all_fail(alloc: Global, asked: &[Vec<Vec<u8>>]) -> Result<bool, Error> {
    let mut store = failing(alloc);
    let (sessions, found) = sessions_survive(alloc, &mut store, "wal", b"0", asked)?;
    Ok(found.is_empty() && !is_done(&sessions))
}

#[test]
fn sessions_go_on(rt: HostRuntime) -> Result<(), Fail> {
    let asked = asked(rt.alloc())?;
    assert!(rt; anew(rt.alloc(), &asked)? == (2, 3));
    assert!(rt; all_fail(rt.alloc(), &asked)?);
    Ok(())
}
