// Writes over which later bytes are durable leave their pending list, by the wrapper's own calls.
use blob_base::{Blob, Error, IoBufs, Probability, Storage, WriteOptions};
use blob_faulty::{Config, PartialWriteMode, WriteConfig};
use rand_core::SeedableRng;
use rand_xoshiro::Xoshiro256PlusPlus;
use std::alloc::Global;
use std::test::Fail;

const WRITES: usize = 100;

type Store = blob_faulty::Storage<blob_memory::Storage, Xoshiro256PlusPlus>;

type Opened = blob_faulty::Blob<blob_memory::Blob>;

/// A store in which no write fails.
fn new(alloc: Global) -> Store {
    let config = Config::default().write(WriteConfig {
        failure_rate: Probability::ZERO,
        retention_rate: Probability::new(1, 2).unwrap_or(Probability::ZERO),
        mode: PartialWriteMode::Subset,
    });
    let rng = Xoshiro256PlusPlus::seed_from_u64(1);
    blob_faulty::Storage::new(alloc, blob_memory::Storage::new(alloc), rng, config)
}

/// Writes one byte.
fn write(
    alloc: Global,
    store: &mut Store,
    blob: &mut Opened,
    at: usize,
    options: WriteOptions,
) -> Result<(), Error> {
    let byte = IoBufs::from_vec(Vec::from_slice(alloc, b"a")?)?;
    blob.write_at(store, at as u64, byte, options)
}

fn open(store: &mut Store) -> Result<Opened, Error> {
    let (blob, _) = store.open("p", b"b")?;
    Ok(blob)
}

/// Whether no list has more entries than this.
fn are_within(store: &Store, most: usize) -> bool {
    for list in store.pending() {
        if list.entries.len() > most {
            return false;
        }
    }
    true
}

/// Of a hundred bytes one after another is made durable: no more than half of the list is of those.
#[test]
fn covered_writes_leave_their_list(rt: HostRuntime) -> Result<(), Fail> {
    let alloc = rt.alloc();
    let mut store = new(alloc);
    let mut blob = open(&mut store)?;
    for at in 0..WRITES {
        write(alloc, &mut store, &mut blob, at, WriteOptions::default())?;
    }
    for at in 0..WRITES {
        write(alloc, &mut store, &mut blob, at, WriteOptions::SYNC)?;
        assert!(rt; are_within(&store, 2 * (WRITES - 1 - at)));
    }
    Ok(())
}
