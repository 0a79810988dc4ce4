//! The disks of a database in each mode.
ghost use Rattle.std.specs.Prelude.{◌<◌};
ghost use Rattle.blob_faulty.specs.Certain.{IsNever, partial_resizes};

use crate::file::{BlobFile, File, Habits};
use crate::mode::{Mode, below};
use anyhow::Result;
use blob_disk::BlobDisk;
use blob_faulty::Config;
use rand_core::{Rng, SeedableRng};
use rand_xoshiro::Xoshiro256PlusPlus;
use sqlite_disk::Files;
use std::alloc::Global;

fn disk(
    alloc: Global,
    rng: &mut Xoshiro256PlusPlus,
    config: Config,
    is_mixing: bool,
) -> Result<BlobFile>
    requires { IsNever (partial_resizes config.resize_rate) }
{
    let draws = Xoshiro256PlusPlus::seed_from_u64(rng.next_u64());
    Ok(BlobDisk::new(alloc, draws, config, is_mixing)?)
}

/// Returns the rates of a file before its first crash. Only a fused file has any.
fn first_config(mode: &Mode, rng: &mut Xoshiro256PlusPlus) -> Config
    ensures { IsNever (partial_resizes result.resize_rate) }
{
    if mode.is_fused {
        mode.faults.config(rng)
    } else {
        Config::default()
    }
}

/// Returns what a file does. A fused one stops after less than `bound` calls.
fn habits(mode: &Mode, is_lying: bool, rng: &mut Xoshiro256PlusPlus, bound: u64) -> Habits
    requires { 0 < bound }
{
    Habits {
        is_lying,
        is_fused: mode.is_fused,
        calls: if mode.is_fused {
            below(rng, bound)
        } else {
            u64::MAX
        },
    }
}

/// Returns the empty files of a mode. Before the first crash, only fused files fail: from some call on, as if the machine stopped.
pub fn files(
    alloc: Global,
    mode: &Mode,
    is_lying: bool,
    rng: &mut Xoshiro256PlusPlus,
) -> Result<Files<File>> {
    let (log, db) = (first_config(mode, rng), first_config(mode, rng));
    let log = disk(alloc, rng, log, mode.is_mixing)?;
    let db = disk(alloc, rng, db, mode.is_mixing)?;
    Ok(Files {
        log: File::new(log, habits(mode, is_lying, rng, 150)),
        db: File::new(db, habits(mode, is_lying, rng, 60)),
    })
}
