//! One seed: fills a database, crashes its files, opens it again, and compares its rows.
ghost use Rattle.blob_faulty.specs.Certain.{IsNever, partial_resizes};

use crate::counts::{Counts, add};
use crate::disks::files;
use crate::file::Crashing;
use crate::mode::{Faults, Mode, below};
use crate::state::{State, read};
use crate::transaction::fill;
use anyhow::Result;
use blob_faulty::Config;
use rand_core::{Rng, SeedableRng};
use rand_xoshiro::Xoshiro256PlusPlus;
use sqlite::{Alter, Connection, FileStore, Files, Options};
use sqlite_disk::Disk;
use std::alloc::{AllocError, Global};

/// The number of crashes before the last open, which has no faults.
const ROUNDS: u64 = 3;

/// What is done with the open database.
#[derive(Clone, Copy)]
enum Visit {
    /// Transactions.
    Fill,
    /// The rows are compared, if they can be read, and then transactions run.
    GoOn,
    /// The rows are compared. They can be read, since nothing fails any more.
    End,
}

/// What an open showed.
#[derive(Clone, Copy)]
enum Seen {
    /// The committed rows, or rows that a fault hid.
    Right,
    Wrong,
    /// The database can't be opened, or not be read at the end.
    Nothing,
}

/// A seed as it goes on.
#[derive(Drop)]
struct Trial {
    alloc: Global,
    rng: Xoshiro256PlusPlus,
    state: State,
    counts: Counts,
}

/// Small limits, so that transactions spill and the log is copied into the file.
fn options(rng: &mut Xoshiro256PlusPlus) -> Options {
    let mut options = Options::new(rng.next_u64());
    options.cache_pages = 1 + below(rng, 8) as usize;
    options.spill_pages = 1 + below(rng, 4) as usize;
    options.checkpoint_frames = 4 + below(rng, 32) as usize;
    options
}

/// Opens the database, or returns the files as they were left. After a failed sync, files can't be opened before a
/// crash.
fn open<D: Disk + Drop>(
    alloc: Global,
    files: Files<D>,
    rng: &mut Xoshiro256PlusPlus,
) -> Result<Connection<FileStore<D>>, Files<D>> {
    let (is_log_usable, is_db_usable) = (files.log.may_be_used(), files.db.may_be_used());
    if !is_log_usable || !is_db_usable {
        return Err(files);
    }
    match Connection::open_files(alloc, files, options(rng)) {
        Ok(conn) => Ok(conn),
        Err((_, left)) => Err(left.into_files()),
    }
}

impl Trial {
    /// Crashes both files.
    fn crash<D: Crashing>(&mut self, files: &mut Files<D>, log: Config, db: Config)
        requires log { IsNever (partial_resizes log.resize_rate) }
        requires db { IsNever (partial_resizes db.resize_rate) }
    {
        add(&mut self.counts.crashes);
        files.log.crash_to(log);
        files.db.crash_to(db);
    }

    fn fill<S: Alter>(&mut self, conn: &mut Connection<S>) -> Result<Seen, AllocError> {
        fill(
            self.alloc,
            conn,
            &mut self.rng,
            &mut self.state,
            &mut self.counts,
        )?;
        Ok(Seen::Right)
    }

    fn look<S: Alter>(
        &mut self,
        conn: &mut Connection<S>,
        visit: Visit,
    ) -> Result<Seen, AllocError> {
        if let Visit::Fill = visit {
            return self.fill(conn);
        }
        let Ok(found) = read(self.alloc, conn) else {
            return Ok(match visit {
                Visit::End => Seen::Nothing,
                _ => Seen::Right,
            });
        };
        if !self.state.takes(found, &mut self.counts) {
            return Ok(Seen::Wrong);
        }
        match visit {
            Visit::End => Ok(Seen::Right),
            _ => self.fill(conn),
        }
    }

    /// Does what the visit says, and ends the connection.
    fn visit<S: Alter + Drop>(
        &mut self,
        mut conn: Connection<S>,
        visit: Visit,
    ) -> Result<(S, Seen), AllocError> {
        let seen = self.look(&mut conn, visit)?;
        Ok((conn.into_store(), seen))
    }

    /// Opens the database, does what the visit says, and closes it. No other function calls one that is generic over a
    /// store: each such call costs the proof of its function half a minute.
    fn session<D: Disk + Drop>(
        &mut self,
        files: Files<D>,
        visit: Visit,
    ) -> Result<(Files<D>, Seen), AllocError> {
        match open(self.alloc, files, &mut self.rng) {
            Ok(conn) => {
                let (store, seen) = self.visit(conn, visit)?;
                Ok((store.close(), seen))
            }
            Err(left) => Ok((left, Seen::Nothing)),
        }
    }

    /// Opens the database, compares its rows and runs transactions. If the open fails, crashes the files and does it
    /// again without faults.
    fn go_on<D: Crashing + Drop>(
        &mut self,
        files: Files<D>,
    ) -> Result<(Files<D>, Seen), AllocError> {
        let (mut files, seen) = self.session(files, Visit::GoOn)?;
        match seen {
            Seen::Nothing => {
                add(&mut self.counts.refused);
                self.crash(&mut files, Config::default(), Config::default());
                self.session(files, Visit::GoOn)
            }
            _ => Ok((files, seen)),
        }
    }

    /// Crashes the files, and compares the rows once more, without faults.
    fn end<D: Crashing + Drop>(&mut self, mut files: Files<D>) -> Result<Seen, AllocError> {
        self.crash(&mut files, Config::default(), Config::default());
        let (_, seen) = self.session(files, Visit::End)?;
        Ok(seen)
    }

    /// Runs a seed with crashes.
    fn rounds<D: Crashing + Drop>(
        &mut self,
        mut files: Files<D>,
        faults: Faults,
    ) -> Result<Seen, AllocError> {
        for _ in 0..ROUNDS {
            let (log, db) = (faults.config(&mut self.rng), faults.config(&mut self.rng));
            self.crash(&mut files, log, db);
            let (left, seen) = self.go_on(files)?;
            files = left;
            match seen {
                Seen::Right => {}
                _ => return Ok(seen),
            }
        }
        self.end(files)
    }

    /// Runs a seed of files that fail from some call on, over one crash.
    fn fused<D: Crashing + Drop>(&mut self, files: Files<D>) -> Result<Seen, AllocError> {
        let (files, seen) = self.session(files, Visit::Fill)?;
        if let Seen::Nothing = seen {
            add(&mut self.counts.refused);
        }
        self.end(files)
    }

    fn run<D: Crashing + Drop>(
        &mut self,
        files: Files<D>,
        mode: &Mode,
    ) -> Result<Seen, AllocError> {
        if mode.is_fused {
            return self.fused(files);
        }
        self.rounds(files, mode.faults)
    }

    /// Returns what was wrong, if anything.
    fn told(&self, seen: Seen) -> Result<Option<String>, AllocError> {
        let rows = match &self.state.rows {
            Some(rows) => rows.len(),
            None => 0,
        };
        Ok(match seen {
            Seen::Right => None,
            Seen::Wrong => Some(format!(in self.alloc;
                "other rows than were committed, now {rows}"
            )?),
            Seen::Nothing => Some(String::from_str(self.alloc, "the database can't be opened")?),
        })
    }
}

/// Runs a seed. Returns what was wrong, if anything.
pub fn run(
    alloc: Global,
    seed: u64,
    mode: &Mode,
    is_lying: bool,
    counts: &mut Counts,
) -> Result<Option<String>> {
    let mut rng = Xoshiro256PlusPlus::seed_from_u64(seed);
    let files = files(alloc, mode, is_lying, &mut rng)?;
    let mut trial = Trial {
        alloc,
        rng,
        state: State::new(),
        counts: *counts,
    };
    let seen = trial.run(files, mode)?;
    *counts = trial.counts;
    Ok(trial.told(seen)?)
}
