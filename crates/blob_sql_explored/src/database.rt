//! A session of the database in two files.
use sqlite::{Alter, Connection, FileStore, Files, Options};
use sqlite_disk::Disk;
use std::alloc::Global;

/// One row in each of two tables, so that a transaction writes two pages.
const TABLES: &str =
    "CREATE TABLE a (x); CREATE TABLE b (x); INSERT INTO a VALUES (0); INSERT INTO b VALUES (0)";

/// The two transactions, without their commits.
static TRANSACTIONS: [&str; 2] = [
    "BEGIN; UPDATE a SET x = 1; UPDATE b SET x = 1",
    "BEGIN; UPDATE a SET x = 2; UPDATE b SET x = 2",
];

/// What a session does.
#[derive(Clone, Copy)]
pub enum Visit {
    /// Creates the tables.
    Prepare,
    /// Runs both transactions, up to the first that fails.
    Run,
    /// Reads the rows.
    Look,
}

#[derive(Clone, Copy)]
pub struct Session {
    pub visit: Visit,
    /// A transaction counts as acknowledged before its commit.
    pub is_early: bool,
    /// After how many frames the log is copied into the file.
    pub frames: usize,
}

/// What a session showed.
#[derive(Clone, Copy)]
pub struct Seen {
    /// How many transactions were acknowledged.
    pub done: u64,
    /// The values of the two rows, if they were read.
    pub rows: Option<(i64, i64)>,
}

/// Runs a transaction. Returns whether it was acknowledged, and whether it succeeded.
fn transact<S: Alter>(conn: &mut Connection<S>, text: &str, is_early: bool) -> (bool, bool) {
    if conn.execute_batch(text).is_err() {
        return (false, false);
    }
    let is_done = conn.execute_batch("COMMIT").is_ok();
    (is_early || is_done, is_done)
}

/// Runs both transactions.
fn run_both<S: Alter>(conn: &mut Connection<S>, is_early: bool, seen: &mut Seen) {
    for text in &TRANSACTIONS {
        let (is_acknowledged, is_done) = transact(conn, text, is_early);
        if is_acknowledged {
            seen.done = seen.done.saturating_add(1);
        }
        if !is_done {
            return;
        }
    }
}

/// Reads the two rows.
fn look<S: Alter>(conn: &mut Connection<S>, seen: &mut Seen) {
    if let Ok(row) = conn.query_row("SELECT a.x, b.x FROM a, b", &[]) {
        if let (Ok(a), Ok(b)) = (row.get(0), row.get(1)) {
            seen.rows = Some((a, b));
        }
    }
}

fn prepare<S: Alter>(conn: &mut Connection<S>) {
    let _ = conn.execute_batch(TABLES);
}

/// Opens the database, or returns the files as they were left.
fn open<D: Disk + Drop>(
    alloc: Global,
    files: Files<D>,
    frames: usize,
) -> Result<Connection<FileStore<D>>, Files<D>> {
    let (is_log_usable, is_db_usable) = (files.log.may_be_used(), files.db.may_be_used());
    if !is_log_usable || !is_db_usable {
        return Err(files);
    }
    let mut options = Options::new(1);
    options.cache_pages = 8;
    options.spill_pages = 8;
    options.checkpoint_frames = frames;
    match Connection::open_files(alloc, files, options) {
        Ok(conn) => Ok(conn),
        Err((_, left)) => Err(left.into_files()),
    }
}

/// Does what the session says, and ends the connection.
fn attend<S: Alter + Drop>(mut conn: Connection<S>, session: Session, seen: &mut Seen) -> S {
    match session.visit {
        Visit::Prepare => prepare(&mut conn),
        Visit::Run => run_both(&mut conn, session.is_early, seen),
        Visit::Look => look(&mut conn, seen),
    }
    conn.into_store()
}

/// Opens the database, does what the session says, and returns the files. Nothing more is written. No other function
/// calls one that is generic over a store: each such call costs the proof of its function half a minute.
pub fn run_session<D: Disk + Drop>(
    alloc: Global,
    files: Files<D>,
    session: Session,
    seen: &mut Seen,
) -> Files<D> {
    match open(alloc, files, session.frames) {
        Ok(conn) => attend(conn, session, seen).close(),
        Err(left) => left,
    }
}
