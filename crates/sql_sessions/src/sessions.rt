//! Sessions of a database, each ended by a crash.
ghost use Rattle.std.specs.Prelude.{◌≡◌, ◌⊎◌, ◌≤◌, ◌<◌, false, IsTrue, IfOk, length};
ghost use Rattle.sqlite.specs.State.{HasCleanDisk};
ghost use Rattle.sqlite.specs.Held.{state};
ghost use Rattle.sqlite.specs.Files.{file_state};
ghost use Rattle.sqlite.specs.Tree.{Trees};
ghost use Rattle.sql_sessions.specs.Runs.{SessionMakes, text_bytes};
ghost use Rattle.sql_sessions.specs.Ends.{LeadTo};
ghost use Rattle.sql_sessions.specs.Left.{RetriesHonestly};

use crate::crashes::crash_and_open;
use crate::transactions::transact;
use sqlite::{Alter, Connection, Error, ErrorCode, FileStore, Files, Options};
use sqlite_disk::Crash;
use std::alloc::Global;

/// The result of a session.
#[derive(Clone, Copy, Debug)]
pub struct Session {
    /// How many of its transactions returned Ok.
    pub done: usize,
    /// Whether the next one failed, which ended the session.
    pub failed: bool,
}

/// Runs each text as a transaction, in order, up to the first that fails.
fn run_all<S: Alter>(conn: &mut Connection<S>, texts: &[String]) -> Session
    requires idle { conn.old.in_transaction ≡ false }
    requires live { HasCleanDisk (state S.Store conn.old) → IsTrue (state S.Store conn.old).is_open }
    requires settled { HasCleanDisk (state S.Store conn.old) → (state S.Store conn.old).now ≡ (state S.Store conn.old).committed }
    ensures idle { conn.new.in_transaction ≡ false }
    ensures counted { result.done ≤ length texts.now }
    ensures more { IsTrue result.failed → result.done < length texts.now }
    ensures all { result.failed ≡ false → result.done ≡ length texts.now }
    ensures clean { HasCleanDisk (state S.Store conn.new) → HasCleanDisk (state S.Store conn.old) }
    ensures makes { HasCleanDisk (state S.Store conn.new) → (after : Trees) → (state S.Store conn.new).may_leave after
        → SessionMakes S.Store result (text_bytes texts.now) (state S.Store conn.old).committed.trees after }
{
    let mut done = 0;
    for text in texts {
        // its contract says that the database obeys its schema
        let _schema = conn.schema();
        if transact(conn, text).is_err() {
            return Session { done, failed: true };
        }
        done += 1;
    }
    Session {
        done,
        failed: false,
    }
}

/// Opens the database in the files. Then, for each list of texts, runs each text as a transaction up to the first that
/// fails, crashes the machine, and opens what is left.
///
/// Each open finds the database of the open before it with the acknowledged transactions applied, in order. The one that
/// failed may be applied too, whole. No other transaction is.
///
/// A failed open after a crash is tried again up to `retries` times, as by `crash_and_open`.
///
/// Errors: that of an open, which ends the sessions, and `OutOfMemory`.
pub fn sessions_survive<D: Crash + Drop>(
    alloc: Global,
    files: Files<D>,
    options: Options,
    retries: usize,
    sessions: &[Vec<String>],
) -> Result<(Vec<Session>, Connection<FileStore<D>>), Error>
    requires log { IsTrue (D.Disk.is_usable files.log) }
    requires db { IsTrue (D.Disk.is_usable files.db) }
    ensures survive { RetriesHonestly D.Disk retries → IfOk result (λ r. HasCleanDisk (file_state r.1) → LeadTo files r.0.items sessions.now r.1) }
{
    let mut conn = match Connection::open_files(alloc, files, options) {
        Ok(conn) => conn,
        Err((error, _)) => return Err(error),
    };
    let mut done = Vec::new(alloc);
    for texts in sessions {
        let session = run_all(&mut conn, texts);
        if done.push(session).is_err() {
            return Err(Error::SqliteFailure(ErrorCode::OutOfMemory));
        }
        conn = match crash_and_open(alloc, conn, options, retries) {
            Ok(again) => again,
            Err((error, _)) => return Err(error),
        };
    }
    Ok((done, conn))
}
