//! A crash of the machine while a connection is open, and the open after it.
ghost use Rattle.std.specs.Prelude.{◌≡◌, ◌≢◌, IsTrue, IfOk, IfErr};
ghost use Rattle.sqlite.specs.WalReads.{AreClean};
ghost use Rattle.sqlite.specs.State.{HasCleanDisk};
ghost use Rattle.sqlite.specs.Held.{IsNew};
ghost use Rattle.sqlite.specs.Files.{IsOpened, file_state};
ghost use Rattle.sql_sessions.specs.Left.{FindsOutcome, HoldsOutcomes, NeverLies, RetriesHonestly, not_a_database};

use crate::files::lose;
use crate::retries::open_again;
use sqlite::{Connection, Error, FileStore, Files, Leftover, Options};
use sqlite_disk::Crash;
use std::alloc::Global;

/// Ends a connection by a crash of its machine and returns the files. Nothing more is written. Of unsynced writes, the
/// files keep what their own crash keeps. They hold one of the databases that the connection says a crash may leave, also
/// after another crash.
pub fn crash<D: Crash + Drop>(conn: Connection<FileStore<D>>) -> Files<D>
    ensures log { IsTrue (D.Disk.is_usable result.log) }
    ensures db { IsTrue (D.Disk.is_usable result.db) }
    ensures clean { AreClean D.Disk result.log result.db → HasCleanDisk (file_state conn) }
    ensures left { AreClean D.Disk result.log result.db → HoldsOutcomes conn result }
{
    let mut files = conn.into_store().close();
    lose(&mut files);
    files
}

/// Crashes the machine and opens what is left. It finds one of the databases that the connection says a crash may leave.
/// If the connection was open, that is its last commit.
///
/// A failed open is tried again after another crash, up to `retries` times. It isn't if it had opened the store and failed
/// as it checked the rows, or if the pages have checksums: the toolchain's contracts don't say enough of what it leaves.
///
/// Errors: a fault of a disk, a full disk, `OutOfMemory`, each with what is left of the files. If the disks' reads never
/// lie, what a crash left is never rejected as not a database.
pub fn crash_and_open<D: Crash + Drop>(
    alloc: Global,
    conn: Connection<FileStore<D>>,
    options: Options,
    retries: usize,
) -> Result<Connection<FileStore<D>>, (Error, Leftover<D>)>
    ensures opened { IfOk result (λ again. HasCleanDisk (file_state again) → IsOpened again) }
    ensures fresh { IfOk result IsNew }
    ensures clean { RetriesHonestly D.Disk retries → IfOk result (λ again. HasCleanDisk (file_state again) → HasCleanDisk (file_state conn)) }
    ensures found { RetriesHonestly D.Disk retries → IfOk result (λ again. HasCleanDisk (file_state again) → FindsOutcome conn again) }
    ensures committed { RetriesHonestly D.Disk retries → IfOk result (λ again. HasCleanDisk (file_state again) → IsTrue (file_state conn).is_open
        → (file_state again).committed.trees ≡ (file_state conn).committed.trees) }
    ensures accepted { NeverLies D.Disk → IfErr result (λ e. e.0 ≢ not_a_database) }
{
    open_again(alloc, crash(conn), options, retries)
}
