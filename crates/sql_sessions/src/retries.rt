//! An open that is tried again after it failed.
ghost use Rattle.std.specs.Prelude.{◌≡◌, IsTrue, OnOk, IfOk, IfErr, IfSome};
ghost use Rattle.sqlite_wal.specs.Reads.{AreClean, OnlyReads};
ghost use Rattle.sqlite.specs.State.{HasCleanDisk};
ghost use Rattle.sqlite.specs.Held.{IsNew};
ghost use Rattle.sqlite.specs.Files.{IsOpened, file_state, image_of};
ghost use Rattle.sql_sessions.specs.Left.{NeverLies, RetriesHonestly, not_a_database};
ghost use Rattle.sql_sessions.specs.Retries.{FindsLeft, HoldsPlain, LeaveNoMore, MayHoldNone, MayOpenAgain, StandFor};

use crate::files::lose;
use sqlite::{Connection, Error, FileStore, Files, Leftover, Options};
use sqlite_disk::{Crash, Disk};
use sqlite_wal::{probe_first_page, probe_page_size};
use std::alloc::Global;

/// Bytes 20 to 23 of the first page, if each page ends in a checksum.
const WITH_SUMS: u32 = 0x0840_2020;

/// The result of an open.
type Opened<D> = Result<Connection<FileStore<D>>, (Error, Leftover<D>)>;

/// Returns whether the pages of the database have no checksums. Only reads. Returns None if a read fails, and for memory.
fn is_plain<D: Disk>(alloc: Global, files: &mut Files<D>) -> Option<bool>
    requires log { IsTrue (D.Disk.is_usable files.old.log) }
    requires db { IsTrue (D.Disk.is_usable files.old.db) }
    ensures plain { IfSome result (λ plain. IsTrue plain → AreClean D.Disk files.new.log files.new.db → HoldsPlain (image_of D.Disk files.old)) }
    ensures log { OnlyReads D.Disk files.old.log files.new.log }
    ensures db { OnlyReads D.Disk files.old.db files.new.db }
{
    match probe_page_size(files) {
        Ok(Some(size)) => match probe_first_page(alloc, files, size) {
            Ok(head) => Some(head.1 != WITH_SUMS),
            Err(_) => None,
        },
        Ok(None) => Some(false),
        Err(_) => None,
    }
}

fn may_open_again<D: Disk>(plain: bool, left: &Leftover<D>) -> bool
    ensures { IsTrue result → MayOpenAgain plain left.now }
{
    match left {
        Leftover::Files(_) => true,
        Leftover::Unopened(_) => plain,
        Leftover::Store(_) => false,
    }
}

/// Crashes the files that a failed open left, if it may be tried again.
fn lose_left<D: Crash>(plain: bool, left: Leftover<D>) -> Result<Files<D>, Leftover<D>>
    ensures may { OnOk result (MayOpenAgain plain left) }
    ensures crash { IfOk result (LeaveNoMore left) }
    ensures log { IfOk result (λ files. IsTrue (D.Disk.is_usable files.log)) }
    ensures db { IfOk result (λ files. IsTrue (D.Disk.is_usable files.db)) }
    ensures same { IfErr result (λ same. same ≡ left) }
{
    if !may_open_again(plain, &left) {
        return Err(left);
    }
    let mut files = left.into_files();
    lose(&mut files);
    Ok(files)
}

/// Opens the database in the files. Returns the crashed files if the open failed and may be tried again.
fn open_once<D: Crash + Drop>(
    alloc: Global,
    mut files: Files<D>,
    options: Options,
) -> Result<Opened<D>, Files<D>>
    requires log { IsTrue (D.Disk.is_usable files.log) }
    requires db { IsTrue (D.Disk.is_usable files.db) }
    ensures opened { IfOk result (λ done. IfOk done (λ c. HasCleanDisk (file_state c) → IsOpened c)) }
    ensures fresh { IfOk result (λ done. IfOk done IsNew) }
    ensures found { IfOk result (λ done. IfOk done (λ c. HasCleanDisk (file_state c) → FindsLeft files c)) }
    ensures refused { NeverLies D.Disk → IfOk result (λ done. IfErr done (λ e. e.0 ≡ not_a_database → MayHoldNone D.Disk files)) }
    ensures stand { NeverLies D.Disk → IfErr result (StandFor D.Disk files) }
    ensures log { IfErr result (λ left. IsTrue (D.Disk.is_usable left.log)) }
    ensures db { IfErr result (λ left. IsTrue (D.Disk.is_usable left.db)) }
{
    let Some(plain) = is_plain(alloc, &mut files) else {
        lose(&mut files);
        return Err(files);
    };
    match Connection::open_files(alloc, files, options) {
        Ok(conn) => Ok(Ok(conn)),
        Err((error, left)) => match lose_left(plain, left) {
            Ok(files) => Err(files),
            Err(left) => Ok(Err((error, left))),
        },
    }
}

/// Opens the database in the files. A failed open is tried again after a crash of both files, up to
/// `retries` times.
///
/// Errors: that of the last open, with what is left of the files.
pub fn open_again<D: Crash + Drop>(
    alloc: Global,
    mut files: Files<D>,
    options: Options,
    retries: usize,
) -> Result<Connection<FileStore<D>>, (Error, Leftover<D>)>
    requires log { IsTrue (D.Disk.is_usable files.log) }
    requires db { IsTrue (D.Disk.is_usable files.db) }
    ensures opened { IfOk result (λ c. HasCleanDisk (file_state c) → IsOpened c) }
    ensures fresh { IfOk result IsNew }
    ensures clean { RetriesHonestly D.Disk retries → IfOk result (λ c. HasCleanDisk (file_state c) → AreClean D.Disk files.log files.db) }
    ensures found { RetriesHonestly D.Disk retries → IfOk result (λ c. HasCleanDisk (file_state c) → FindsLeft files c) }
    ensures refused { NeverLies D.Disk → IfErr result (λ e. e.0 ≡ not_a_database → MayHoldNone D.Disk files) }
{
    for _ in 0..retries {
        match open_once(alloc, files, options) {
            Ok(done) => return done,
            Err(left) => files = left,
        }
    }
    Connection::open_files(alloc, files, options)
}
