//! A second session in the same state, of a store or of files. What a session is and does is `blob_sessions` and `blob_file_sessions`.
ghost use Rattle.std.specs.Prelude.{◌≡◌, ◌≢◌, ◌⊎◌, None, IsSome};
ghost use Rattle.blob_file_sessions.specs.Forks as of_files;
ghost use Rattle.blob_file_sessions.specs.Held.{files_of};
ghost use Rattle.blob_sessions.specs.Forks.{HasForkIn};
ghost use Rattle.blob_sessions.specs.Sessions.{kept_of};

use blob_file_sessions::Files;
use blob_sessions::Session;
use blob_sessions::ran::{BAD_CALL, CLOSED, DONE, NO_MEMORY};
use std::alloc::Global;

/// Opens the closed session `fork` in the state of `session`: the same store, settings, handles and started syncs by the same numbers,
/// words of the generator, supply of power and last reply. Its registry of durability debt is new. `session` stays as it is, and no call
/// in one changes the other.
///
/// Errors, with nothing changed:
/// - `BAD_CALL` if `fork` is open. Checked first.
/// - `CLOSED` if `session` is closed.
/// - `NO_MEMORY`.
#[unsafe(no_mangle)]
pub extern "C" fn blobcrash_fork_session(
    alloc: Global,
    session: &mut Session,
    fork: &mut Session,
) -> u32
    ensures done { result ≡ DONE → HasForkIn session.old fork.new }
    ensures first { kept_of session.new ≡ kept_of session.old }
    ensures refused { result ≢ DONE → kept_of fork.new ≡ kept_of fork.old }
    ensures open { result ≡ BAD_CALL → IsSome (kept_of fork.old) }
    ensures closed { result ≡ CLOSED → kept_of session.old ≡ None }
    ensures status { (result ≡ DONE) ⊎ (result ≡ BAD_CALL) ⊎ (result ≡ CLOSED) ⊎ (result ≡ NO_MEMORY) }
{
    session.fork(alloc, fork)
}

/// Opens the closed files `fork` in the state of `files`: the same names, bytes, settings and descriptors, words of the
/// generator, supply of power and last reply. `files` stays as it is, and no call in one changes the other.
///
/// Errors, with nothing changed:
/// - `BAD_CALL` if `fork` is open. Checked first.
/// - `CLOSED` if `files` is closed.
/// - `CRASHED` if the recovery of the last crash failed.
/// - `NO_MEMORY`.
#[unsafe(no_mangle)]
pub extern "C" fn blobcrash_files_fork(alloc: Global, files: &mut Files, fork: &mut Files) -> u32
    ensures done { result ≡ DONE → of_files.HasForkIn files.old fork.new }
    ensures first { files_of files.new ≡ files_of files.old }
    ensures refused { result ≢ DONE → files_of fork.new ≡ files_of fork.old }
    ensures open { result ≡ BAD_CALL → IsSome (files_of fork.old) }
    ensures closed { result ≡ CLOSED → files_of files.old ≡ None }
    ensures status { of_files.IsForkStatus result }
{
    files.fork(alloc, fork)
}
