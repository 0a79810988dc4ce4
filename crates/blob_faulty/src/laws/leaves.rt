//! Laws about what may be found of a blob from now on: its durable bytes, and what any crash leaves that the wrapper may draw.
//! A law says how a call changes a test that all of it passes. So a client states its invariant as a test of one blob's bytes.
ghost use Rattle.blob_faulty.specs.Leaves.{LeavesDiscarded, LeavesBeside, LeavesCrashed, LeavesFound, LeavesOpened, LeavesResized, LeavesSame, LeavesSynced, LeavesSyncedBeside, LeavesUnrecorded, LeavesWeaker, LeavesWritten};

use crate::laws::fits::{draws, resizes, writes};
use rand_core::Rng;

/// The durable bytes pass the test, and each weaker test holds too.
pub fn found<S: blob_base::Durable, R>()
    ensures found { LeavesFound R S.Durable }
    ensures weaker { LeavesWeaker R S.Durable }
{}

/// The test holds after a call that records and retires nothing and changes neither the directory nor durable bytes, after one that
/// leaves the same files (a finished sync, a call that returned an error), and after `admit`.
pub fn same_bytes<S: blob_base::Durable, R>()
    ensures unrecorded { LeavesUnrecorded R S.Durable }
    ensures same { LeavesSame R S.Durable }
    ensures admitted { LeavesDiscarded R S.Durable }
{}

/// The test holds after a write, a resize, a sync or a started sync of another blob.
pub fn other_blobs<S: blob_base::Durable, R>()
    ensures recorded { LeavesBeside R S.Durable }
    ensures synced { LeavesSyncedBeside R S.Durable }
{}

/// The test holds after an accepted open of any name.
pub fn accepted_opens<S: blob_base::Storage, R: Rng>()
    ensures { LeavesOpened R S.Durable R.stream S.leaves_open }
{}

/// After a write, whatever it returns, what may be found is what might have been found before, with bytes of the write over it that
/// its mode allows. No other byte changes.
pub fn written<S: blob_base::Durable, R: Rng>()
    ensures { LeavesWritten R S.Durable R.stream }
{
    writes();
}

/// After a resize, whatever it returns, what may be found is what might have been found before, as it was, or cut or extended to the
/// requested length, or, if it fails in part, to a length above the lesser of the tracked size and the requested one.
pub fn resized<S: blob_base::Durable, R>()
    ensures { LeavesResized R S.Durable }
{
    resizes();
}

/// After a sync or a started sync that returned Ok only the live bytes are found.
pub fn synced<S: blob_base::Durable, R>()
    ensures { LeavesSynced R S.Durable }
{}

/// The test holds after a crash.
pub fn crashed<R: Rng>()
    ensures { LeavesCrashed R.stream }
{
    draws();
}
