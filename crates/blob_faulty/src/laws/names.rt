//! Laws about the files that a wrapper represents, for a caller that knows its calls by their traits only.
ghost use Rattle.blob_faulty.specs.Certain.{QuietOpens, QuietRemovals, QuietScans, OpensFail, RemovalsFail, ScansFail};
ghost use Rattle.blob_faulty.specs.Names.{AcceptedOpens, RefusedOpens, DoneRemovals, RefusedRemovals};

use crate::storage::Storage;
use blob_base::Storage as Inner;
use rand_core::Rng;

/// After an accepted open a wrapper represents the files with that open. After a rejected one it represents the same files.
pub fn opens<S: Inner, R: Rng>()
    ensures accepted { AcceptedOpens S.Durable R.stream S.leaves_open }
    ensures refused { RefusedOpens S.Durable R.stream S.leaves_open }
{}

/// After a removal that returned Ok a wrapper represents the files without what was removed. After a rejected one it represents
/// the same files.
pub fn removals<S: Inner, R: Rng>()
    ensures accepted { DoneRemovals S.Durable R.stream S.leaves_remove }
    ensures refused { RefusedRemovals S.Durable R.stream S.leaves_remove }
{}

/// If the rate of an open, a removal or a scan is zero or not set, the call returns what the inner store may return.
pub fn without_faults<S: Inner, R: Rng>()
    ensures opens { QuietOpens ⟦<Storage<S, R> as blob_base::Storage>⟧.allows_open S.allows_open }
    ensures removals { QuietRemovals ⟦<Storage<S, R> as blob_base::Storage>⟧.allows_remove S.allows_remove }
    ensures scans { QuietScans ⟦<Storage<S, R> as blob_base::Storage>⟧.allows_scan S.allows_scan }
{}

/// If that rate is one, the call doesn't return Ok.
pub fn certain_faults<S: Inner, R: Rng>()
    ensures opens { OpensFail ⟦<Storage<S, R> as blob_base::Storage>⟧.allows_open }
    ensures removals { RemovalsFail ⟦<Storage<S, R> as blob_base::Storage>⟧.allows_remove }
    ensures scans { ScansFail ⟦<Storage<S, R> as blob_base::Storage>⟧.allows_scan }
{}
