//! The calls of a laboratory.
use blob_base::BlobVersion;
use blob_draws::Config;
use std::ops::RangeInclusive;

/// A call to a laboratory. Handles and started syncs are identified by the numbers in their replies. Offsets and
/// lengths are logical, in bytes.
///
/// The reply is `NoHandle` if no open handle or unfinished sync has the number, and `EmptyRange` if a range of versions
/// is empty. Neither changes anything. Any other error is `Failed`, with the error of the underlying call.
#[derive(Debug, Drop)]
pub enum Call {
    /// Replaces the wrapper's whole configuration.
    Configure(Config),
    /// Opens a blob exclusively through `Opens`, then admits it in the wrapper, which retires its pending entries.
    Open {
        partition: String,
        name: Vec<u8>,
        versions: RangeInclusive<BlobVersion>,
    },
    /// Opens a blob in the wrapper only. The name may have other handles, and its pending entries stay.
    OpenLoose {
        partition: String,
        name: Vec<u8>,
        versions: RangeInclusive<BlobVersion>,
    },
    /// Retires the pending entries of the name's current incarnation. Never fails.
    Admit {
        partition: String,
        name: Vec<u8>,
    },
    /// Closes a handle and drops its live bytes. Its number isn't reused.
    Close(usize),
    /// Reads exactly `len` of the handle's live bytes.
    Read {
        handle: usize,
        offset: u64,
        len: usize,
    },
    /// Writes to the live bytes. If `sync` is set, it is a SYNC write, which is durable when it returns.
    Write {
        handle: usize,
        offset: u64,
        bytes: Vec<u8>,
        sync: bool,
    },
    /// Truncates the handle's live bytes to `len`, or extends them with zeros.
    Resize {
        handle: usize,
        len: u64,
    },
    /// Returns the size in bytes that the wrapper tracks for a handle.
    Size(usize),
    /// Makes a handle's live bytes durable.
    Sync(usize),
    /// Starts a sync, which makes the live bytes durable if its outcome is Ok. It gets a number regardless of its
    /// outcome.
    StartSync(usize),
    /// Completes a started sync, by its number. The reply has its outcome.
    Finish(usize),
    /// Removes a blob, or without a name a whole partition. The removed names aren't open any more; their handles stay
    /// in the table, stale.
    Remove {
        partition: String,
        name: Option<Vec<u8>>,
    },
    /// Lists the names of a partition, sorted by bytes.
    Scan {
        partition: String,
    },
    /// Replays the pending entries over the durable bytes, with drawn choices, as the wrapper's `crash` does. Handles
    /// keep their live bytes.
    Crash,
    /// Rebuilds the wrapper over the durable bytes, as a restart does. Drops all pending entries and started syncs.
    /// Every handle becomes stale.
    Reopen,
}
