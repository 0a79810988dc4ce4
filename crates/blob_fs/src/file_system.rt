//! A file system over the fault wrapper.
ghost use Rattle.blob_fs.specs.Named.{AllNamed};
ghost use Rattle.blob_fs.specs.Open.{AllOpen};
ghost use Rattle.blob_fs.specs.Tracked.{IsTracked};
ghost use Rattle.blob_journal.specs.Keeping.{names_in, told_in};

use crate::boxed_file::BoxedFile;
use crate::switches::{FailedSync, FailedWrite, Syncs};
use crate::truncation::{Kept, Truncation};
use crate::unlinked::Gone;
use blob_base::Probability;
use blob_directory::profile::Profile;
pub use blob_directory::tree::ROOT;
use blob_faulty::Config;
pub use blob_journal::store::{Handle, Store};
use blob_journal::{FileBlob, Journaled};
use std::alloc::Global;
use std::collections::BTreeMap;

/// How many names a file may have.
pub const LINKS_MAX: u32 = 65_000;

/// The profile, the faults and the limits of a file system.
#[derive(Debug, Drop)]
pub struct Options {
    pub profile: Profile,
    /// The faults of calls on files, and which bytes of an unsynced write a crash keeps.
    pub faults: Config,
    /// How often a crash keeps an edit that nothing settled.
    pub edit_rate: Probability,
    /// The most bytes that all files together may have.
    pub max_bytes: u64,
    /// The most files that may be there.
    pub max_files: u64,
    pub failed_sync: FailedSync,
    pub syncs: Syncs,
    pub failed_write: FailedWrite,
}

/// An open file. It refers to the inode, not to a name. After a crash it is stale.
#[derive(Clone, Copy, Debug, PartialEq, Eq)]
pub struct Descriptor {
    pub(crate) number: u64,
}

/// An inode of a file.
#[derive(Drop)]
pub(crate) struct File {
    pub(crate) blob: FileBlob,
    pub(crate) links: u32,
    pub(crate) opens: u32,
    /// Its size at its last sync.
    pub(crate) synced: u64,
    /// Its size that the last crash found, before the profile truncated it.
    pub(crate) found: u64,
    /// The number of the next edit after its size last changed.
    pub(crate) sized: u64,
    /// What reads return in place of the blob's bytes, after a sync that failed and dropped some.
    pub(crate) shown: Option<Vec<u8>>,
    /// The truncations that no sync made durable, in the order of their calls. A rename that flushes is noted as one, to the size at it.
    pub(crate) truncations: Vec<Truncation>,
    /// No name and no descriptor refers to it, but a crash may give it a name again.
    pub(crate) is_gone: bool,
    /// How many edits the journal had when it went.
    pub(crate) gone_at: u64,
}

/// Files with names over a fault wrapper.
#[derive(Drop)]
pub struct FileSystem<R> {
    pub(crate) alloc: Global,
    /// The names, their journal, and the store that has it and the blobs of files.
    pub(crate) store: Journaled<R>,
    pub(crate) options: Options,
    pub(crate) directories: BTreeMap<u64, u64>,
    pub(crate) files: BTreeMap<u64, BoxedFile>,
    pub(crate) opens: BTreeMap<u64, u64>,
    pub(crate) next_inode: u64,
    pub(crate) next_open: u64,
    /// The files that are gone, in the order in which they went.
    pub(crate) gone: Vec<Gone>,
    /// How many bytes all files have.
    pub(crate) used: u64,
    pub(crate) is_down: bool,
    /// What the last crash kept, if its recovery failed.
    pub(crate) kept: Option<Kept>,
    // the blob of each file is the current one of its number
    ghost opened: { ∥ AllOpen store files ∥₁ },
    // no file has more names than links, so each one that a name is bound to exists
    ghost named: { ∥ AllNamed (names_in store) files ∥₁ },
    // each file that a crash may find a name of exists
    ghost tracked: { ∥ IsTracked (told_in store) (names_in store) files ∥₁ },
}

/// Returns how many bytes files have.
pub(crate) fn used_by(files: &BTreeMap<u64, BoxedFile>) -> u64 {
    let mut used = 0u64;
    for (_, file) in files {
        used = used.saturating_add(file.as_ref().blob.size());
    }
    used
}
