//! The replies of a laboratory.
use blob_base::{BlobVersion, Error};
use blob_draws::Selections;

/// The reply to one call.
#[derive(Debug, Drop)]
pub enum Reply {
    /// The call succeeded. There is no result.
    Done,
    /// An open: the handle's number, the blob's size in bytes and its version.
    Opened {
        handle: usize,
        size: u64,
        version: BlobVersion,
    },
    /// The bytes of a read.
    Bytes(Vec<u8>),
    /// A handle's tracked size in bytes.
    Size(u64),
    /// The names of a partition, sorted by bytes.
    Names(Vec<Vec<u8>>),
    /// The number of a started sync. Its outcome follows when it is finished.
    Started(usize),
    /// What a crash drew: for each write that needed a draw, which bytes it kept.
    Crashed(Selections),
    /// The call failed. Its own docs say what each error leaves.
    Failed(Error),
    /// No open handle or unfinished sync has this number. Nothing changed.
    NoHandle,
    /// The range of versions is empty. Nothing changed.
    EmptyRange,
}
