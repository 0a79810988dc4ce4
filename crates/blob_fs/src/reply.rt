//! The reply to a call.
ghost use Rattle.std.specs.Prelude.{◌≡◌};
ghost use Rattle.blob_fs.specs.Performs.{crash_reply, done_reply, inode_reply, is_refused, names_reply, opened_reply, size_reply, tree_reply};

use crate::crash::Crash;
use crate::error::FsError;
use crate::file_system::Descriptor;
use crate::whole::TreeEntry;
use blob_directory::edit::Binding;

/// What a call returned.
#[derive(Drop)]
pub enum Reply {
    Done,
    Opened(Descriptor),
    Inode(u64),
    /// What a name is bound to, and its size in bytes.
    Found(Binding, u64),
    /// A size, or how many bytes were read.
    Size(u64),
    /// The names of a directory with their bindings, in the order of their bytes.
    Names(Vec<(Vec<u8>, Binding)>),
    /// Each path that the root reaches.
    Tree(Vec<TreeEntry>),
    Crashed(Crash),
    Refused(FsError),
}

impl Reply {
    /// Returns whether the call returned an error.
    pub fn is_refused(&self) -> bool
        ensures { result ≡ is_refused self.now }
    {
        matches!(self, Reply::Refused(_))
    }
}

/// Returns the reply of a call that returns nothing.
pub fn done(ended: Result<(), FsError>) -> Reply
    ensures { result ≡ done_reply ended }
{
    match ended {
        Ok(()) => Reply::Done,
        Err(error) => Reply::Refused(error),
    }
}

pub(crate) fn opened(ended: Result<Descriptor, FsError>) -> Reply
    ensures { result ≡ opened_reply ended }
{
    match ended {
        Ok(descriptor) => Reply::Opened(descriptor),
        Err(error) => Reply::Refused(error),
    }
}

pub(crate) fn inode(ended: Result<u64, FsError>) -> Reply
    ensures { result ≡ inode_reply ended }
{
    match ended {
        Ok(inode) => Reply::Inode(inode),
        Err(error) => Reply::Refused(error),
    }
}

/// Returns the reply of a read, by how many bytes it read.
pub fn counted(ended: Result<usize, FsError>) -> Reply
    ensures { result ≡ size_reply ended }
{
    match ended {
        Ok(count) => Reply::Size(count as u64),
        Err(error) => Reply::Refused(error),
    }
}

pub(crate) fn sized(ended: Result<u64, FsError>) -> Reply
    ensures { result ≡ size_reply ended }
{
    match ended {
        Ok(size) => Reply::Size(size),
        Err(error) => Reply::Refused(error),
    }
}

pub(crate) fn listed(ended: Result<Vec<(Vec<u8>, Binding)>, FsError>) -> Reply
    ensures { result ≡ names_reply ended }
{
    match ended {
        Ok(names) => Reply::Names(names),
        Err(error) => Reply::Refused(error),
    }
}

pub(crate) fn crashed(ended: Result<Crash, FsError>) -> Reply
    ensures { result ≡ crash_reply ended }
{
    match ended {
        Ok(crash) => Reply::Crashed(crash),
        Err(error) => Reply::Refused(error),
    }
}

/// Returns the reply of `tree`.
pub fn walked(ended: Result<Vec<TreeEntry>, FsError>) -> Reply
    ensures { result ≡ tree_reply ended }
{
    match ended {
        Ok(entries) => Reply::Tree(entries),
        Err(error) => Reply::Refused(error),
    }
}
