// Copies of replies.
ghost use Rattle.std.specs.Prelude.{◌≡◌, IfOk, OnErr};
ghost use Rattle.blob_header.specs.Refusals.{IsMemory};
ghost use Rattle.blob_file_sessions.specs.Copies.{IsCopy, IsLastCopy, IsSameCrash, IsSameError, bindings_of, paths_of};

use blob_base::Error;
use blob_directory::edit::Binding;
use blob_fs::{Crash, FsError, Reply, TreeEntry};
use blob_header::error_copy::copied_error;
use blob_sessions::forks::copied_selections;
use std::alloc::Global;

/// Returns a copy of the reply to the last call, if there was a call. The only error is `Memory`.
pub(crate) fn copied_last(alloc: Global, last: &Option<Reply>) -> Result<Option<Reply>, Error>
    ensures ok { IfOk result (IsLastCopy last.now) }
    ensures err { OnErr result (IsMemory result) }
{
    match last {
        Some(reply) => Ok(Some(copied_reply(alloc, reply)?)),
        None => Ok(None),
    }
}

/// Returns a copy of a reply. The only error is `Memory`.
fn copied_reply(alloc: Global, reply: &Reply) -> Result<Reply, Error>
    ensures ok { IfOk result (IsCopy reply.now) }
    ensures err { OnErr result (IsMemory result) }
{
    Ok(match reply {
        Reply::Done => Reply::Done,
        Reply::Opened(descriptor) => Reply::Opened(*descriptor),
        Reply::Inode(inode) => Reply::Inode(*inode),
        Reply::Found(binding, size) => Reply::Found(*binding, *size),
        Reply::Size(size) => Reply::Size(*size),
        Reply::Names(names) => Reply::Names(copied_names(alloc, names)?),
        Reply::Tree(entries) => Reply::Tree(copied_paths(alloc, entries)?),
        Reply::Crashed(crash) => Reply::Crashed(copied_crash(alloc, crash)?),
        Reply::Refused(error) => Reply::Refused(copied_refusal(alloc, error)?),
    })
}

/// Returns a copy of the names of a list. The only error is `Memory`.
fn copied_names(
    alloc: Global,
    names: &[(Vec<u8>, Binding)],
) -> Result<Vec<(Vec<u8>, Binding)>, Error>
    ensures ok { IfOk result (λ copy. bindings_of copy.items ≡ bindings_of names.now) }
    ensures err { OnErr result (IsMemory result) }
{
    let mut copy = Vec::with_capacity(alloc, names.len())?;
    for entry in names {
        copy.push((Vec::from_slice(alloc, &entry.0)?, entry.1))?;
    }
    Ok(copy)
}

/// Returns a copy of the paths of a tree. The only error is `Memory`.
fn copied_paths(alloc: Global, entries: &[TreeEntry]) -> Result<Vec<TreeEntry>, Error>
    ensures ok { IfOk result (λ copy. paths_of copy.items ≡ paths_of entries.now) }
    ensures err { OnErr result (IsMemory result) }
{
    let mut copy = Vec::with_capacity(alloc, entries.len())?;
    for entry in entries {
        copy.push(TreeEntry {
            path: Vec::from_slice(alloc, &entry.path)?,
            binding: entry.binding,
            bytes: Vec::from_slice(alloc, &entry.bytes)?,
        })?;
    }
    Ok(copy)
}

/// Returns a copy of what a crash kept. The only error is `Memory`.
fn copied_crash(alloc: Global, crash: &Crash) -> Result<Crash, Error>
    ensures ok { IfOk result (IsSameCrash crash.now) }
    ensures err { OnErr result (IsMemory result) }
{
    Ok(Crash {
        rows: copied_selections(alloc, &crash.rows)?,
        places: Vec::from_slice(alloc, &crash.places)?,
        edits: Vec::from_slice(alloc, &crash.edits)?,
    })
}

/// Returns a copy of a refusal. The only error of its own is `Memory`.
fn copied_refusal(alloc: Global, error: &FsError) -> Result<FsError, Error>
    ensures ok { IfOk result (IsSameError error.now) }
    ensures err { OnErr result (IsMemory result) }
{
    Ok(match error {
        FsError::Exists => FsError::Exists,
        FsError::NotFound => FsError::NotFound,
        FsError::NotEmpty => FsError::NotEmpty,
        FsError::IsDirectory => FsError::IsDirectory,
        FsError::NotDirectory => FsError::NotDirectory,
        FsError::NameTooLong => FsError::NameTooLong,
        FsError::InvalidName => FsError::InvalidName,
        FsError::TooManyLinks => FsError::TooManyLinks,
        FsError::Stale => FsError::Stale,
        FsError::NoSpace => FsError::NoSpace,
        FsError::Loop => FsError::Loop,
        FsError::Crashed => FsError::Crashed,
        FsError::Store(error) => FsError::Store(copied_error(alloc, error)?),
    })
}
