//! Why a call on files is refused.
ghost use Rattle.std.specs.Prelude.{◌≡◌, alloc_error};
ghost use Rattle.blob_header.specs.declared.error.Error.TheVariants.{Memory};
ghost use Rattle.blob_fs.specs.declared.error.FsError.TheVariants.{Store};

use blob_base::Error;
use std::alloc::{AllocError, AllocFailed};

/// Why a call is refused, in the words of errno. Nothing has changed, unless the call says otherwise.
#[derive(Debug, Drop)]
pub enum FsError {
    /// The name is taken.
    Exists,
    /// No file or directory has this name or number.
    NotFound,
    /// The directory has names.
    NotEmpty,
    /// The call wants a file, and this is a directory.
    IsDirectory,
    /// The call wants a directory, and this is a file.
    NotDirectory,
    /// A name has more than 255 bytes.
    NameTooLong,
    /// A name is empty, `.` or `..`, or has a zero or a slash.
    InvalidName,
    /// The file has as many names as a file may have.
    TooManyLinks,
    /// The descriptor is closed, or of a life before the last crash.
    Stale,
    /// A limit of bytes or of files is reached, or no number is left.
    NoSpace,
    /// A directory would be moved below itself.
    Loop,
    /// The recovery of the last crash failed. Crash again.
    Crashed,
    /// The layer refused the call.
    Store(Error),
}

impl From<Error> for FsError {
    ghost from_gives = { λ e refused. refused ≡ Store e };

    fn from(error: Error) -> FsError {
        FsError::Store(error)
    }
}

impl From<AllocError> for FsError {
    ghost from_gives = { λ e refused. refused ≡ Store (Memory e) };

    fn from(error: AllocError) -> FsError {
        FsError::Store(Error::Memory(error))
    }
}

impl<T: Drop> From<AllocFailed<T>> for FsError {
    ghost from_gives = { λ _ refused. refused ≡ Store (Memory alloc_error) };

    fn from(_error: AllocFailed<T>) -> FsError {
        FsError::Store(Error::Memory(AllocError))
    }
}
