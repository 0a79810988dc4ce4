// The status of a call on files that was made and refused.
ghost use Rattle.std.specs.Prelude.{◌≡◌};
ghost use Rattle.blob_file_sessions.specs.Replies.{file_status};

use blob_fs::FsError;
use blob_sessions::refusals;

pub const EXISTS: u32 = 64;

pub const NOT_FOUND: u32 = 65;

pub const NOT_EMPTY: u32 = 66;

pub const IS_DIRECTORY: u32 = 67;

pub const NOT_DIRECTORY: u32 = 68;

pub const NAME_TOO_LONG: u32 = 69;

pub const INVALID_NAME: u32 = 70;

pub const TOO_MANY_LINKS: u32 = 71;

pub const STALE: u32 = 72;

pub const NO_SPACE: u32 = 73;

pub const LOOP: u32 = 74;

pub const CRASHED: u32 = 75;

/// Returns the status of an error. Refusals of the layer keep their numbers.
pub fn status_of(error: &FsError) -> u32
    ensures { result ≡ file_status error.now }
{
    match error {
        FsError::Exists => EXISTS,
        FsError::NotFound => NOT_FOUND,
        FsError::NotEmpty => NOT_EMPTY,
        FsError::IsDirectory => IS_DIRECTORY,
        FsError::NotDirectory => NOT_DIRECTORY,
        FsError::NameTooLong => NAME_TOO_LONG,
        FsError::InvalidName => INVALID_NAME,
        FsError::TooManyLinks => TOO_MANY_LINKS,
        FsError::Stale => STALE,
        FsError::NoSpace => NO_SPACE,
        FsError::Loop => LOOP,
        FsError::Crashed => CRASHED,
        FsError::Store(error) => refusals::status_of(error),
    }
}
