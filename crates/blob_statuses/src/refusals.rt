// The status of a call that was made and refused. Below 16 a status is one of `ran`.
ghost use Rattle.std.specs.Prelude.{◌≡◌, ◌≢◌, ◌≤◌};
ghost use Rattle.blob_header.specs.Refusals.{refusal_of};
ghost use Rattle.blob_script.specs.declared.reply.Reply.TheVariants.{Done};
ghost use Rattle.blob_statuses.specs.Statuses.{refusal_status, refused_status};

use crate::ran::{DONE, OTHER_REPLY};
use blob_base::Error;
use blob_script::Reply;

pub const OFFSET_OVERFLOW: u32 = 16;

pub const BLOB_INSUFFICIENT_LENGTH: u32 = 17;

pub const PARTITION_NAME_INVALID: u32 = 18;

pub const PARTITION_MISSING: u32 = 19;

pub const BLOB_MISSING: u32 = 20;

pub const BLOB_ALREADY_OPEN: u32 = 21;

pub const BLOB_CORRUPT: u32 = 22;

pub const BLOB_LAYOUT_MISMATCH: u32 = 23;

pub const BLOB_VERSION_MISMATCH: u32 = 24;

pub const BLOB_CLOSED: u32 = 25;

pub const READ_FAILED: u32 = 26;

pub const WRITE_FAILED: u32 = 27;

pub const INJECTED: u32 = 28;

pub const MEMORY: u32 = 29;

pub const GENERATIONS_EXHAUSTED: u32 = 30;
/// No open handle or unfinished sync has this number.
pub const NO_HANDLE: u32 = 31;
/// The first accepted version is greater than the last one.
pub const EMPTY_RANGE: u32 = 32;

/// Returns the status of an error.
pub fn status_of(error: &Error) -> u32
    ensures is { result ≡ refusal_status (refusal_of error.now) }
    ensures above { 16 ≤ result }
{
    match error {
        Error::OffsetOverflow => OFFSET_OVERFLOW,
        Error::BlobInsufficientLength => BLOB_INSUFFICIENT_LENGTH,
        Error::PartitionNameInvalid(_) => PARTITION_NAME_INVALID,
        Error::PartitionMissing(_) => PARTITION_MISSING,
        Error::BlobMissing(_, _) => BLOB_MISSING,
        Error::BlobAlreadyOpen(_, _) => BLOB_ALREADY_OPEN,
        Error::BlobCorrupt(_, _, _) => BLOB_CORRUPT,
        Error::BlobLayoutMismatch { .. } => BLOB_LAYOUT_MISMATCH,
        Error::BlobVersionMismatch { .. } => BLOB_VERSION_MISMATCH,
        Error::Closed => BLOB_CLOSED,
        Error::ReadFailed => READ_FAILED,
        Error::WriteFailed => WRITE_FAILED,
        Error::Injected => INJECTED,
        Error::Memory(_) => MEMORY,
        Error::GenerationsExhausted => GENERATIONS_EXHAUSTED,
    }
}

/// Returns the status of a write or a read whose reply refuses it. `OTHER_REPLY` for any other reply.
pub fn refused_status(reply: &Reply) -> u32
    ensures is { result ≡ refused_status reply.now }
    ensures refused { result ≢ DONE }
{
    match reply {
        Reply::Failed(error) => status_of(error),
        Reply::NoHandle => NO_HANDLE,
        _ => OTHER_REPLY,
    }
}

/// Returns the status of a write with this reply. `DONE` only if it is done.
pub fn write_status(reply: &Reply) -> u32
    ensures done { result ≡ DONE → reply.now ≡ Done }
    ensures not_done { result ≢ DONE → reply.now ≢ Done }
    ensures refused { result ≢ DONE → result ≡ refused_status reply.now }
{
    match reply {
        Reply::Done => DONE,
        _ => refused_status(reply),
    }
}
