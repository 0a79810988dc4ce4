//! Copies of errors.
ghost use Rattle.std.specs.Prelude.{◌≡◌, IfOk, OnErr};
ghost use Rattle.blob_header.specs.Refusals.{refusal_of, IsMemory};

use crate::error::Error;
use std::alloc::{AllocError, Global};

/// Returns a copy of an error, with the same texts. The only error of its own is `Memory`.
pub fn copied_error(alloc: Global, error: &Error) -> Result<Error, Error>
    ensures ok { IfOk result (λ copy. refusal_of copy ≡ refusal_of error.now) }
    ensures err { OnErr result (IsMemory result) }
{
    Ok(match error {
        Error::OffsetOverflow => Error::OffsetOverflow,
        Error::BlobInsufficientLength => Error::BlobInsufficientLength,
        Error::PartitionNameInvalid(partition) => {
            Error::PartitionNameInvalid(String::from_str(alloc, partition)?)
        }
        Error::PartitionMissing(partition) => {
            Error::PartitionMissing(String::from_str(alloc, partition)?)
        }
        Error::BlobMissing(partition, name) => Error::BlobMissing(
            String::from_str(alloc, partition)?,
            String::from_str(alloc, name)?,
        ),
        Error::BlobAlreadyOpen(partition, name) => Error::BlobAlreadyOpen(
            String::from_str(alloc, partition)?,
            String::from_str(alloc, name)?,
        ),
        Error::BlobCorrupt(partition, name, reason) => Error::BlobCorrupt(
            String::from_str(alloc, partition)?,
            String::from_str(alloc, name)?,
            String::from_str(alloc, reason)?,
        ),
        Error::BlobLayoutMismatch { expected, found } => Error::BlobLayoutMismatch {
            expected: expected.clone()?,
            found: *found,
        },
        Error::BlobVersionMismatch { expected, found } => Error::BlobVersionMismatch {
            expected: expected.clone()?,
            found: *found,
        },
        Error::Closed => Error::Closed,
        Error::ReadFailed => Error::ReadFailed,
        Error::WriteFailed => Error::WriteFailed,
        Error::Injected => Error::Injected,
        Error::Memory(_) => Error::Memory(AllocError),
        Error::GenerationsExhausted => Error::GenerationsExhausted,
    })
}
