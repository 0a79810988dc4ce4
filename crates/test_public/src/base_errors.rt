//! Errors.
use blob_base::Error;
use std::alloc::AllocError;

/// Returns the number of an error's strings.
pub fn texts(error: &Error) -> u8 {
    match error {
        Error::OffsetOverflow | Error::BlobInsufficientLength => 0,
        Error::Closed | Error::ReadFailed | Error::WriteFailed | Error::Injected => 0,
        Error::Memory(AllocError) | Error::GenerationsExhausted => 0,
        Error::BlobLayoutMismatch {
            expected: _,
            found: _,
        } => 0,
        Error::BlobVersionMismatch {
            expected: _,
            found: _,
        } => 0,
        Error::PartitionNameInvalid(_) | Error::PartitionMissing(_) => 1,
        Error::BlobMissing(_, _) | Error::BlobAlreadyOpen(_, _) => 2,
        Error::BlobCorrupt(_, _, _) => 3,
    }
}
