// The words of lines, by the numbers of what they name.
ghost use Rattle.std.specs.Prelude.{◌≡◌, option_map};
ghost use Rattle.blob_sessions.specs.Names.{kind_words, mode_words, refusal_words};
ghost use Rattle.blob_sessions.specs.Typed.{by_kind};

use crate::kinds::{
    ADMIT, CLOSE, CONFIGURE, CRASH, FINISH, OPEN, OPEN_LOOSE, READ, REMOVE_BLOB, REMOVE_PARTITION,
    REOPEN, RESIZE, SCAN, SIZE, START_SYNC, SYNC, WRITE, WRITE_SYNC,
};
use crate::refusals::{
    BLOB_ALREADY_OPEN, BLOB_CLOSED, BLOB_CORRUPT, BLOB_INSUFFICIENT_LENGTH, BLOB_LAYOUT_MISMATCH,
    BLOB_MISSING, BLOB_VERSION_MISMATCH, EMPTY_RANGE, GENERATIONS_EXHAUSTED, INJECTED, MEMORY,
    NO_HANDLE, OFFSET_OVERFLOW, PARTITION_MISSING, PARTITION_NAME_INVALID, READ_FAILED,
    WRITE_FAILED,
};

/// Returns the first word of the lines of a kind's calls.
pub fn kind_word(kind: u32) -> Option<&'static str>
    ensures { option_map (λ word. word.now) result ≡ by_kind kind kind_words }
{
    Some(match kind {
        OPEN => "open",
        OPEN_LOOSE => "loose",
        ADMIT => "admit",
        CLOSE => "close",
        RESIZE => "resize",
        SIZE => "size",
        SYNC => "sync",
        START_SYNC => "startsync",
        FINISH => "finish",
        REMOVE_BLOB => "remove",
        REMOVE_PARTITION => "remove",
        SCAN => "scan",
        CRASH => "crash",
        REOPEN => "reopen",
        READ => "read",
        WRITE => "write",
        WRITE_SYNC => "writes",
        CONFIGURE => "config",
        _ => return None,
    })
}

/// Returns the word of a refusal, by its status.
pub fn refusal_word(status: u32) -> Option<&'static str>
    ensures { option_map (λ word. word.now) result ≡ by_kind status refusal_words }
{
    Some(match status {
        OFFSET_OVERFLOW => "OffsetOverflow",
        BLOB_INSUFFICIENT_LENGTH => "BlobInsufficientLength",
        PARTITION_NAME_INVALID => "PartitionNameInvalid",
        PARTITION_MISSING => "PartitionMissing",
        BLOB_MISSING => "BlobMissing",
        BLOB_ALREADY_OPEN => "BlobAlreadyOpen",
        BLOB_CORRUPT => "BlobCorrupt",
        BLOB_LAYOUT_MISMATCH => "BlobLayoutMismatch",
        BLOB_VERSION_MISMATCH => "BlobVersionMismatch",
        BLOB_CLOSED => "Closed",
        READ_FAILED => "ReadFailed",
        WRITE_FAILED => "WriteFailed",
        INJECTED => "Injected",
        MEMORY => "Memory",
        GENERATIONS_EXHAUSTED => "GenerationsExhausted",
        NO_HANDLE => "NoHandle",
        EMPTY_RANGE => "EmptyRange",
        _ => return None,
    })
}

/// Returns the word of a partial write mode, by its number from 0.
pub fn mode_word(number: u32) -> Option<&'static str>
    ensures { option_map (λ word. word.now) result ≡ by_kind number mode_words }
{
    Some(match number {
        0 => "prefix",
        1 => "subset",
        2 => "sectors",
        _ => return None,
    })
}
