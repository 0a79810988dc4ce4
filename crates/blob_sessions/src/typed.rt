// Calls and replies without text.
ghost use Rattle.std.specs.Prelude.{◌≡◌, Some, None, IfSome, IfNone};
ghost use Rattle.blob_script.specs.Acts.{versions_of};
ghost use Rattle.blob_sessions.specs.Typed.{sized, typed_reply, typed_versions, without_reply};

use crate::ran::DONE;
use crate::refusals::{EMPTY_RANGE, NO_HANDLE, status_of};
use blob_base::BlobVersion;
use blob_lab::Reply;
use std::ops::RangeInclusive;

/// A call's kind and numbers. A kind ignores the numbers that it doesn't name.
#[repr(C)]
#[derive(Clone, Copy)]
pub struct TypedCall {
    /// One of `kinds`.
    pub kind: u32,
    /// A handle, or a started sync.
    pub number: usize,
    /// A length in bytes, or the first version that an open accepts.
    pub first: u64,
    /// The last version that an open accepts.
    pub last: u64,
}

/// The numbers of a reply. Those that a reply doesn't have are 0.
#[repr(C)]
#[derive(Clone, Copy)]
pub struct TypedReply {
    /// `DONE`, one of `refusals`, or one of `ran` if no call was made.
    pub status: u32,
    /// The version of an opened blob.
    pub version: u32,
    /// The handle of an opened blob, or the number of a started sync.
    pub number: usize,
    /// The size of a blob or of the bytes that a read returned, in bytes; or how many names a scan returned, or
    /// for how many writes a crash drew.
    pub size: u64,
}

impl TypedReply {
    /// Without a reply.
    pub fn stopped(status: u32) -> TypedReply
        ensures { result ≡ without_reply status }
    {
        TypedReply {
            status,
            version: 0,
            number: 0,
            size: 0,
        }
    }

    /// A reply that has nothing but a size.
    fn sized(size: u64) -> TypedReply
        ensures { result ≡ sized size }
    {
        TypedReply {
            status: DONE,
            version: 0,
            number: 0,
            size,
        }
    }

    /// Returns the numbers of a reply.
    pub fn of(reply: &Reply) -> TypedReply
        ensures { result ≡ typed_reply reply.now }
    {
        match reply {
            Reply::Done => TypedReply::stopped(DONE),
            Reply::Opened {
                handle,
                size,
                version,
            } => TypedReply {
                status: DONE,
                version: version.get() as u32,
                number: *handle,
                size: *size,
            },
            Reply::Bytes(bytes) => TypedReply::sized(bytes.len() as u64),
            Reply::Size(size) => TypedReply::sized(*size),
            Reply::Names(names) => TypedReply::sized(names.len() as u64),
            Reply::Started(number) => TypedReply {
                status: DONE,
                version: 0,
                number: *number,
                size: 0,
            },
            Reply::Crashed(selections) => TypedReply::sized(selections.rows().len() as u64),
            Reply::Failed(error) => TypedReply::stopped(status_of(error)),
            Reply::NoHandle => TypedReply::stopped(NO_HANDLE),
            Reply::EmptyRange => TypedReply::stopped(EMPTY_RANGE),
        }
    }
}

/// Returns the versions that an open accepts. `None` if a bound doesn't fit in 16 bits.
pub fn versions(asked: &TypedCall) -> Option<RangeInclusive<BlobVersion>>
    ensures some { IfSome result (λ versions. typed_versions asked.now ≡ Some (versions_of versions)) }
    ensures none { IfNone result (typed_versions asked.now ≡ None) }
{
    let (Ok(first), Ok(last)) = (u16::try_from(asked.first), u16::try_from(asked.last)) else {
        return None;
    };
    Some(BlobVersion::new(first)..=BlobVersion::new(last))
}
