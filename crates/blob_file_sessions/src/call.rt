// Calls on files and their replies in numbers.
ghost use Rattle.std.specs.Prelude.{◌≡◌};
ghost use Rattle.blob_file_sessions.specs.Replies.{bound_reply, file_reply, kind_number, no_reply, numbered, place_reply};

use crate::refusals::status_of;
use blob_fs::{Binding, Kind, Place, Reply};
use blob_sessions::ran::DONE;

/// A call's kind and numbers. A kind ignores the numbers that it doesn't name.
#[repr(C)]
#[derive(Clone, Copy)]
pub struct FileCall {
    /// One of `kinds`.
    pub kind: u32,
    /// A descriptor, an inode, or the directory of a name.
    pub number: u64,
    /// A length in bytes, an inode, another directory, or how a rename by paths treats a name that is taken.
    pub first: u64,
    /// How another rename does.
    pub last: u64,
}

/// The numbers of a reply. Those that a reply doesn't have are 0.
#[repr(C)]
#[derive(Clone, Copy)]
pub struct FileReply {
    /// `DONE`, one of `refusals` of this crate or of `blob_sessions`, or one of `ran` if no call was made.
    pub status: u32,
    /// 0 for a file, 1 for a directory.
    pub kind: u32,
    /// A descriptor, an inode, or how many edits were unsettled at a crash.
    pub number: u64,
    /// A size in bytes, how many names a directory has, for how many writes a crash drew, or an offset in bytes.
    pub size: u64,
}

/// Returns the number of a kind.
pub fn kind_number(kind: Kind) -> u32
    ensures { result ≡ kind_number kind }
{
    match kind {
        Kind::File => 0,
        Kind::Directory => 1,
    }
}

impl FileReply {
    /// Without a reply.
    pub fn stopped(status: u32) -> FileReply
        ensures { result ≡ no_reply status }
    {
        FileReply {
            status,
            kind: 0,
            number: 0,
            size: 0,
        }
    }

    fn numbered(number: u64, size: u64) -> FileReply
        ensures { result ≡ numbered number size }
    {
        FileReply {
            status: DONE,
            kind: 0,
            number,
            size,
        }
    }

    /// Returns the numbers of the place of a write. An edit has the inode 0.
    pub fn place(place: &Place) -> FileReply
        ensures { result ≡ place_reply place.now }
    {
        match place.inode {
            None => FileReply::numbered(0, place.offset),
            Some(inode) => FileReply::numbered(inode, place.offset),
        }
    }

    /// Returns the numbers of what a name is bound to, with a size.
    pub fn bound(binding: &Binding, status: u32, size: u64) -> FileReply
        ensures { result ≡ bound_reply binding.now status size }
    {
        FileReply {
            status,
            kind: kind_number(binding.kind),
            number: binding.inode,
            size,
        }
    }

    /// Returns the numbers of a reply.
    pub fn of(reply: &Reply) -> FileReply
        ensures { result ≡ file_reply reply.now }
    {
        match reply {
            Reply::Done => FileReply::stopped(DONE),
            Reply::Opened(descriptor) => FileReply::numbered(descriptor.number(), 0),
            Reply::Inode(inode) => FileReply::numbered(*inode, 0),
            Reply::Found(binding, size) => FileReply::bound(binding, DONE, *size),
            Reply::Size(size) => FileReply::numbered(0, *size),
            Reply::Names(names) => FileReply::numbered(0, names.len() as u64),
            Reply::Tree(entries) => FileReply::numbered(0, entries.len() as u64),
            Reply::Crashed(crash) => {
                FileReply::numbered(crash.edits.len() as u64, crash.rows.rows().len() as u64)
            }
            Reply::Refused(error) => FileReply::stopped(status_of(error)),
        }
    }
}
