//! The calls on a file system as data.
use crate::file_system::Descriptor;
use crate::renames::Rename;

/// A call by paths.
#[derive(Clone, Copy)]
pub enum PathCall<'a> {
    Create(&'a [u8]),
    Open(&'a [u8]),
    OpenTruncated(&'a [u8]),
    Link {
        path: &'a [u8],
        to: &'a [u8],
    },
    Unlink(&'a [u8]),
    Rename {
        path: &'a [u8],
        to: &'a [u8],
        how: Rename,
    },
    MakeDirectory(&'a [u8]),
    RemoveDirectory(&'a [u8]),
    List(&'a [u8]),
    SyncDirectory(&'a [u8]),
    Find(&'a [u8]),
}

/// A call by numbers of directories, inodes and descriptors, that may change names, files or what is durable.
#[derive(Clone, Copy)]
pub enum NumberCall<'a> {
    Create {
        directory: u64,
        name: &'a [u8],
    },
    MakeDirectory {
        directory: u64,
        name: &'a [u8],
    },
    Link {
        inode: u64,
        directory: u64,
        name: &'a [u8],
    },
    Unlink {
        directory: u64,
        name: &'a [u8],
    },
    RemoveDirectory {
        directory: u64,
        name: &'a [u8],
    },
    Rename {
        from: u64,
        old: &'a [u8],
        to: u64,
        new: &'a [u8],
        how: Rename,
    },
    Open(u64),
    OpenTruncated(u64),
    Close(Descriptor),
    /// Reads bytes and drops them.
    Read {
        file: Descriptor,
        offset: u64,
        len: usize,
    },
    Write {
        file: Descriptor,
        offset: u64,
        bytes: &'a [u8],
    },
    Truncate {
        file: Descriptor,
        length: u64,
    },
    Sync(Descriptor),
    SyncData(Descriptor),
    SyncDirectory(u64),
    SyncAll,
    Settle,
}

/// A call by numbers that changes nothing.
#[derive(Clone, Copy)]
pub enum LookUp<'a> {
    /// The names in a directory.
    Names(u64),
    /// What a name in a directory is bound to.
    Find { directory: u64, name: &'a [u8] },
    Size(Descriptor),
    Inode(Descriptor),
}

/// A call on a file system, with what it is passed.
#[derive(Clone, Copy)]
pub enum Call<'a> {
    ByPath(PathCall<'a>),
    ByNumber(NumberCall<'a>),
    LookUp(LookUp<'a>),
    /// Settles all edits and begins a new journal.
    Commit,
    Crash,
    Tree,
}
