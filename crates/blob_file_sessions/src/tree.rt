// The paths of the last reply, a tree, and the durable bytes of a file.
ghost use Rattle.std.specs.Prelude.{◌≡◌};
ghost use Rattle.blob_file_sessions.specs.Trees.{CopiesDurable, CopiesPath, TellsPath};

use crate::call::FileReply;
use crate::kept::KeptFiles;
use crate::parts::copied;
use crate::refusals::status_of;
use blob_fs::Reply;
use blob_sessions::Ran;
use blob_sessions::ran::{DONE, OTHER_REPLY};

impl KeptFiles {
    /// Copies a path of the last reply, a tree. Returns what it is bound to, and the path's length in `size`.
    ///
    /// `NO_ROOM` with the length; `OTHER_REPLY` if the last reply has no path with this index.
    pub fn path(&self, index: usize, into: &mut [u8]) -> FileReply
        ensures { CopiesPath self.now.last index result into.old into.new }
    {
        let Some(Reply::Tree(entries)) = &self.last else {
            return FileReply::stopped(OTHER_REPLY);
        };
        let Some(entry) = entries.get(index) else {
            return FileReply::stopped(OTHER_REPLY);
        };
        let ran = copied(&entry.path, into);
        FileReply::bound(&entry.binding, ran.status, ran.len as u64)
    }

    /// Returns what a path of the last reply, a tree, is bound to, and a file's size in bytes.
    ///
    /// `OTHER_REPLY` if the last reply has no path with this index.
    pub fn path_found(&self, index: usize) -> FileReply
        ensures { TellsPath self.now.last index result }
    {
        let Some(Reply::Tree(entries)) = &self.last else {
            return FileReply::stopped(OTHER_REPLY);
        };
        match entries.get(index) {
            None => FileReply::stopped(OTHER_REPLY),
            Some(entry) => FileReply::bound(&entry.binding, DONE, entry.bytes.len() as u64),
        }
    }

    /// Copies the durable bytes of a file, by its number. The last reply stays.
    ///
    /// `NO_ROOM` with the length; `NOT_FOUND` if there is no such file, and `Memory`, with the length 0.
    pub fn durable(&self, inode: u64, into: &mut [u8]) -> Ran
        ensures { CopiesDurable self.now inode result into.old into.new }
    {
        match self.fs().durable_bytes_of(inode) {
            Ok(bytes) => copied(&bytes, into),
            Err(error) => Ran::stopped(status_of(&error)),
        }
    }
}
