// The parts of the last reply: the names of a directory, and what a crash kept.
ghost use Rattle.std.specs.Prelude.{◌≡◌, ◌+◌, ◌<◌, ◌≤◌, IfSome, drop, length};
ghost use Rattle.blob_file_sessions.specs.LastParts.{CopiesEntry, FindsRow, TellsEdit, TellsPlace};
ghost use Rattle.blob_sessions.specs.Parts.{CopiesBytes, first_kept, first_lost, kept_prefix, lost_prefix, run_from};

use crate::call::FileReply;
use crate::kept::KeptFiles;
use blob_fs::Reply;
use blob_sessions::ran::{DONE, NO_ROOM, OTHER_REPLY};
use blob_sessions::{KeptRun, Ran};

impl KeptFiles {
    /// Copies a name of the last reply, which a list returned. Returns what it is bound to, and its length in `size`.
    ///
    /// `NO_ROOM` with the length; `OTHER_REPLY` if the last reply has no name with this index.
    pub fn name(&self, index: usize, into: &mut [u8]) -> FileReply
        ensures { CopiesEntry self.now.last index result into.old into.new }
    {
        let Some(Reply::Names(names)) = &self.last else {
            return FileReply::stopped(OTHER_REPLY);
        };
        let Some((name, binding)) = names.get(index) else {
            return FileReply::stopped(OTHER_REPLY);
        };
        let ran = copied(name, into);
        FileReply::bound(binding, ran.status, ran.len as u64)
    }

    /// Finds the first run of kept bytes at or after the index `from`, in a row of the last reply, which a crash returned.
    pub fn kept_run(&self, row: usize, from: usize) -> KeptRun
        ensures { FindsRow self.now.last row from result }
    {
        let Some(Reply::Crashed(crash)) = &self.last else {
            return KeptRun::stopped(OTHER_REPLY);
        };
        let Some((write, choices)) = crash.rows.rows().get(row) else {
            return KeptRun::stopped(OTHER_REPLY);
        };
        run_of(*write, choices, from)
    }

    /// Returns where the write of a row of the last reply was, which a crash returned: in `number` the inode, 0 for an edit, and in
    /// `size` the offset in bytes in the file or in the journal.
    ///
    /// `OTHER_REPLY` if the last reply has no such row.
    pub fn kept_place(&self, row: usize) -> FileReply
        ensures { TellsPlace self.now.last row result }
    {
        let Some(Reply::Crashed(crash)) = &self.last else {
            return FileReply::stopped(OTHER_REPLY);
        };
        match crash.places.get(row) {
            None => FileReply::stopped(OTHER_REPLY),
            Some(place) => FileReply::place(place),
        }
    }

    /// Returns in `len` 1 if the last call, a crash, kept the unsettled edit with this index, and 0 if not.
    ///
    /// `OTHER_REPLY` if the last reply has no such edit.
    pub fn kept_edit(&self, index: usize) -> Ran
        ensures { TellsEdit self.now.last index result }
    {
        let Some(Reply::Crashed(crash)) = &self.last else {
            return Ran::stopped(OTHER_REPLY);
        };
        match crash.edits.get(index) {
            None => Ran::stopped(OTHER_REPLY),
            Some(is_kept) => Ran {
                status: DONE,
                len: *is_kept as usize,
            },
        }
    }
}

/// Copies bytes to the start of `into`, if they fit.
pub(crate) fn copied(bytes: &[u8], into: &mut [u8]) -> Ran
    ensures { CopiesBytes bytes.now result into.old into.new }
{
    let len = bytes.len();
    if len > into.len() {
        return Ran {
            status: NO_ROOM,
            len,
        };
    }
    into[..len].copy_from_slice(bytes);
    Ran { status: DONE, len }
}

/// Finds the first run of kept bytes at or after the index `from`.
fn run_of(write: u64, choices: &[bool], from: usize) -> KeptRun
    ensures { result ≡ run_from from (write, choices.now) }
{
    let bytes = choices.len();
    let from = from.min(bytes);
    let start = from + lost(&choices[from..]);
    KeptRun {
        status: DONE,
        write,
        bytes,
        start,
        len: kept(&choices[start..]),
    }
}

/// Returns how many bytes were lost before the first kept one.
fn lost(choices: &[bool]) -> usize
    ensures prefix { result ≡ lost_prefix choices.now }
    ensures within { result ≤ length choices.now }
{
    first_kept(choices).unwrap_or(choices.len())
}

/// Returns how many bytes were kept before the first lost one.
fn kept(choices: &[bool]) -> usize
    ensures { result ≡ kept_prefix choices.now }
{
    first_lost(choices).unwrap_or(choices.len())
}

fn first_kept(choices: &[bool]) -> Option<usize>
    ensures first { result ≡ first_kept choices.now }
    ensures within { IfSome result (λ index. index < length choices.now) }
{
    choices.iter().position(|kept| *kept)
}

fn first_lost(choices: &[bool]) -> Option<usize>
    ensures { result ≡ first_lost choices.now }
{
    choices.iter().position(|kept| !*kept)
}
