// The parts of the last reply: the names of a scan, and the bytes that a crash kept.
ghost use Rattle.std.specs.Prelude.{◌≡◌, ◌+◌, ◌<◌, ◌≤◌, IfSome, drop, length};
ghost use Rattle.blob_sessions.specs.Parts.{CopiesBytes, CopiesName, FindsName, FindsRun, first_kept, first_lost, index_of, kept_prefix, lost_prefix, no_run, run_from};

use crate::kept::Kept;
use crate::ran::{DONE, NO_ROOM, OTHER_REPLY, Ran};
use blob_lab::Reply;

/// A run of bytes that a crash kept of one write.
#[repr(C)]
#[derive(Clone, Copy)]
pub struct KeptRun {
    /// `DONE`, or `OTHER_REPLY` if the last reply has no such row.
    pub status: u32,
    /// The write's number.
    pub write: u64,
    /// How many bytes the write submitted.
    pub bytes: usize,
    /// The index of the first kept byte; `bytes` if no further byte was kept.
    pub start: usize,
    /// How many bytes were kept from there on, up to the next lost one.
    pub len: usize,
}

impl KeptRun {
    /// Without a row.
    pub fn stopped(status: u32) -> KeptRun
        ensures { result ≡ no_run status }
    {
        KeptRun {
            status,
            write: 0,
            bytes: 0,
            start: 0,
            len: 0,
        }
    }
}

impl Kept {
    /// Copies a name of the last reply, which a scan returned.
    ///
    /// `OTHER_REPLY` if the last reply has no name with this index.
    pub fn name(&self, index: usize, into: &mut [u8]) -> Ran
        ensures { CopiesName self.now.last index result into.old into.new }
    {
        let Some(Reply::Names(names)) = &self.last else {
            return Ran::stopped(OTHER_REPLY);
        };
        let Some(name) = names.get(index) else {
            return Ran::stopped(OTHER_REPLY);
        };
        copied(name, into)
    }

    /// Returns in `len` the index of a name in the last reply, which a scan returned.
    ///
    /// `OTHER_REPLY` if the last reply doesn't have this name.
    pub fn find_name(&self, name: &[u8]) -> Ran
        ensures { FindsName self.now.last name.now result }
    {
        let Some(Reply::Names(names)) = &self.last else {
            return Ran::stopped(OTHER_REPLY);
        };
        match index_of(names, name) {
            Some(index) => Ran {
                status: DONE,
                len: index,
            },
            None => Ran::stopped(OTHER_REPLY),
        }
    }

    /// Finds the first run of kept bytes at or after the index `from`, in a row of the last reply, which a crash
    /// returned.
    pub fn kept_run(&self, row: usize, from: usize) -> KeptRun
        ensures { FindsRun self.now.last row from result }
    {
        let Some(Reply::Crashed(selections)) = &self.last else {
            return KeptRun::stopped(OTHER_REPLY);
        };
        let Some((write, choices)) = selections.rows().get(row) else {
            return KeptRun::stopped(OTHER_REPLY);
        };
        run_of(*write, choices, from)
    }
}

fn run_of(write: u64, choices: &[bool], from: usize) -> KeptRun
    ensures { result ≡ run_from from (write, choices.now) }
{
    let bytes = choices.len();
    let from = from.min(bytes);
    let start = from + lost(choices, from);
    let len = kept(choices, start);
    KeptRun {
        status: DONE,
        write,
        bytes,
        start,
        len,
    }
}

/// Copies bytes to the start of `into`, if they fit.
pub(crate) fn copied(bytes: &[u8], into: &mut [u8]) -> Ran
    ensures { CopiesBytes bytes.now result into.old into.new }
{
    let len = bytes.len();
    if len > into.len() {
        return Ran {
            status: NO_ROOM,
            len,
        };
    }
    into[..len].copy_from_slice(bytes);
    Ran { status: DONE, len }
}

fn index_of(names: &[Vec<u8>], name: &[u8]) -> Option<usize>
    ensures { result ≡ index_of name.now names.now }
{
    names.iter().position(|other| other.as_slice() == name)
}

/// Returns how many bytes were lost from `from` on, before the first kept one.
fn lost(choices: &[bool], from: usize) -> usize
    requires { from ≤ length choices.now }
    ensures prefix { result ≡ lost_prefix (drop from choices.now) }
    ensures within { from + result ≤ length choices.now }
{
    first_kept(&choices[from..]).unwrap_or(choices.len() - from)
}

/// Returns how many bytes were kept from `from` on, before the first lost one.
fn kept(choices: &[bool], from: usize) -> usize
    requires { from ≤ length choices.now }
    ensures { result ≡ kept_prefix (drop from choices.now) }
{
    first_lost(&choices[from..]).unwrap_or(choices.len() - from)
}

fn first_kept(choices: &[bool]) -> Option<usize>
    ensures first { result ≡ first_kept choices.now }
    ensures within { IfSome result (λ index. index < length choices.now) }
{
    choices.iter().position(|kept| *kept)
}

fn first_lost(choices: &[bool]) -> Option<usize>
    ensures { result ≡ first_lost choices.now }
{
    choices.iter().position(|kept| !*kept)
}
