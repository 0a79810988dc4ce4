//! Files with names: a file system and one call after another. What it is and does is `blob_file_sessions`.
ghost use Rattle.std.specs.Prelude.{◌≡◌, ◌⊎◌, None, IsSome, IfSome};
ghost use Rattle.blob_fs.specs.Files.{names_of};
ghost use Rattle.blob_directory.specs.Names.{Same};
ghost use Rattle.blob_file_sessions.specs.Calls.{TellsFileWords, TellsFollowed};
ghost use Rattle.blob_file_sessions.specs.Exports.{AnswersCall, CopiesDurableFrom, CopiesEntryFrom, CopiesPathFrom, InsertsFileWords, MakesSetting, ReadsFiles, ReadsInto, WritesBytes};
ghost use Rattle.blob_file_sessions.specs.Held.{files_of, fs_of};
ghost use Rattle.blob_file_sessions.specs.LastParts.{FindsRow, TellsEdit, TellsPlace};
ghost use Rattle.blob_file_sessions.specs.Replies.{no_reply};
ghost use Rattle.blob_file_sessions.specs.Trees.{TellsPath};
ghost use Rattle.blob_sessions.specs.Parts.{no_run};
ghost use Rattle.blob_sessions.specs.Sessions.{stopped};

use blob_file_sessions::{FileCall, FileReply, Files, preamble};
use blob_sessions::ran::{BAD_LINE, CLOSED, DONE, NO_MEMORY};
use blob_sessions::{KeptRun, Ran, RefusedPreamble, ScriptRan};
use std::alloc::Global;

/// Opens a new, empty file system with a preamble: words, a seed and settings, the settings last. What the files held before is
/// ended.
///
/// `BAD_LINE` returns the number of a line that isn't allowed there. It and `NO_MEMORY` change nothing.
#[unsafe(no_mangle)]
pub extern "C" fn blobcrash_files_open(
    alloc: Global,
    files: &mut Files,
    preamble: &[u8],
) -> ScriptRan
    ensures opened { result.status ≡ DONE → IsSome (files_of files.new) }
    ensures empty { result.status ≡ DONE → IfSome (files_of files.new) (λ k. Same (names_of (fs_of k)) (λ _. None)) }
    ensures unchanged { result.status ≡ BAD_LINE → files_of files.new ≡ files_of files.old }
    ensures no_memory { result.status ≡ NO_MEMORY → files_of files.new ≡ files_of files.old }
    ensures no_line { (result.status ≡ BAD_LINE) ⊎ (result.line ≡ 0) }
    ensures no_reply { result.len ≡ 0 }
    ensures status { (result.status ≡ DONE) ⊎ (result.status ≡ BAD_LINE) ⊎ (result.status ≡ NO_MEMORY) }
{
    let kept = match preamble::start(alloc, preamble) {
        Ok(kept) => kept,
        Err(RefusedPreamble::BadLine(line)) => {
            return ScriptRan {
                status: BAD_LINE,
                len: 0,
                line,
            };
        }
        Err(RefusedPreamble::NoMemory) => return ScriptRan::stopped(NO_MEMORY),
    };
    let Ok(kept) = Box::new(alloc, kept) else {
        return ScriptRan::stopped(NO_MEMORY);
    };
    files.close(alloc);
    files.put(kept);
    ScriptRan::stopped(DONE)
}

/// Makes a setting, as in a preamble.
///
/// `BAD_LINE` if the line is no setting, `NO_MEMORY` and `CLOSED`: nothing has changed.
#[unsafe(no_mangle)]
pub extern "C" fn blobcrash_files_configure(alloc: Global, files: &mut Files, setting: &[u8]) -> u32
    ensures { MakesSetting files.old files.new result }
{
    let Some(mut kept) = files.take(alloc) else {
        return CLOSED;
    };
    let status = kept.configure(setting);
    files.put(kept);
    status
}

/// Makes a call: its numbers in `asked`, its paths or names as bytes. Returns the numbers of its reply.
///
/// `BAD_CALL` if the kind is unknown or the number of a rename is above 2, `POWER_LOSS` and `CLOSED`: nothing has changed. Any other
/// status but `DONE` is a refusal of the call that was made.
#[unsafe(no_mangle)]
pub extern "C" fn blobcrash_files_apply(
    alloc: Global,
    files: &mut Files,
    asked: &FileCall,
    path: &[u8],
    to: &[u8],
) -> FileReply
    ensures { AnswersCall files.old asked.now path.now to.now files.new result }
{
    let Some(mut kept) = files.take(alloc) else {
        return FileReply::stopped(CLOSED);
    };
    let reply = kept.supplied_apply(asked, path, to);
    files.put(kept);
    reply
}

/// Writes bytes at an offset, unsynced. Returns `DONE`, a refusal, `POWER_LOSS` or `CLOSED`.
#[unsafe(no_mangle)]
pub extern "C" fn blobcrash_files_write(
    alloc: Global,
    files: &mut Files,
    descriptor: u64,
    offset: u64,
    bytes: &[u8],
) -> u32
    ensures { WritesBytes files.old descriptor offset bytes.now files.new result }
{
    let Some(mut kept) = files.take(alloc) else {
        return CLOSED;
    };
    let status = kept.supplied_write(descriptor, offset, bytes);
    files.put(kept);
    status
}

/// Reads the bytes from an offset on, as many as there are and as `into` takes. Returns in `len` how many. `DONE`, a refusal,
/// `POWER_LOSS` or `CLOSED`.
#[unsafe(no_mangle)]
pub extern "C" fn blobcrash_files_read(
    alloc: Global,
    files: &mut Files,
    descriptor: u64,
    offset: u64,
    into: &mut [u8],
) -> Ran
    ensures { ReadsInto files.old descriptor offset into.old into.new files.new result }
{
    let Some(mut kept) = files.take(alloc) else {
        return Ran::stopped(CLOSED);
    };
    let ran = kept.supplied_read(descriptor, offset, into);
    files.put(kept);
    ran
}

/// Copies the name with an index of the last call, a list, to the start of `into`. Returns what it is bound to, and its length in
/// `size`. Changes no more.
///
/// `NO_ROOM` with the length; `OTHER_REPLY` if the last call has no name with this index; `CLOSED`.
#[unsafe(no_mangle)]
pub extern "C" fn blobcrash_files_name(
    alloc: Global,
    files: &mut Files,
    index: usize,
    into: &mut [u8],
) -> FileReply
    ensures { CopiesEntryFrom files.old files.new index result into.old into.new }
{
    let Some(kept) = files.take(alloc) else {
        return FileReply::stopped(CLOSED);
    };
    let reply = kept.name(index, into);
    files.put(kept);
    reply
}

/// Copies the path with an index of the last call, a tree, to the start of `into`. Returns what it is bound to, and its length in
/// `size`. Changes no more.
///
/// `NO_ROOM` with the length; `OTHER_REPLY` if the last call has no path with this index; `CLOSED`.
#[unsafe(no_mangle)]
pub extern "C" fn blobcrash_files_path(
    alloc: Global,
    files: &mut Files,
    index: usize,
    into: &mut [u8],
) -> FileReply
    ensures { CopiesPathFrom files.old files.new index result into.old into.new }
{
    let Some(kept) = files.take(alloc) else {
        return FileReply::stopped(CLOSED);
    };
    let reply = kept.path(index, into);
    files.put(kept);
    reply
}

/// Returns what the path with an index of the last call, a tree, is bound to, and a file's size in bytes. Changes nothing.
///
/// `OTHER_REPLY` if the last call has no path with this index; `CLOSED`.
#[unsafe(no_mangle)]
pub extern "C" fn blobcrash_files_path_found(
    alloc: Global,
    files: &mut Files,
    index: usize,
) -> FileReply
    ensures { ReadsFiles files.old files.new (λ k. TellsPath k.last index result) (result ≡ no_reply CLOSED) }
{
    let Some(kept) = files.take(alloc) else {
        return FileReply::stopped(CLOSED);
    };
    let reply = kept.path_found(index);
    files.put(kept);
    reply
}

/// Copies the durable bytes of a file, by its inode, to the start of `into`. Returns in `len` how many. Changes no more.
///
/// `NO_ROOM` with the length; `NOT_FOUND` if no file has this number, the layer's `MEMORY`, and `CLOSED`, with the length 0.
#[unsafe(no_mangle)]
pub extern "C" fn blobcrash_files_durable(
    alloc: Global,
    files: &mut Files,
    inode: u64,
    into: &mut [u8],
) -> Ran
    ensures { CopiesDurableFrom files.old files.new inode result into.old into.new }
{
    let Some(kept) = files.take(alloc) else {
        return Ran::stopped(CLOSED);
    };
    let ran = kept.durable(inode, into);
    files.put(kept);
    ran
}

/// Finds the first run of kept bytes at or after the index `from`, in a row of the last call, a crash. Changes nothing.
///
/// `OTHER_REPLY` if the last call doesn't have this row; `CLOSED`.
#[unsafe(no_mangle)]
pub extern "C" fn blobcrash_files_kept_run(
    alloc: Global,
    files: &mut Files,
    row: usize,
    from: usize,
) -> KeptRun
    ensures { ReadsFiles files.old files.new (λ k. FindsRow k.last row from result) (result ≡ no_run CLOSED) }
{
    let Some(kept) = files.take(alloc) else {
        return KeptRun::stopped(CLOSED);
    };
    let run = kept.kept_run(row, from);
    files.put(kept);
    run
}

/// Returns where the write of a row of the last call, a crash, was: in `number` the inode, 0 for an edit, and in `size` the offset in
/// bytes in the file or in the journal. Changes nothing.
///
/// `OTHER_REPLY` if the last call doesn't have this row; `CLOSED`.
#[unsafe(no_mangle)]
pub extern "C" fn blobcrash_files_kept_place(
    alloc: Global,
    files: &mut Files,
    row: usize,
) -> FileReply
    ensures { ReadsFiles files.old files.new (λ k. TellsPlace k.last row result) (result ≡ no_reply CLOSED) }
{
    let Some(kept) = files.take(alloc) else {
        return FileReply::stopped(CLOSED);
    };
    let reply = kept.kept_place(row);
    files.put(kept);
    reply
}

/// Returns in `len` 1 if the last call, a crash, kept the unsettled edit with this index, and 0 if not. Changes nothing.
///
/// `OTHER_REPLY` if the last call has no such edit; `CLOSED`.
#[unsafe(no_mangle)]
pub extern "C" fn blobcrash_files_kept_edit(alloc: Global, files: &mut Files, index: usize) -> Ran
    ensures { ReadsFiles files.old files.new (λ k. TellsEdit k.last index result) (result ≡ stopped CLOSED) }
{
    let Some(kept) = files.take(alloc) else {
        return Ran::stopped(CLOSED);
    };
    let ran = kept.kept_edit(index);
    files.put(kept);
    ran
}

/// Returns in `len` 1 if the log of the syncs follows the unsettled edit with this index, and 0 if not. Changes nothing.
///
/// `OTHER_REPLY` if there is no such edit; `CLOSED`.
#[unsafe(no_mangle)]
pub extern "C" fn blobcrash_files_follows(alloc: Global, files: &mut Files, index: usize) -> Ran
    ensures { ReadsFiles files.old files.new (λ k. TellsFollowed k index result) (result ≡ stopped CLOSED) }
{
    let Some(kept) = files.take(alloc) else {
        return Ran::stopped(CLOSED);
    };
    let ran = kept.follows(index);
    files.put(kept);
    ran
}

/// Returns in `len` how many words of the generator are left, up to the last one that isn't zero. Changes nothing.
///
/// `ENDLESS` if a seed gives the words after the given ones. `ENDLESS` and `CLOSED` have the length 0.
#[unsafe(no_mangle)]
pub extern "C" fn blobcrash_files_words_left(alloc: Global, files: &mut Files) -> Ran
    ensures { ReadsFiles files.old files.new (λ k. TellsFileWords k result) (result ≡ stopped CLOSED) }
{
    let Some(kept) = files.take(alloc) else {
        return Ran::stopped(CLOSED);
    };
    let ran = kept.words_left();
    files.put(kept);
    ran
}

/// Inserts words before those that the generator gives next.
///
/// `NO_MEMORY` changes nothing.
#[unsafe(no_mangle)]
pub extern "C" fn blobcrash_files_push_words(alloc: Global, files: &mut Files, words: &[u64]) -> u32
    ensures { InsertsFileWords files.old files.new words.now result }
{
    let Some(mut kept) = files.take(alloc) else {
        return CLOSED;
    };
    let status = kept.push_words(words);
    files.put(kept);
    status
}

/// Closes files, and ends what they held. Closed ones stay closed.
#[unsafe(no_mangle)]
pub extern "C" fn blobcrash_files_close(alloc: Global, files: &mut Files)
    ensures { files_of files.new ≡ None }
{
    files.close(alloc)
}
