//! The laboratory for programs in other languages: a whole script in one call, or a session and one call after another.
//!
//! What a session is and does is `blob_sessions`. The header `bindings/c/blobcrash.h` says what callers owe: no check reaches them.
#![tactic(auto)]

pub mod explain_calls;
pub mod explorer_calls;
pub mod file_calls;
pub mod fork_calls;
pub mod header_calls;
pub mod power_calls;
pub mod word_calls;

ghost use Rattle.std.specs.Prelude.{◌≡◌, ◌⊎◌, ◌<◌, ◌≤◌, None, IsSome, IfSome, take, drop, length};
ghost use Rattle.blob_lab.specs.Scripts.{lines_of};
ghost use Rattle.blob_sessions.specs.Applying.{AppliesTo, HasSize};
ghost use Rattle.blob_sessions.specs.DurableBlobs.{CopiesDigestFrom, CopiesFrom};
ghost use Rattle.blob_sessions.specs.Parts.{CopiesNameFrom, FindsName, FindsRun, no_run};
ghost use Rattle.blob_sessions.specs.Preambles.{BreaksAt, IsMadeOf};
ghost use Rattle.blob_sessions.specs.Sessions.{Inspects, MakesDebt, ReadsInto, RepeatsReply, RunsLineIn, WritesBytes, kept_of, stopped};
ghost use Rattle.blob_sessions.specs.Typed.{last_reply, without_reply};
ghost use Rattle.blob_sessions.specs.WholeScripts.{IsRunStatus, PrintsScript, PrintsUntil, WantsRoom};
ghost use Rattle.blob_sessions.specs.Words.{InsertsWords, TellsWordsLeft};

use blob_sessions::ran::{BAD_LINE, CLOSED, DONE, ENDLESS, NO_MEMORY, NO_ROOM};
use blob_sessions::{
    DebtCall, DebtReply, KeptRun, Ran, RefusedPreamble, ScriptRan, Session, TypedCall, TypedReply,
    preamble, script,
};
use std::alloc::Global;

/// Runs a script, and writes its replies to the start of `replies`, a line each. The bytes after them don't change.
///
/// `BAD_LINE` returns the line's number, and writes the replies before it. `NO_ROOM` writes nothing and returns the
/// capacity that is needed, and the number of the bad line if the run stops before one; `NO_MEMORY` and `ENDLESS` write
/// nothing.
#[unsafe(no_mangle)]
pub extern "C" fn blobcrash_run(alloc: Global, script: &[u8], replies: &mut [u8]) -> ScriptRan
    ensures done { result.status ≡ DONE → PrintsScript script.now (take result.len replies.new) }
    ensures bad_line { result.status ≡ BAD_LINE → PrintsUntil script.now result.line (take result.len replies.new) }
    ensures no_room { result.status ≡ NO_ROOM → length replies.old < result.len }
    ensures wanted { result.status ≡ NO_ROOM → WantsRoom script.now result.line result.len }
    ensures no_line { result.status ≡ DONE → result.line ≡ 0 }
    ensures stopped { (result.status ≡ NO_MEMORY) ⊎ (result.status ≡ ENDLESS) → (result.len ≡ 0) × (result.line ≡ 0) }
    ensures unwritten { (result.status ≡ DONE) ⊎ (result.status ≡ BAD_LINE) ⊎ (replies.new ≡ replies.old) }
    ensures behind { drop result.len replies.new ≡ drop result.len replies.old }
    ensures within { (result.status ≡ NO_ROOM) ⊎ (result.len ≤ length replies.old) }
    ensures status { IsRunStatus result.status }
{
    script::run(alloc, script, replies)
}

/// Opens a session with a preamble: the lines of a script that are images, words, a seed and settings, the settings last. What the
/// session held before is ended.
///
/// `BAD_LINE` returns the number of a line that isn't allowed there. It and `NO_MEMORY` change nothing.
#[unsafe(no_mangle)]
pub extern "C" fn blobcrash_open(alloc: Global, session: &mut Session, preamble: &[u8]) -> ScriptRan
    ensures opened { result.status ≡ DONE → IsSome (kept_of session.new) }
    ensures done { result.status ≡ DONE → IfSome (kept_of session.new) (λ k. IsMadeOf k (lines_of preamble.now)) }
    ensures bad_line { result.status ≡ BAD_LINE → BreaksAt (lines_of preamble.now) result.line }
    ensures unchanged { result.status ≡ BAD_LINE → kept_of session.new ≡ kept_of session.old }
    ensures no_memory { result.status ≡ NO_MEMORY → kept_of session.new ≡ kept_of session.old }
    ensures no_line { (result.status ≡ BAD_LINE) ⊎ (result.line ≡ 0) }
    ensures no_reply { result.len ≡ 0 }
    ensures status { (result.status ≡ DONE) ⊎ (result.status ≡ BAD_LINE) ⊎ (result.status ≡ NO_MEMORY) }
{
    let kept = match preamble::start(alloc, preamble) {
        Ok(kept) => kept,
        Err(RefusedPreamble::BadLine(line)) => {
            return ScriptRan {
                status: BAD_LINE,
                len: 0,
                line,
            };
        }
        Err(RefusedPreamble::NoMemory) => return ScriptRan::stopped(NO_MEMORY),
    };
    let Ok(kept) = Box::new(alloc, kept) else {
        return ScriptRan::stopped(NO_MEMORY);
    };
    session.close(alloc);
    session.put(kept);
    ScriptRan::stopped(DONE)
}

/// Makes the call of a line, and writes its reply to the start of `reply`, without a line feed. The bytes after it
/// don't change. An empty line or a comment makes no call, and its reply has no bytes.
///
/// `NO_ROOM` and `UNPRINTED`: the call was made, and its reply is kept for `blobcrash_reply`. `BAD_LINE`, `NO_MEMORY` and
/// `POWER_LOSS` change nothing; a call that was refused memory is `DONE`, and its reply says so.
#[unsafe(no_mangle)]
pub extern "C" fn blobcrash_call(
    alloc: Global,
    session: &mut Session,
    line: &[u8],
    reply: &mut [u8],
) -> Ran
    ensures { RunsLineIn session.old session.new line.now result reply.old reply.new }
{
    let Some(mut kept) = session.take(alloc) else {
        return Ran::stopped(CLOSED);
    };
    let ran = kept.call(alloc, line, reply);
    session.put(kept);
    ran
}

/// Writes the reply to the last call once more, as often as it is asked for.
#[unsafe(no_mangle)]
pub extern "C" fn blobcrash_reply(alloc: Global, session: &mut Session, reply: &mut [u8]) -> Ran
    ensures { RepeatsReply session.old session.new result reply.old reply.new }
{
    let Some(mut kept) = session.take(alloc) else {
        return Ran::stopped(CLOSED);
    };
    let ran = kept.tell(reply);
    session.put(kept);
    ran
}

/// Writes bytes through a handle, with `sync` as a SYNC write: the call `write` or `writes`, without text.
///
/// `POWER_LOSS` changes nothing. Any other status but `DONE` and `CLOSED` is a refusal, and `blobcrash_reply` returns its texts.
#[unsafe(no_mangle)]
pub extern "C" fn blobcrash_write(
    alloc: Global,
    session: &mut Session,
    handle: usize,
    offset: u64,
    bytes: &[u8],
    sync: bool,
) -> u32
    ensures { WritesBytes session.old session.new handle offset bytes.now sync result }
{
    let Some(mut kept) = session.take(alloc) else {
        return CLOSED;
    };
    let status = kept.supplied_write(handle, offset, bytes, sync);
    session.put(kept);
    status
}

/// Fills `into` with bytes that are read through a handle: the call `read`, without text.
///
/// `POWER_LOSS` changes nothing. Any other status but `DONE` and `CLOSED` is a refusal: `into` doesn't change, and `blobcrash_reply` returns
/// its texts.
#[unsafe(no_mangle)]
pub extern "C" fn blobcrash_read(
    alloc: Global,
    session: &mut Session,
    handle: usize,
    offset: u64,
    into: &mut [u8],
) -> u32
    ensures { ReadsInto session.old session.new handle offset result into.old into.new }
{
    let Some(mut kept) = session.take(alloc) else {
        return CLOSED;
    };
    let status = kept.supplied_read(handle, offset, into);
    session.put(kept);
    status
}

/// Makes a call without text: its numbers in `asked`, its partition and its name as bytes. Returns the numbers of its reply.
///
/// Errors, with nothing changed:
/// - `BAD_CALL` if the kind is unknown, a version doesn't fit in 16 bits or the partition isn't UTF-8.
/// - `POWER_LOSS`, `CLOSED`.
///
/// Any other status but `DONE` is a refusal of the call that was made.
#[unsafe(no_mangle)]
pub extern "C" fn blobcrash_apply(
    alloc: Global,
    session: &mut Session,
    asked: &TypedCall,
    partition: &[u8],
    name: &[u8],
) -> TypedReply
    ensures { AppliesTo session.old session.new asked.now partition.now name.now result }
{
    let Some(mut kept) = session.take(alloc) else {
        return TypedReply::stopped(CLOSED);
    };
    let reply = kept.supplied_apply(asked, partition, name);
    session.put(kept);
    reply
}

/// Returns the numbers of the reply to the last call, also of one by a line. Before the first call it is `DONE`. Changes
/// nothing.
///
/// `CLOSED` if the session is closed.
#[unsafe(no_mangle)]
pub extern "C" fn blobcrash_last(alloc: Global, session: &mut Session) -> TypedReply
    ensures { Inspects session.old session.new (λ k. result ≡ last_reply k.last) (result ≡ without_reply CLOSED) }
{
    let Some(kept) = session.take(alloc) else {
        return TypedReply::stopped(CLOSED);
    };
    let reply = kept.last();
    session.put(kept);
    reply
}

/// Returns the size that a handle tracks, in bytes, as the call `size` does. The reply to the last call stays the last one. Changes
/// nothing.
///
/// `NO_HANDLE` if there is no such handle; `CLOSED` if the session is closed.
#[unsafe(no_mangle)]
pub extern "C" fn blobcrash_tracked_size(
    alloc: Global,
    session: &mut Session,
    handle: usize,
) -> TypedReply
    ensures { Inspects session.old session.new (λ k. HasSize k handle result) (result ≡ without_reply CLOSED) }
{
    let Some(kept) = session.take(alloc) else {
        return TypedReply::stopped(CLOSED);
    };
    let reply = kept.tracked_size(handle);
    session.put(kept);
    reply
}

/// Copies a name of the last reply, which a scan returned, to the start of `into`. Changes no more.
///
/// `NO_ROOM` with the capacity that is needed; `OTHER_REPLY` if the last reply has no name with this index; `CLOSED`.
#[unsafe(no_mangle)]
pub extern "C" fn blobcrash_name(
    alloc: Global,
    session: &mut Session,
    index: usize,
    into: &mut [u8],
) -> Ran
    ensures { CopiesNameFrom session.old session.new index result into.old into.new }
{
    let Some(kept) = session.take(alloc) else {
        return Ran::stopped(CLOSED);
    };
    let ran = kept.name(index, into);
    session.put(kept);
    ran
}

/// Returns in `len` the index of a name in the last reply, which a scan returned. Changes nothing.
///
/// `OTHER_REPLY` if the last reply doesn't have this name; `CLOSED`.
#[unsafe(no_mangle)]
pub extern "C" fn blobcrash_find_name(alloc: Global, session: &mut Session, name: &[u8]) -> Ran
    ensures { Inspects session.old session.new (λ k. FindsName k.last name.now result) (result ≡ stopped CLOSED) }
{
    let Some(kept) = session.take(alloc) else {
        return Ran::stopped(CLOSED);
    };
    let ran = kept.find_name(name);
    session.put(kept);
    ran
}

/// Finds the first run of kept bytes at or after the index `from`, in a row of the last reply, which a crash returned. Changes
/// nothing.
///
/// `OTHER_REPLY` if the last reply doesn't have this row; `CLOSED`.
#[unsafe(no_mangle)]
pub extern "C" fn blobcrash_kept_run(
    alloc: Global,
    session: &mut Session,
    row: usize,
    from: usize,
) -> KeptRun
    ensures { Inspects session.old session.new (λ k. FindsRun k.last row from result) (result ≡ no_run CLOSED) }
{
    let Some(kept) = session.take(alloc) else {
        return KeptRun::stopped(CLOSED);
    };
    let run = kept.kept_run(row, from);
    session.put(kept);
    run
}

/// Copies the durable bytes of a blob, `with_header` or those after it, to the start of `into`. Draws nothing, and changes no
/// more.
///
/// `NO_ROOM` with the capacity that is needed; `BLOB_MISSING` if there is no such blob, or no header to leave out; `BAD_CALL` if
/// the partition isn't UTF-8; `NO_MEMORY`; `CLOSED`.
#[unsafe(no_mangle)]
pub extern "C" fn blobcrash_durable_blob(
    alloc: Global,
    session: &mut Session,
    partition: &[u8],
    name: &[u8],
    with_header: bool,
    into: &mut [u8],
) -> Ran
    ensures { CopiesFrom session.old session.new with_header partition.now name.now result into.old into.new }
{
    let Some(kept) = session.take(alloc) else {
        return Ran::stopped(CLOSED);
    };
    let ran = kept.durable_blob(partition, name, with_header, into);
    session.put(kept);
    ran
}

/// Copies the digest of all durable blobs, which has four bytes, to the start of `into`. Draws nothing, and changes no more.
///
/// `NO_ROOM` with the capacity that is needed; `CLOSED`.
#[unsafe(no_mangle)]
pub extern "C" fn blobcrash_audit(alloc: Global, session: &mut Session, into: &mut [u8]) -> Ran
    ensures { CopiesDigestFrom session.old session.new result into.old into.new }
{
    let Some(kept) = session.take(alloc) else {
        return Ran::stopped(CLOSED);
    };
    let ran = kept.audit(into);
    session.put(kept);
    ran
}

/// Returns in `len` how many words of the session's generator are left, up to the last one that isn't zero. Changes nothing.
///
/// `ENDLESS` if a seed gives the words after the given ones. `ENDLESS` and `CLOSED` have the length 0.
#[unsafe(no_mangle)]
pub extern "C" fn blobcrash_words_left(alloc: Global, session: &mut Session) -> Ran
    ensures { Inspects session.old session.new (λ k. TellsWordsLeft k result) (result ≡ stopped CLOSED) }
{
    let Some(kept) = session.take(alloc) else {
        return Ran::stopped(CLOSED);
    };
    let ran = kept.words_left();
    session.put(kept);
    ran
}

/// Inserts words before those that the session's generator gives next.
///
/// `NO_MEMORY` changes nothing.
#[unsafe(no_mangle)]
pub extern "C" fn blobcrash_push_words(alloc: Global, session: &mut Session, words: &[u64]) -> u32
    ensures { InsertsWords session.old session.new words.now result }
{
    let Some(mut kept) = session.take(alloc) else {
        return CLOSED;
    };
    let status = kept.push_words(words);
    session.put(kept);
    status
}

/// Makes a call of the registry of durability debt, which a session has as well as its store, and returns what the registry
/// returned. The store doesn't change.
///
/// Errors, with nothing changed:
/// - `BAD_CALL` if the kind is unknown, the failure has texts or the partition isn't UTF-8.
/// - `CLOSED`.
///
/// Any other status but `DONE` is a refusal of the call.
#[unsafe(no_mangle)]
pub extern "C" fn blobcrash_debt(
    alloc: Global,
    session: &mut Session,
    asked: &DebtCall,
    partition: &[u8],
    name: &[u8],
) -> DebtReply
    ensures { MakesDebt session.old session.new asked.now partition.now name.now result }
{
    let Some(mut kept) = session.take(alloc) else {
        return DebtReply::stopped(CLOSED);
    };
    let reply = kept.owe(alloc, asked, partition, name);
    session.put(kept);
    reply
}

/// Closes a session, and ends what it held. A closed one stays closed.
#[unsafe(no_mangle)]
pub extern "C" fn blobcrash_close(alloc: Global, session: &mut Session)
    ensures { kept_of session.new ≡ None }
{
    session.close(alloc)
}
