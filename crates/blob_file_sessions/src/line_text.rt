// The line of a call on files in a caller's buffer. Allocates nothing.
ghost use Rattle.std.specs.Prelude.{◌≡◌, ◌++◌, option_map};
ghost use Rattle.blob_file_sessions.specs.CallLines.{call_line, entry_field, fields, form_of, how_field, how_of, path_field};
ghost use Rattle.blob_sessions.specs.CallLines.{CopiesLine, bytes_field, number_field};
ghost use Rattle.blob_sessions.specs.ReplyTexts.{Puts};

use crate::call::FileCall;
use crate::kinds::{
    CLOSE, COMMIT, CRASH, CREATE, CREATE_AT, FIND, FIND_AT, INODE_OF, LINK, LINK_AT, LIST, LIST_AT,
    MAKE_DIRECTORY, MAKE_DIRECTORY_AT, OPEN, OPEN_INODE, OPEN_INODE_TRUNCATED, OPEN_TRUNCATED,
    READ, REMOVE_DIRECTORY, REMOVE_DIRECTORY_AT, RENAME, RENAME_AT, SETTLE, SIZE, SYNC, SYNC_ALL,
    SYNC_DATA, SYNC_DIRECTORY, SYNC_DIRECTORY_AT, TREE, TRUNCATE, UNLINK, UNLINK_AT, WRITE,
};
use crate::names::kind_word;
use crate::path_text::put_path;
use blob_sessions::Ran;
use blob_sessions::line_text::{put_number, put_two};
use blob_sessions::ran::{BAD_CALL, DONE, NO_ROOM, UNPRINTED};
use blob_sessions::reply_text::{put, put_name};

/// What the line of a call has after its word.
#[derive(Clone, Copy)]
pub enum Form {
    Path,
    /// Two paths.
    Two,
    /// Two paths, and what is done if the second is taken.
    Rename,
    /// A directory's number and a name.
    Entry,
    /// An inode, a directory's number and a name.
    LinkEntry,
    /// Twice a directory's number and a name, and what is done if the second is taken.
    RenameEntry,
    Number,
    /// Two numbers.
    First,
    /// Three numbers.
    Last,
    /// Two numbers and bytes.
    Bytes,
    /// Nothing.
    Whole,
}

/// Returns what the line of a kind's calls has after its word.
fn form_of(kind: u32) -> Option<Form>
    ensures { result ≡ form_of kind }
{
    Some(match kind {
        CREATE | OPEN | OPEN_TRUNCATED | UNLINK | MAKE_DIRECTORY | REMOVE_DIRECTORY => Form::Path,
        LIST | SYNC_DIRECTORY | FIND => Form::Path,
        LINK => Form::Two,
        RENAME => Form::Rename,
        CREATE_AT | UNLINK_AT | MAKE_DIRECTORY_AT | REMOVE_DIRECTORY_AT | FIND_AT => Form::Entry,
        LINK_AT => Form::LinkEntry,
        RENAME_AT => Form::RenameEntry,
        LIST_AT | SYNC_DIRECTORY_AT | OPEN_INODE | OPEN_INODE_TRUNCATED => Form::Number,
        CLOSE | SIZE | SYNC | SYNC_DATA | INODE_OF => Form::Number,
        TRUNCATE => Form::First,
        READ => Form::Last,
        WRITE => Form::Bytes,
        SYNC_ALL | SETTLE | CRASH | TREE | COMMIT => Form::Whole,
        _ => return None,
    })
}

/// Returns the field of what a rename does if the new name is taken. `None` if the number is above 2.
fn how_text(how: u64) -> Option<&'static str>
    ensures { option_map (λ text. text.now) result ≡ how_field how }
{
    match how {
        0 => Some(""),
        1 => Some(" noreplace"),
        2 => Some(" exchange"),
        _ => None,
    }
}

fn how_of(form: Form, asked: &FileCall) -> Option<&'static str>
    ensures { option_map (λ text. text.now) result ≡ how_of form asked.now }
{
    match form {
        Form::Rename => how_text(asked.first),
        Form::RenameEntry => how_text(asked.last),
        _ => Some(""),
    }
}

fn put_field(into: &mut [u8], at: usize, path: &[u8]) -> Option<usize>
    ensures { Puts at (path_field path.now) into.old into.new result }
{
    let Some(end) = put(into, at, " ") else {
        return None;
    };
    put_path(into, end, path)
}

fn put_paths(into: &mut [u8], at: usize, path: &[u8], to: &[u8]) -> Option<usize>
    ensures { Puts at (path_field path.now ++ path_field to.now) into.old into.new result }
{
    let Some(end) = put_field(into, at, path) else {
        return None;
    };
    put_field(into, end, to)
}

fn put_entry(into: &mut [u8], at: usize, directory: u64, name: &[u8]) -> Option<usize>
    ensures { Puts at (entry_field directory name.now) into.old into.new result }
{
    let Some(end) = put_number(into, at, directory) else {
        return None;
    };
    put_field(into, end, name)
}

fn put_link(into: &mut [u8], at: usize, asked: &FileCall, name: &[u8]) -> Option<usize>
    ensures { Puts at (number_field asked.now.first ++ entry_field asked.now.number name.now) into.old into.new result }
{
    let Some(end) = put_number(into, at, asked.first) else {
        return None;
    };
    put_entry(into, end, asked.number, name)
}

fn put_entries(
    into: &mut [u8],
    at: usize,
    asked: &FileCall,
    name: &[u8],
    to: &[u8],
) -> Option<usize>
    ensures { Puts at (entry_field asked.now.number name.now ++ entry_field asked.now.first to.now) into.old into.new result }
{
    let Some(end) = put_entry(into, at, asked.number, name) else {
        return None;
    };
    put_entry(into, end, asked.first, to)
}

fn put_three(into: &mut [u8], at: usize, asked: &FileCall) -> Option<usize>
    ensures { Puts at ((number_field asked.now.number ++ number_field asked.now.first) ++ number_field asked.now.last) into.old into.new result }
{
    let Some(end) = put_two(into, at, asked.number, asked.first) else {
        return None;
    };
    put_number(into, end, asked.last)
}

fn put_write(into: &mut [u8], at: usize, asked: &FileCall, bytes: &[u8]) -> Option<usize>
    ensures { Puts at ((number_field asked.now.number ++ number_field asked.now.first) ++ bytes_field bytes.now) into.old into.new result }
{
    let Some(end) = put_two(into, at, asked.number, asked.first) else {
        return None;
    };
    put_name(into, end, bytes)
}

fn put_fields(
    into: &mut [u8],
    at: usize,
    form: Form,
    asked: &FileCall,
    path: &[u8],
    to: &[u8],
) -> Option<usize>
    ensures { Puts at (fields form asked.now path.now to.now) into.old into.new result }
{
    match form {
        Form::Path => put_field(into, at, path),
        Form::Two | Form::Rename => put_paths(into, at, path, to),
        Form::Entry => put_entry(into, at, asked.number, path),
        Form::LinkEntry => put_link(into, at, asked, path),
        Form::RenameEntry => put_entries(into, at, asked, path, to),
        Form::Number => put_number(into, at, asked.number),
        Form::First => put_two(into, at, asked.number, asked.first),
        Form::Last => put_three(into, at, asked),
        Form::Bytes => put_write(into, at, asked, path),
        Form::Whole => put(into, at, ""),
    }
}

fn put_front(
    into: &mut [u8],
    word: &str,
    form: Form,
    asked: &FileCall,
    path: &[u8],
    to: &[u8],
) -> Option<usize>
    ensures { Puts 0 (word.now ++ fields form asked.now path.now to.now) into.old into.new result }
{
    let Some(end) = put(into, 0, word) else {
        return None;
    };
    put_fields(into, end, form, asked, path, to)
}

/// Writes a line: its word, the fields of its form, and what a rename does.
fn put_line(
    into: &mut [u8],
    word: &str,
    form: Form,
    how: &str,
    asked: &FileCall,
    path: &[u8],
    to: &[u8],
) -> Option<usize>
    ensures { Puts 0 ((word.now ++ fields form asked.now path.now to.now) ++ how.now) into.old into.new result }
{
    let Some(end) = put_front(into, word, form, asked, path, to) else {
        return None;
    };
    put(into, end, how)
}

/// Writes the line of a call, without its line feed, to the start of `into`, if it fits. The bytes of a write are the path.
///
/// `BAD_CALL` if no line has the kind, or the number of a rename is above 2; `NO_ROOM` with the length; `UNPRINTED` if that doesn't fit in
/// 64 bits.
pub fn line_of(asked: &FileCall, path: &[u8], to: &[u8], into: &mut [u8]) -> Ran
    ensures { CopiesLine (call_line asked.now path.now to.now) result into.old into.new }
{
    let (Some(word), Some(form)) = (kind_word(asked.kind), form_of(asked.kind)) else {
        return Ran::stopped(BAD_CALL);
    };
    let Some(how) = how_of(form, asked) else {
        return Ran::stopped(BAD_CALL);
    };
    let Some(len) = put_line(&mut [], word, form, how, asked, path, to) else {
        return Ran::stopped(UNPRINTED);
    };
    if len > into.len() {
        return Ran {
            status: NO_ROOM,
            len,
        };
    }
    let _ = put_line(into, word, form, how, asked, path, to);
    Ran { status: DONE, len }
}
