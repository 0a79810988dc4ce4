// The line of a typed call in a caller's buffer. Allocates nothing.
ghost use Rattle.std.specs.Prelude.{◌≡◌, ◌++◌, ◌||◌, ◌==◌};
ghost use Rattle.std.specs.Char.{is_ascii_alphanumeric};
ghost use Rattle.std.specs.List.{list_all};
ghost use Rattle.blob_header.specs.PartitionName.{is_partition_name};
ghost use Rattle.blob_sessions.specs.CallLines.{CopiesLine, bytes_field, call_line, fields, forms, number_field, partition_field, partition_token, versions_field};
ghost use Rattle.blob_sessions.specs.ReplyTexts.{Puts};
ghost use Rattle.blob_sessions.specs.Typed.{by_kind};

use crate::kinds::{
    ADMIT, CLOSE, CRASH, FINISH, OPEN, OPEN_LOOSE, READ, REMOVE_BLOB, REMOVE_PARTITION, REOPEN,
    RESIZE, SCAN, SIZE, START_SYNC, SYNC, WRITE, WRITE_SYNC,
};
use crate::names::kind_word;
use crate::ran::{BAD_CALL, DONE, NO_ROOM, Ran, UNPRINTED};
use crate::reply_text::{put, put_all, put_name};
use crate::typed::TypedCall;
use itoa::Buffer;

/// What the line of a call has after its word.
#[derive(Clone, Copy)]
pub enum Form {
    /// A partition, a name and the accepted versions.
    Versions,
    /// A partition and a name.
    Named,
    Partition,
    Number,
    /// Two numbers.
    First,
    /// Three numbers.
    Last,
    /// Two numbers and bytes.
    Bytes,
    /// Nothing.
    Whole,
}

/// Returns what the line of a kind's calls has after its word.
fn form_of(kind: u32) -> Option<Form>
    ensures { result ≡ by_kind kind forms }
{
    Some(match kind {
        OPEN | OPEN_LOOSE => Form::Versions,
        ADMIT | REMOVE_BLOB => Form::Named,
        REMOVE_PARTITION | SCAN => Form::Partition,
        CLOSE | SIZE | SYNC | START_SYNC | FINISH => Form::Number,
        RESIZE => Form::First,
        READ => Form::Last,
        WRITE | WRITE_SYNC => Form::Bytes,
        CRASH | REOPEN => Form::Whole,
        _ => return None,
    })
}

fn is_name(partition: &[u8]) -> bool
    ensures { result ≡ is_partition_name partition.now }
{
    !partition.is_empty() && has_only_name_bytes(partition)
}

fn has_only_name_bytes(bytes: &[u8]) -> bool
    ensures { result ≡ list_all (λ byte. is_ascii_alphanumeric byte || (byte == 0x2d) || (byte == 0x5f)) bytes.now }
{
    bytes.iter().all(|byte| byte.is_ascii_alphanumeric() || *byte == b'-' || *byte == b'_')
}

/// Writes bytes into a buffer from index `at` on, if they fit. Returns the index after them, `None` if that doesn't fit in 64 bits.
pub fn put_slice(into: &mut [u8], at: usize, bytes: &[u8]) -> Option<usize>
    ensures { Puts at bytes.now into.old into.new result }
{
    let end = at.checked_add(bytes.len())?;
    if end <= into.len() {
        into[at..end].copy_from_slice(bytes);
    }
    Some(end)
}

fn put_token(into: &mut [u8], at: usize, partition: &[u8]) -> Option<usize>
    ensures { Puts at (partition_token partition.now) into.old into.new result }
{
    if is_name(partition) {
        return put_slice(into, at, partition);
    }
    put(into, at, "!")
}

fn put_partition(into: &mut [u8], at: usize, partition: &[u8]) -> Option<usize>
    ensures { Puts at (partition_field partition.now) into.old into.new result }
{
    let Some(end) = put(into, at, " ") else {
        return None;
    };
    put_token(into, end, partition)
}

fn put_named(into: &mut [u8], at: usize, partition: &[u8], name: &[u8]) -> Option<usize>
    ensures { Puts at (partition_field partition.now ++ bytes_field name.now) into.old into.new result }
{
    let Some(end) = put_partition(into, at, partition) else {
        return None;
    };
    put_name(into, end, name)
}

pub fn put_number(into: &mut [u8], at: usize, number: u64) -> Option<usize>
    ensures { Puts at (number_field number) into.old into.new result }
{
    let mut digits = Buffer::new();
    put_all(into, at, &[" ", digits.format(number)])
}

pub fn put_two(into: &mut [u8], at: usize, first: u64, second: u64) -> Option<usize>
    ensures { Puts at (number_field first ++ number_field second) into.old into.new result }
{
    let Some(end) = put_number(into, at, first) else {
        return None;
    };
    put_number(into, end, second)
}

fn put_versions(into: &mut [u8], at: usize, asked: &TypedCall) -> Option<usize>
    ensures { Puts at (versions_field asked.now) into.old into.new result }
{
    if asked.first == 0 && asked.last == 0 {
        return put(into, at, "");
    }
    put_two(into, at, asked.first, asked.last)
}

fn put_opened(
    into: &mut [u8],
    at: usize,
    asked: &TypedCall,
    partition: &[u8],
    name: &[u8],
) -> Option<usize>
    ensures { Puts at ((partition_field partition.now ++ bytes_field name.now) ++ versions_field asked.now) into.old into.new result }
{
    let Some(end) = put_named(into, at, partition, name) else {
        return None;
    };
    put_versions(into, end, asked)
}

fn put_three(into: &mut [u8], at: usize, asked: &TypedCall) -> Option<usize>
    ensures { Puts at ((number_field asked.now.number ++ number_field asked.now.first) ++ number_field asked.now.last) into.old into.new result }
{
    let Some(end) = put_two(into, at, asked.number as u64, asked.first) else {
        return None;
    };
    put_number(into, end, asked.last)
}

fn put_write(into: &mut [u8], at: usize, asked: &TypedCall, bytes: &[u8]) -> Option<usize>
    ensures { Puts at ((number_field asked.now.number ++ number_field asked.now.first) ++ bytes_field bytes.now) into.old into.new result }
{
    let Some(end) = put_two(into, at, asked.number as u64, asked.first) else {
        return None;
    };
    put_name(into, end, bytes)
}

fn put_fields(
    into: &mut [u8],
    at: usize,
    form: Form,
    asked: &TypedCall,
    partition: &[u8],
    name: &[u8],
) -> Option<usize>
    ensures { Puts at (fields form asked.now partition.now name.now) into.old into.new result }
{
    match form {
        Form::Versions => put_opened(into, at, asked, partition, name),
        Form::Named => put_named(into, at, partition, name),
        Form::Partition => put_partition(into, at, partition),
        Form::Number => put_number(into, at, asked.number as u64),
        Form::First => put_two(into, at, asked.number as u64, asked.first),
        Form::Last => put_three(into, at, asked),
        Form::Bytes => put_write(into, at, asked, name),
        Form::Whole => put(into, at, ""),
    }
}

fn put_line(
    into: &mut [u8],
    word: &str,
    form: Form,
    asked: &TypedCall,
    partition: &[u8],
    name: &[u8],
) -> Option<usize>
    ensures { Puts 0 (word.now ++ fields form asked.now partition.now name.now) into.old into.new result }
{
    let Some(end) = put(into, 0, word) else {
        return None;
    };
    put_fields(into, end, form, asked, partition, name)
}

/// Writes the line of a call, without its line feed, to the start of `into`, if it fits. The bytes of a write are the name.
///
/// `BAD_CALL` if no line has the kind; `NO_ROOM` with the length; `UNPRINTED` if that doesn't fit in 64 bits.
pub fn line_of(asked: &TypedCall, partition: &[u8], name: &[u8], into: &mut [u8]) -> Ran
    ensures { CopiesLine (call_line asked.now partition.now name.now) result into.old into.new }
{
    let (Some(word), Some(form)) = (kind_word(asked.kind), form_of(asked.kind)) else {
        return Ran::stopped(BAD_CALL);
    };
    let Some(len) = put_line(&mut [], word, form, asked, partition, name) else {
        return Ran::stopped(UNPRINTED);
    };
    if len > into.len() {
        return Ran {
            status: NO_ROOM,
            len,
        };
    }
    let _ = put_line(into, word, form, asked, partition, name);
    Ran { status: DONE, len }
}
