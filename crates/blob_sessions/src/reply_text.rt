// A reply's line in a caller's buffer. Allocates nothing.
ghost use Rattle.std.specs.Prelude.{◌≡◌, ◌≤◌, ◌^◌, ◌++◌, ◌∷◌, [], MatchOption, codes, drop, if◌then◌else◌, length, take};
ghost use Rattle.std.specs.Fmt.{decimal};
ghost use Rattle.std.specs.List.{flat_map};
ghost use Rattle.hex.specs.Hex.{encode_lower};
ghost use Rattle.blob_script.specs.Replies.{hex_field, reply_line, row_field};
ghost use Rattle.blob_draws.specs.Rows.{row_in};
ghost use Rattle.blob_header.specs.Refusals.{refusal_of};
ghost use Rattle.blob_header.specs.ReplyLines.{field_of, layout_name, refusal_line};
ghost use Rattle.blob_sessions.specs.ReplyTexts.{Puts};

use blob_base::{Error, Layout};
use blob_lab::Reply;
use blob_lab::script::encode_hex;
use itoa::Buffer;

/// Returns the length of a reply's line in bytes, `None` if it doesn't fit in 64 bits.
pub(crate) fn line_len(reply: &Reply) -> Option<usize>
    ensures { MatchOption result (2 ^ 64 ≤ length (reply_line reply.now)) (λ len. len ≡ length (reply_line reply.now)) }
{
    put_reply(&mut [], reply)
}

/// Writes a reply's line to the start of a buffer that is long enough.
pub(crate) fn write_line(reply: &Reply, into: &mut [u8])
    requires { length (reply_line reply.now) ≤ length into.old }
    ensures line { take (length (reply_line reply.now)) into.new ≡ reply_line reply.now }
    ensures behind { drop (length (reply_line reply.now)) into.new ≡ drop (length (reply_line reply.now)) into.old }
{
    let _ = put_reply(into, reply);
}

fn put_reply(into: &mut [u8], reply: &Reply) -> Option<usize>
    ensures { Puts 0 (reply_line reply.now) into.old into.new result }
{
    let (mut first, mut second, mut third) = (Buffer::new(), Buffer::new(), Buffer::new());
    match reply {
        Reply::Done => put(into, 0, "ok"),
        Reply::Opened {
            handle,
            size,
            version,
        } => {
            let (handle, size) = (first.format(*handle), second.format(*size));
            let version = third.format(version.get());
            put_all(into, 0, &["opened ", handle, " ", size, " ", version])
        }
        Reply::Bytes(bytes) => {
            let end = put(into, 0, "bytes ")?;
            put_hex(into, end, bytes)
        }
        Reply::Size(size) => put_all(into, 0, &["size ", first.format(*size)]),
        Reply::Names(names) => {
            let end = put(into, 0, "names")?;
            put_names(into, end, names)
        }
        Reply::Started(number) => put_all(into, 0, &["started ", first.format(*number)]),
        Reply::Crashed(selections) => {
            let end = put(into, 0, "crashed")?;
            put_rows(into, end, selections.rows())
        }
        Reply::Failed(error) => put_error(into, error),
        Reply::NoHandle => put(into, 0, "error NoHandle"),
        Reply::EmptyRange => put(into, 0, "error EmptyRange"),
    }
}

fn put_error(into: &mut [u8], error: &Error) -> Option<usize>
    ensures { Puts 0 (refusal_line (refusal_of error.now)) into.old into.new result }
{
    match error {
        Error::OffsetOverflow => put(into, 0, "error OffsetOverflow"),
        Error::BlobInsufficientLength => put(into, 0, "error BlobInsufficientLength"),
        Error::PartitionNameInvalid(partition) => {
            put_all(into, 0, &["error PartitionNameInvalid ", field(partition)])
        }
        Error::PartitionMissing(partition) => {
            put_all(into, 0, &["error PartitionMissing ", field(partition)])
        }
        Error::BlobMissing(partition, name) => {
            put_all(
                into,
                0,
                &["error BlobMissing ", field(partition), " ", field(name)],
            )
        }
        Error::BlobAlreadyOpen(partition, name) => {
            put_all(
                into,
                0,
                &["error BlobAlreadyOpen ", field(partition), " ", field(name)],
            )
        }
        Error::BlobCorrupt(partition, name, reason) => {
            let (partition, name, reason) = (field(partition), field(name), field(reason));
            put_all(
                into,
                0,
                &["error BlobCorrupt ", partition, " ", name, " ", reason],
            )
        }
        Error::BlobLayoutMismatch { expected, found } => {
            let (first, last) = (name_of(*expected.start()), name_of(*expected.end()));
            let found = name_of(*found);
            put_all(
                into,
                0,
                &["error BlobLayoutMismatch ", first, " ", last, " ", found],
            )
        }
        Error::BlobVersionMismatch { expected, found } => {
            let (mut a, mut b, mut c) = (Buffer::new(), Buffer::new(), Buffer::new());
            let (first, last) = (
                a.format(expected.start().get()),
                b.format(expected.end().get()),
            );
            let found = c.format(found.get());
            put_all(
                into,
                0,
                &["error BlobVersionMismatch ", first, " ", last, " ", found],
            )
        }
        Error::Closed => put(into, 0, "error Closed"),
        Error::ReadFailed => put(into, 0, "error ReadFailed"),
        Error::WriteFailed => put(into, 0, "error WriteFailed"),
        Error::Injected => put(into, 0, "error Injected"),
        Error::Memory(_) => put(into, 0, "error Memory"),
        Error::GenerationsExhausted => put(into, 0, "error GenerationsExhausted"),
    }
}

fn field(text: &str) -> &str
    ensures { result.now ≡ field_of text.now }
{
    if text.is_empty() { "-" } else { text }
}

fn name_of(layout: Layout) -> &'static str
    ensures { result.now ≡ layout_name layout }
{
    match layout {
        Layout::V0 => "V0",
        Layout::V1 => "V1",
    }
}

fn put_names(into: &mut [u8], at: usize, names: &[Vec<u8>]) -> Option<usize>
    ensures { Puts at (flat_map (λ name. codes " " ++ hex_field name.items) names.now) into.old into.new result }
{
    let mut end = at;
    for name in names {
        let Some(next) = put_name(into, end, name) else {
            return None;
        };
        end = next;
    }
    Some(end)
}

pub fn put_name(into: &mut [u8], at: usize, name: &[u8]) -> Option<usize>
    ensures { Puts at (codes " " ++ hex_field name.now) into.old into.new result }
{
    let Some(end) = put(into, at, " ") else {
        return None;
    };
    put_hex(into, end, name)
}

fn put_rows(into: &mut [u8], at: usize, rows: &[(u64, Vec<bool>)]) -> Option<usize>
    ensures { Puts at (flat_map (λ row. row_field (row_in row)) rows.now) into.old into.new result }
{
    let mut end = at;
    for (number, choices) in rows {
        let Some(next) = put_row(into, end, *number, choices) else {
            return None;
        };
        end = next;
    }
    Some(end)
}

fn put_row(into: &mut [u8], at: usize, number: u64, choices: &[bool]) -> Option<usize>
    ensures { Puts at (row_field (number, choices.now)) into.old into.new result }
{
    let mut digits = Buffer::new();
    let Some(end) = put_all(into, at, &[" ", digits.format(number), ":"]) else {
        return None;
    };
    put_choices(into, end, choices)
}

fn put_choices(into: &mut [u8], at: usize, choices: &[bool]) -> Option<usize>
    ensures { Puts at (flat_map (λ kept. (if kept then 49 else 48) ∷ []) choices.now) into.old into.new result }
{
    let mut end = at;
    for kept in choices {
        let Some(next) = put(into, end, digit(*kept)) else {
            return None;
        };
        end = next;
    }
    Some(end)
}

fn digit(kept: bool) -> &'static str
    ensures { result.now ≡ (if kept then 49 else 48) ∷ [] }
{
    if kept { "1" } else { "0" }
}

/// Writes bytes in lower-case hex, no bytes as a dash.
#[tactic(auto, using(crate::proofs::Putting::no_digits, crate::proofs::Putting::some_digits))]
pub(crate) fn put_hex(into: &mut [u8], at: usize, bytes: &[u8]) -> Option<usize>
    ensures { Puts at (hex_field bytes.now) into.old into.new result }
{
    if bytes.is_empty() {
        return put(into, at, "-");
    }
    put_digits(into, at, bytes)
}

fn put_digits(into: &mut [u8], at: usize, bytes: &[u8]) -> Option<usize>
    ensures { Puts at (encode_lower bytes.now) into.old into.new result }
{
    let Some(half) = at.checked_add(bytes.len()) else {
        return None;
    };
    let Some(end) = half.checked_add(bytes.len()) else {
        return None;
    };
    if end <= into.len() {
        encode_hex(bytes, &mut into[at..end]);
    }
    Some(end)
}

pub(crate) fn put_all(into: &mut [u8], at: usize, texts: &[&str]) -> Option<usize>
    ensures { Puts at (flat_map (λ text. text.now) texts.now) into.old into.new result }
{
    let mut end = at;
    for text in texts {
        let Some(next) = put(into, end, text) else {
            return None;
        };
        end = next;
    }
    Some(end)
}

/// Writes a text into a buffer from index `at` on, if it fits. Returns the index after it, `None` if that doesn't fit in 64 bits.
pub fn put(into: &mut [u8], at: usize, text: &str) -> Option<usize>
    ensures { Puts at text.now into.old into.new result }
{
    let end = at.checked_add(text.len())?;
    if end <= into.len() {
        into[at..end].copy_from_slice(text.as_bytes());
    }
    Some(end)
}
