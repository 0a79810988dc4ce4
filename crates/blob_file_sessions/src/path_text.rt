// Paths and names as tokens of a line, in a caller's buffer.
ghost use Rattle.std.specs.Prelude.{◌≡◌, ◌<◌};
ghost use Rattle.std.specs.Char.{digit_char};
ghost use Rattle.std.specs.List.{flat_map};
ghost use Rattle.blob_file_sessions.specs.PathTokens.{byte_token, is_plain, path_token};
ghost use Rattle.blob_sessions.specs.ReplyTexts.{Puts};

use blob_sessions::line_text::put_slice;
use blob_sessions::reply_text::put;

/// Returns whether a byte of a path stands for itself: printable ASCII but the space, the backslash and the number sign, with
/// which a comment begins.
pub fn is_plain(byte: u8) -> bool
    ensures { result ≡ is_plain byte }
{
    byte > b' ' && byte < 127 && byte != b'\\' && byte != b'#'
}

/// Returns the hex digit of a value below 16.
fn digit_of(value: u8) -> u8
    ensures { value < 16 → result ≡ digit_char value }
{
    match value {
        0..10 => b'0' + value,
        10..16 => b'a' + (value - 10),
        _ => b'?',
    }
}

/// Writes a byte of a path: itself, or `\xNN`.
fn put_byte(into: &mut [u8], at: usize, byte: u8) -> Option<usize>
    ensures { Puts at (byte_token byte) into.old into.new result }
{
    if is_plain(byte) {
        return put_slice(into, at, &[byte]);
    }
    put_slice(
        into,
        at,
        &[b'\\', b'x', digit_of(byte / 16), digit_of(byte % 16)],
    )
}

fn put_bytes(into: &mut [u8], at: usize, path: &[u8]) -> Option<usize>
    ensures { Puts at (flat_map byte_token path.now) into.old into.new result }
{
    let mut end = at;
    for byte in path {
        let Some(next) = put_byte(into, end, *byte) else {
            return None;
        };
        end = next;
    }
    Some(end)
}

/// Writes a path or a name as a token into a buffer from index `at` on, if it fits. Returns the index after it, `None` if that doesn't fit
/// in 64 bits.
pub fn put_path(into: &mut [u8], at: usize, path: &[u8]) -> Option<usize>
    ensures { Puts at (path_token path.now) into.old into.new result }
{
    if path.is_empty() {
        return put(into, at, "\"\"");
    }
    put_bytes(into, at, path)
}
