//! Paths and names as tokens of a line.
ghost use Rattle.std.specs.Prelude.{◌≡◌, ◌++◌, OnOk, string_bytes, IfSome, IfNone, Err, IfOk, None, Some, ◌<◌};
ghost use Rattle.std.specs.Char.{digit_char};
ghost use Rattle.hex.specs.Hex.{hex_digit_value};
ghost use Rattle.blob_file_scripts.specs.PathTokens.{HasNoEscape, StartsEscaped, path_of, unescaped};
ghost use Rattle.blob_file_sessions.specs.PathTokens.{byte_token, is_plain, path_token};

use blob_file_sessions::path_text::is_plain;
use blob_tokens::RefusedLine;
use std::alloc::{AllocError, Global};

/// The token of an empty path.
const EMPTY: &str = "\"\"";

/// Returns the value of a hex digit.
fn digit(byte: u8) -> Option<u8>
    ensures value { result ≡ hex_digit_value byte }
    ensures small { IfSome result (λ value. value < 16) }
{
    match byte {
        b'0'..=b'9' => Some(byte - b'0'),
        b'a'..=b'f' => Some(byte - b'a' + 10),
        b'A'..=b'F' => Some(byte - b'A' + 10),
        _ => None,
    }
}

/// Returns the hex digit of a value below 16.
fn digit_of(value: u8) -> char
    ensures { value < 16 → result ≡ digit_char value }
{
    match value {
        0..10 => (b'0' + value) as char,
        10..16 => (b'a' + (value - 10)) as char,
        _ => '?',
    }
}

/// Returns the byte of `\xNN` at the start of `text`, and what follows.
fn escaped(text: &[u8]) -> Option<(u8, &[u8])>
    ensures some { IfSome result (λ read. StartsEscaped text.now read.0 read.1.now) }
    ensures none { IfNone result (HasNoEscape text.now) }
{
    match text {
        [slash, x, high, low, rest @ ..] if *slash == b'\\' && *x == b'x' => {
            let high = digit(*high)?;
            let low = digit(*low)?;
            Some((high * 16 + low, rest))
        }
        _ => None,
    }
}

/// Parses a path that isn't empty.
fn unescape(alloc: Global, text: &[u8]) -> Result<Vec<u8>, RefusedLine>
    ensures ok { IfOk result (λ read. unescaped text.now ≡ Some read.items) }
    ensures bad { result ≡ Err RefusedLine.BadCall → unescaped text.now ≡ None }
{
    let mut path = Vec::new(alloc);
    let mut left = text;
    while let Some((first, rest)) = left.split_first() {
        if is_plain(*first) {
            path.push(*first)?;
            left = rest;
        } else {
            let (byte, rest) = escaped(left).ok_or(RefusedLine::BadCall)?;
            path.push(byte)?;
            left = rest;
        }
    }
    Ok(path)
}

/// Parses a path or a name: each byte stands for itself, `\xNN` for the byte with this number in hex, `""` for no bytes.
///
/// # Errors
///
/// `BadCall` if a byte has to be written as `\xNN` and isn't, `NoMemory`.
pub fn read_path(alloc: Global, token: &str) -> Result<Vec<u8>, RefusedLine>
    ensures ok { IfOk result (λ read. path_of token.now ≡ Some read.items) }
    ensures bad { result ≡ Err RefusedLine.BadCall → path_of token.now ≡ None }
{
    if token == EMPTY {
        return Ok(Vec::new(alloc));
    }
    unescape(alloc, token.as_bytes())
}

/// Appends a byte of a path: itself, or `\xNN`.
fn print_byte(byte: u8, line: &mut String) -> Result<(), AllocError>
    ensures { OnOk result (string_bytes line.new ≡ string_bytes line.old ++ byte_token byte) }
{
    if is_plain(byte) {
        return line.push(byte as char);
    }
    line.push_str("\\x")?;
    line.push(digit_of(byte / 16))?;
    line.push(digit_of(byte % 16))
}

/// Appends a path or a name as a token.
pub fn print_path(path: &[u8], line: &mut String) -> Result<(), AllocError>
    ensures { OnOk result (string_bytes line.new ≡ string_bytes line.old ++ path_token path.now) }
{
    if path.is_empty() {
        return line.push_str(EMPTY);
    }
    for byte in path {
        print_byte(*byte, line)?;
    }
    Ok(())
}
