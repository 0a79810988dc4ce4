//! Texts as remarks.
ghost use Rattle.std.specs.Prelude.{◌≤◌, length};

use std::alloc::AllocError;

/// The most bytes of a line, after the sign that begins it.
const WIDTH: usize = 78;

/// Begins each line of a text but its first.
const INDENT: &[u8] = b"    ";

/// Returns how many bytes of a text go on a line of this width: all, those before the last space that fits and has a word before it,
/// or as many as fit if there is no such space.
fn fitting(text: &[u8], width: usize) -> usize
    ensures { result ≤ length text.now }
{
    if text.len() <= width {
        return text.len();
    }
    let mut has_word = false;
    let mut end = 0;
    for i in 0..=width {
        let is_space = text.get(i) == Some(&b' ');
        if is_space && has_word {
            end = i;
        }
        has_word = has_word || !is_space;
    }
    if end == 0 { width } else { end.min(width) }
}

/// Appends a line of ASCII as a remark. One that is too wide goes on in further remarks.
fn push_line(line: &[u8], to: &mut Vec<u8>) -> Result<(), AllocError> {
    let mut left = line;
    let mut indent: &[u8] = b"";
    for _ in 0..line.len() {
        if left.is_empty() {
            break;
        }
        let (part, rest) = left.split_at(fitting(left, WIDTH.saturating_sub(indent.len())));
        to.extend_from_slice(b"# ")?;
        to.extend_from_slice(indent)?;
        to.extend_from_slice(part)?;
        to.push(b'\n')?;
        left = rest.strip_prefix(b" ").unwrap_or(rest);
        indent = INDENT;
    }
    Ok(())
}

/// Appends the lines of an ASCII text as remarks, except empty ones.
pub(crate) fn push_remarks(text: &str, to: &mut Vec<u8>) -> Result<(), AllocError> {
    for line in text.as_bytes().split(|byte| *byte == b'\n') {
        push_line(line, to)?;
    }
    Ok(())
}
