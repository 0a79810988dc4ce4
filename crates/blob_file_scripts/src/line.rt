//! The call of a line of a script of files.
ghost use Rattle.std.specs.Prelude.{◌≡◌, Err, IfOk, None, Some, option_map};
ghost use Rattle.blob_tokens.specs.Tokens.{tokens};
ghost use Rattle.blob_file_scripts.specs.CallLines.{said_by, said_of};
ghost use Rattle.blob_file_scripts.specs.Takes.{IsCodeOf, is_blank};

use crate::call::{Line, read_call};
use blob_tokens::RefusedLine;
use blob_tokens::token::Tokens;
use std::alloc::Global;

/// Returns the line without the comment at its end: a token that begins with a number sign, and what follows it.
pub fn without_comment(line: &str) -> &str
    ensures { IsCodeOf line.now result.now }
{
    match line.split_once(" #") {
        Some((before, _)) => before,
        None => line,
    }
}

/// Whether a line has no token, or is a comment: its first token begins with a number sign.
pub fn is_blank(line: &str) -> bool
    ensures { result ≡ is_blank (tokens line.now) }
{
    match Tokens::new(line).next() {
        None => true,
        Some(word) => word.starts_with('#'),
    }
}

/// Parses the call of a line, without its line feed and its comment. Returns `None` if its first word is none of a call. The call has
/// its paths and bytes in the buffers.
///
/// # Errors
///
/// `BadCall` if the tokens after the word aren't those of the call, `NoMemory`.
pub fn read_line<'a>(
    alloc: Global,
    line: &str,
    buffers: (&'a mut Vec<u8>, &'a mut Vec<u8>),
) -> Result<Option<Line<'a>>, RefusedLine>
    ensures ok { IfOk result (λ read. said_of (tokens line.now) ≡ Some (option_map said_by read)) }
    ensures bad { result ≡ Err RefusedLine.BadCall → said_of (tokens line.now) ≡ None }
{
    let mut tokens = Tokens::new(line);
    let Some(word) = tokens.next() else {
        return Ok(None);
    };
    let Some(call) = read_call(alloc, word, &mut tokens, buffers)? else {
        return Ok(None);
    };
    tokens.end()?;
    Ok(Some(call))
}
