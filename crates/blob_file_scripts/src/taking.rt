// Taking the lines of a script by files that have begun.
ghost use Rattle.std.specs.Prelude.{◌≡◌, IfOk, OnOk, Some, option_map, string_bytes};
ghost use Rattle.blob_tokens.specs.Tokens.{tokens};
ghost use Rattle.blob_file_scripts.specs.Takes.{DoesLine, TakesFirst, TakesLine, with_reply};

use crate::answers::answer;
use crate::explored::RefusedFiles;
use crate::line::{is_blank, read_line, without_comment};
use crate::scripts::Stop;
use blob_file_sessions::KeptFiles;
use blob_lab::first_line;
use std::alloc::{AllocError, Global};

/// Makes the call or the setting of a line without a comment at its end. Returns the reply to it; a blank line has none.
fn reply_to(alloc: Global, files: &mut KeptFiles, line: &str) -> Result<Option<String>, Stop>
    ensures { IfOk result (λ reply.
        DoesLine (tokens line.now) files.old files.new (option_map string_bytes reply)) }
{
    let mut reply = String::new(alloc);
    let mut first = Vec::new(alloc);
    let mut second = Vec::new(alloc);
    match &read_line(alloc, line, (&mut first, &mut second))? {
        Some(call) => {
            answer(alloc, files, call, &mut reply)?;
            Ok(Some(reply))
        }
        None => {
            if is_blank(line) {
                return Ok(None);
            }
            if !files.read_setting(line.as_bytes())? {
                return Err(Stop::BadCall);
            }
            reply.push_str("ok")?;
            Ok(Some(reply))
        }
    }
}

/// Appends a reply with a line feed; with `last` it replaces the text.
fn add_reply(reply: &str, last: bool, text: &mut String) -> Result<(), AllocError>
    ensures { OnOk result (
        string_bytes text.new ≡ with_reply last (string_bytes text.old) (Some reply.now)) }
{
    if last {
        text.clear();
    }
    text.push_str(reply)?;
    text.push('\n')
}

/// Makes the call or the setting of a line, and adds its reply to the text.
fn take_line(
    alloc: Global,
    files: &mut KeptFiles,
    line: &[u8],
    last: bool,
    text: &mut String,
) -> Result<(), Stop>
    ensures { OnOk result (TakesLine last line.now
        files.old files.new (string_bytes text.old) (string_bytes text.new)) }
{
    let Ok(line) = std::str::from_utf8(line) else {
        return Err(Stop::BadCall);
    };
    let code = without_comment(line);
    match reply_to(alloc, files, code)? {
        Some(reply) => Ok(add_reply(reply.as_str(), last, text)?),
        None => Ok(()),
    }
}

/// Whether a line is one of words or of a seed.
fn is_generator(line: &[u8]) -> bool {
    let start = line
        .iter()
        .position(|byte| *byte != b' ')
        .unwrap_or(line.len());
    let text = &line[start.min(line.len())..];
    text.starts_with(b"words ") || text.starts_with(b"seed ")
}

/// Takes a line with this number. A line of words or of a seed is bad.
fn take_numbered(
    alloc: Global,
    files: &mut KeptFiles,
    line: &[u8],
    number: u64,
    last: bool,
    text: &mut String,
) -> Result<(), RefusedFiles>
    ensures { OnOk result (TakesLine last line.now
        files.old files.new (string_bytes text.old) (string_bytes text.new)) }
{
    if is_generator(line) {
        return Err(RefusedFiles::BadLine(number));
    }
    match take_line(alloc, files, line, last, text) {
        Ok(()) => Ok(()),
        Err(Stop::BadCall) => Err(RefusedFiles::BadLine(number)),
        Err(Stop::NoMemory) => Err(RefusedFiles::NoMemory),
    }
}

/// Takes the first lines of a script, at most `count`, before which there are `before` others. Returns the lines after them.
///
/// # Errors
///
/// `BadLine` of a line that isn't allowed, `NoMemory`.
pub(crate) fn take_first<'a>(
    alloc: Global,
    files: &mut KeptFiles,
    script: &'a [u8],
    before: u64,
    count: u64,
    last: bool,
    text: &mut String,
) -> Result<&'a [u8], RefusedFiles>
    ensures { IfOk result (λ rest. TakesFirst last script.now rest.now
        files.old files.new (string_bytes text.old) (string_bytes text.new)) }
{
    let mut rest = script;
    for taken in 0..count {
        let Some((line, others)) = first_line(rest) else {
            return Ok(rest);
        };
        let number = before.saturating_add(taken).saturating_add(1);
        take_numbered(alloc, files, line, number, last, text)?;
        rest = others;
    }
    Ok(rest)
}
