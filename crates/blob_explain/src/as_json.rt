// A script's calls with their replies, and what was told of them, as objects of JSON.
ghost use Rattle.std.specs.Prelude.{◌≡◌, ◌≢◌, ◌⊎◌, true, IfOk, IfErr};
ghost use Rattle.blob_lab.specs.Endings.{IfWritten};
ghost use Rattle.blob_lab.specs.Streams.{KeepsOutput, read_failed, write_failed, is_flushed};
ghost use Rattle.blob_explain.specs.Explanations.{EndsSound, IsCutShort};

use crate::explain::first_line;
use crate::lines::{Line, call_lines};
use crate::remarks::push_remarks;
use crate::watch::Watch;
use blob_json::Object;
use blob_lab::{Ending, Input, Output, serve_script_to};
use std::alloc::{AllocError, Global};
use std::io::{BufRead, Write};

/// Runs a script to its end like `explain_script`, and writes an object for each call that was made, and after it those of its draws and
/// of what it kept and lost: each on a line of its own.
pub fn explain_script_as_json<R: BufRead, W: Write>(
    alloc: Global,
    input: &mut Input<R>,
    output: &mut Output<W>,
) -> Ending
    ensures ending { (result ≢ Ending.BadImage) × (result ≢ Ending.Usage) }
    ensures unwritten { result ≡ Ending.InputFailed → KeepsOutput W.contents output.old output.new }
    ensures handed_on { result ≢ Ending.OutputFailed → is_flushed output.new ≡ true }
    ensures input_failed { result ≡ Ending.InputFailed → read_failed input.new ≡ true }
    ensures output_failed { result ≡ Ending.OutputFailed → write_failed output.new ≡ true }
    ensures input_sound { result ≢ Ending.InputFailed → IfWritten result (read_failed input.new ≡ read_failed input.old) }
    ensures output_sound { result ≢ Ending.OutputFailed → write_failed output.new ≡ write_failed output.old }
{
    let ran = write_objects(alloc, input, output);
    match (output.flush(), ran) {
        (Err(failed), _) => failed,
        (Ok(()), Ok(ending)) => ending,
        (Ok(()), Err(ending)) => ending,
    }
}

/// Writes the objects, and returns how the script ended.
fn write_objects<R: BufRead, W: Write>(
    alloc: Global,
    input: &mut Input<R>,
    output: &mut Output<W>,
) -> Result<Ending, Ending>
    ensures ended { IfOk result EndsSound }
    ensures cut { IfErr result IsCutShort }
    ensures unwritten { result ≡ Err Ending.InputFailed → KeepsOutput W.contents output.old output.new }
    ensures input_failed { result ≡ Err Ending.InputFailed → read_failed input.new ≡ true }
    ensures input_sound { result ≢ Err Ending.InputFailed → read_failed input.new ≡ read_failed input.old }
    ensures output_failed { result ≡ Err Ending.OutputFailed → write_failed output.new ≡ true }
    ensures output_sound { result ≢ Err Ending.OutputFailed → write_failed output.new ≡ write_failed output.old }
{
    let (text, ending) = objects(alloc, input)?;
    output.write_all(&text)?;
    Ok(ending)
}

/// Returns the objects, and how the script ended.
fn objects<R: BufRead>(alloc: Global, input: &mut Input<R>) -> Result<(Vec<u8>, Ending), Ending>
    ensures ended { IfOk result (λ ran. EndsSound ran.1) }
    ensures cut { IfErr result (λ ending. (ending ≡ Ending.InputFailed) ⊎ (ending ≡ Ending.NoMemory)) }
    ensures failed { result ≡ Err Ending.InputFailed → read_failed input.new ≡ true }
    ensures sound { result ≢ Err Ending.InputFailed → read_failed input.new ≡ read_failed input.old }
{
    let mut script = Vec::new(alloc);
    input.read_all(&mut script)?;
    let Ok(calls) = call_lines(alloc, &script) else {
        return Err(Ending::NoMemory);
    };
    let Ok(mut watch) = Watch::with_objects(alloc, &calls) else {
        return Err(Ending::NoMemory);
    };
    let mut lines = Input::new(script.as_slice());
    let mut replies = Output::new(Vec::new(alloc));
    let ending = serve_script_to(alloc, &mut lines, &mut replies, &mut watch);
    // A list is a reader that doesn't fail, and a writer that fails only if memory runs out.
    if ending == Ending::InputFailed || ending == Ending::OutputFailed {
        return Err(Ending::NoMemory);
    }
    let printed = replies.into_writer();
    let Ok(text) = joined(alloc, &calls, &printed, &watch) else {
        return Err(Ending::NoMemory);
    };
    Ok((text, ending))
}

/// Returns the object of each call that has a reply, followed by what was told of it.
fn joined(
    alloc: Global,
    calls: &[Line<'_>],
    replies: &[u8],
    watch: &Watch,
) -> Result<Vec<u8>, AllocError> {
    let mut text = Vec::new(alloc);
    let mut rest = replies;
    for (i, call) in calls.iter().enumerate() {
        let Some((reply, others)) = first_line(rest) else {
            break;
        };
        rest = others;
        let remarks = match watch.texts.get(i) {
            None => "",
            Some(remarks) => remarks.as_str(),
        };
        push_call(alloc, *call, reply, remarks, &mut text)?;
        if let Some(objects) = watch.objects.get(i) {
            text.extend_from_slice(objects)?;
        }
    }
    Ok(text)
}

/// Adds a call with its reply, and the lines of its remarks.
fn push_call(
    alloc: Global,
    call: Line<'_>,
    reply: &[u8],
    remarks: &str,
    to: &mut Vec<u8>,
) -> Result<(), AllocError> {
    let mut lines = Vec::new(alloc);
    push_remarks(remarks, &mut lines)?;
    let mut object = Object::new(alloc)?;
    object.number("line", call.number)?;
    object.text("call", call.text)?;
    object.text("reply", std::str::from_utf8(reply).unwrap_or(""))?;
    object.remarks("remarks", &lines)?;
    object.end(to)
}
