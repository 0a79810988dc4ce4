// A script's replies with the pictures between them.
ghost use Rattle.std.specs.Prelude.{◌≡◌, ◌≢◌, ◌⊎◌, ◌<◌, ◌++◌, ◌∷◌, true, IfSome, IfOk, IfErr, OnOk, length};
ghost use Rattle.blob_lab.specs.Endings.{IfWritten};
ghost use Rattle.blob_lab.specs.Streams.{KeepsOutput, OfBytes, OnBadCall, read_failed, write_failed, is_flushed};
ghost use Rattle.blob_explain.specs.Explained.{IsExplained, Remarks};
ghost use Rattle.blob_explain.specs.Explanations.{EndsSound, ExplainsBefore, ExplainsInput, ExplainsScript, IsCutShort, IsInputExplained};

use crate::remarks::push_remarks;
use crate::watch::Watch;
use blob_lab::{Ending, Input, Output, serve_script_to};
use std::alloc::{AllocError, Global};
use std::io::{BufRead, Write};

/// Runs a script to its end and writes what `run_script` writes, with remarks between the replies: lines that begin with `# `.
/// After a crash they show each file that had something pending. After a write, a resize or a started sync they show its outcome,
/// if the reply doesn't report it.
///
/// All of it is written at the end. If it ends as `InputFailed`, nothing was written, and nothing may have been written if it ends
/// as `NoMemory`. The writer is flushed at the end in any case; if that fails, it ends as `OutputFailed`.
pub fn explain_script<R: BufRead, W: Write>(
    alloc: Global,
    input: &mut Input<R>,
    output: &mut Output<W>,
) -> Ending
    ensures ending { (result ≢ Ending.BadImage) × (result ≢ Ending.Usage) }
    ensures done { result ≡ Ending.Done
        → OfBytes R.remaining W.contents input.old output.old output.new ExplainsScript }
    ensures bad_call { OnBadCall R.remaining W.contents result input.old output.old output.new ExplainsBefore }
    ensures unwritten { result ≡ Ending.InputFailed → KeepsOutput W.contents output.old output.new }
    ensures handed_on { result ≢ Ending.OutputFailed → is_flushed output.new ≡ true }
    ensures input_failed { result ≡ Ending.InputFailed → read_failed input.new ≡ true }
    ensures output_failed { result ≡ Ending.OutputFailed → write_failed output.new ≡ true }
    ensures input_sound { result ≢ Ending.InputFailed → IfWritten result (read_failed input.new ≡ read_failed input.old) }
    ensures output_sound { result ≢ Ending.OutputFailed → write_failed output.new ≡ write_failed output.old }
{
    let ran = write_explanation(alloc, input, output);
    match (output.flush(), ran) {
        (Err(failed), _) => failed,
        (Ok(()), Ok(ending)) => ending,
        (Ok(()), Err(ending)) => ending,
    }
}

/// Writes the explanation, and returns how the script ended.
fn write_explanation<R: BufRead, W: Write>(
    alloc: Global,
    input: &mut Input<R>,
    output: &mut Output<W>,
) -> Result<Ending, Ending>
    ensures ended { IfOk result EndsSound }
    ensures cut { IfErr result IsCutShort }
    ensures text { IfOk result (ExplainsInput R.remaining W.contents input.old output.old output.new) }
    ensures unwritten { result ≡ Err Ending.InputFailed → KeepsOutput W.contents output.old output.new }
    ensures input_failed { result ≡ Err Ending.InputFailed → read_failed input.new ≡ true }
    ensures input_sound { result ≢ Err Ending.InputFailed → read_failed input.new ≡ read_failed input.old }
    ensures output_failed { result ≡ Err Ending.OutputFailed → write_failed output.new ≡ true }
    ensures output_sound { result ≢ Err Ending.OutputFailed → write_failed output.new ≡ write_failed output.old }
{
    let (text, ending) = explanation(alloc, input)?;
    output.write_all(&text)?;
    Ok(ending)
}

/// Returns the explanation, and how the script ended.
fn explanation<R: BufRead>(alloc: Global, input: &mut Input<R>) -> Result<(Vec<u8>, Ending), Ending>
    ensures ended { IfOk result (λ ran. EndsSound ran.1) }
    ensures cut { IfErr result (λ ending. (ending ≡ Ending.InputFailed) ⊎ (ending ≡ Ending.NoMemory)) }
    ensures text { IfOk result (λ ran. IsInputExplained R.remaining input.old ran.1 ran.0.items) }
    ensures failed { result ≡ Err Ending.InputFailed → read_failed input.new ≡ true }
    ensures sound { result ≢ Err Ending.InputFailed → read_failed input.new ≡ read_failed input.old }
{
    let mut script = Vec::new(alloc);
    input.read_all(&mut script)?;
    let mut lines = Input::new(script.as_slice());
    let mut replies = Output::new(Vec::new(alloc));
    let mut watch = Watch::new(alloc);
    let ending = serve_script_to(alloc, &mut lines, &mut replies, &mut watch);
    // A list is a reader that doesn't fail, and a writer that fails only if memory runs out.
    if ending == Ending::InputFailed || ending == Ending::OutputFailed {
        return Err(Ending::NoMemory);
    }
    let printed = replies.into_writer();
    let Ok(text) = explained(alloc, &printed, &watch.texts) else {
        return Err(Ending::NoMemory);
    };
    Ok((text, ending))
}

/// Returns the replies, each followed by its text.
#[tactic(auto, using(crate::proofs::Explaining::goes_on, crate::proofs::Explaining::explained))]
fn explained(alloc: Global, replies: &[u8], texts: &[String]) -> Result<Vec<u8>, AllocError>
    ensures { IfOk result (λ text. IsExplained replies.now text.items) }
{
    let mut text = Vec::new(alloc);
    let mut rest = replies;
    let mut shown = 0usize;
    'lines: while let Some((line, others)) = first_line(rest) {
        text.extend_from_slice(line)?;
        text.push(b'\n')?;
        push_remarks_after(texts, shown, &mut text)?;
        shown = shown.saturating_add(1);
        rest = others;
    }
    text.extend_from_slice(rest)?;
    Ok(text)
}

/// Adds what follows the reply of this number.
#[tactic(auto, using(crate::proofs::Explaining::none))]
fn push_remarks_after(texts: &[String], shown: usize, text: &mut Vec<u8>) -> Result<(), AllocError>
    ensures { OnOk result (Remarks text.old.items text.new.items) }
{
    match texts.get(shown) {
        None => Ok(()),
        Some(remarks) => push_remarks(remarks, text),
    }
}

/// Returns the text before the first line feed and the text after it. Returns `None` if there is no line feed.
pub(crate) fn first_line(text: &[u8]) -> Option<(&[u8], &[u8])>
    ensures parts { IfSome result (λ parts. text.now ≡ parts.0.now ++ 10 ∷ parts.1.now) }
    ensures shorter { IfSome result (λ parts. length parts.1.now < length text.now) }
{
    let at = text.iter().position(|byte| *byte == b'\n')?;
    let (line, end) = text.split_at(at);
    match end.split_first() {
        Some((b'\n', others)) => Some((line, others)),
        _ => None,
    }
}
