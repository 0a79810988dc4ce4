ghost use Rattle.std.specs.Prelude.{◌≡◌, ◌≢◌, true};
ghost use Rattle.blob_lab.specs.Endings.{IfWriteFailed, IfWritten};
ghost use Rattle.blob_lab.specs.Reading.{IsReadOut};
ghost use Rattle.blob_lab.specs.Scripts.{KnownRun, PartReplies, PrintsAll, PrintsBeforeLine, Replies, Run};
ghost use Rattle.blob_lab.specs.Streams.{IsReadToEnd, OfBytes, OfKnown, OnBadCall, OnKnownBadCall, read_failed, write_failed, is_flushed};

mod ahead;
mod answering;
mod lines;
pub mod listener;
mod unknown;

use crate::{Ending, Input, Output};
pub use ahead::Ahead;
use answering::run_lines;
pub use listener::{Listener, Silent};
use std::alloc::Global;
use std::io::{BufRead, Write};
use unknown::Unknown;

/// Runs a script: reads its lines, and writes the reply to each call as a line. Returns how the run ended (the exit
/// status and the line for standard error), the reader and the writer.
///
/// Flushes each reply before it reads the next line, and once more at the end. `serve_script` flushes less often.
pub fn run_script<R: BufRead, W: Write>(alloc: Global, reader: R, writer: W) -> (Ending, R, W)
    ensures ending { (result.0 ≢ Ending.BadImage) × (result.0 ≢ Ending.Usage) }
    ensures read { result.0 ≡ Ending.Done → IsReadOut (R.remaining reader) (R.remaining result.1) }
    ensures done { result.0 ≡ Ending.Done
        → OfKnown R.remaining W.contents reader writer result.2 PrintsAll }
    ensures bad_call { OnKnownBadCall R.remaining W.contents result.0 reader writer result.2 PrintsBeforeLine }
    ensures taken { IfWritten result.0 (KnownRun R.remaining W.contents reader result.1 writer result.2 Replies) }
    ensures part { IfWriteFailed result.0 (KnownRun R.remaining W.contents reader result.1 writer result.2 PartReplies) }
{
    let mut input = Input::new(Unknown::new(reader));
    let mut output = Output::new(writer);
    let ending = serve_script(alloc, &mut input, &mut output);
    let reader = input.into_reader();
    (ending, reader.into_inner(), output.into_writer())
}

/// Runs a script like `run_script`, over streams that record whether they failed. Flushes the replies only before a
/// read that may wait because no whole line is buffered. So a client that sends one line at a time gets each reply
/// before it sends the next.
///
/// Flushes at the end too: after `Done`, every reply was flushed, and after an error, the replies come before the
/// message about it. If that flush fails, the run ends with `OutputFailed`.
pub fn serve_script<R: Ahead, W: Write>(
    alloc: Global,
    input: &mut Input<R>,
    output: &mut Output<W>,
) -> Ending
    ensures ending { (result ≢ Ending.BadImage) × (result ≢ Ending.Usage) }
    ensures read { result ≡ Ending.Done → IsReadToEnd R.remaining input.old input.new }
    ensures done { result ≡ Ending.Done
        → OfBytes R.remaining W.contents input.old output.old output.new PrintsAll }
    ensures bad_call { OnBadCall R.remaining W.contents result input.old output.old output.new PrintsBeforeLine }
    ensures taken { IfWritten result (Run R.remaining W.contents input.old input.new output.old output.new Replies) }
    ensures part { IfWriteFailed result (Run R.remaining W.contents input.old input.new output.old output.new PartReplies) }
    ensures handed_on { result ≢ Ending.OutputFailed → is_flushed output.new ≡ true }
    ensures input_failed { result ≡ Ending.InputFailed → read_failed input.new ≡ true }
    ensures output_failed { result ≡ Ending.OutputFailed → write_failed output.new ≡ true }
    ensures input_sound { result ≢ Ending.InputFailed → IfWritten result (read_failed input.new ≡ read_failed input.old) }
    ensures output_sound { result ≢ Ending.OutputFailed → write_failed output.new ≡ write_failed output.old }
{
    serve_script_to(alloc, input, output, &mut Silent)
}

/// Runs a script like `serve_script`, and tells `listener` of each call.
pub fn serve_script_to<R: Ahead, W: Write, L: Listener>(
    alloc: Global,
    input: &mut Input<R>,
    output: &mut Output<W>,
    listener: &mut L,
) -> Ending
    ensures ending { (result ≢ Ending.BadImage) × (result ≢ Ending.Usage) }
    ensures read { result ≡ Ending.Done → IsReadToEnd R.remaining input.old input.new }
    ensures done { result ≡ Ending.Done
        → OfBytes R.remaining W.contents input.old output.old output.new PrintsAll }
    ensures bad_call { OnBadCall R.remaining W.contents result input.old output.old output.new PrintsBeforeLine }
    ensures taken { IfWritten result (Run R.remaining W.contents input.old input.new output.old output.new Replies) }
    ensures part { IfWriteFailed result (Run R.remaining W.contents input.old input.new output.old output.new PartReplies) }
    ensures handed_on { result ≢ Ending.OutputFailed → is_flushed output.new ≡ true }
    ensures input_failed { result ≡ Ending.InputFailed → read_failed input.new ≡ true }
    ensures output_failed { result ≡ Ending.OutputFailed → write_failed output.new ≡ true }
    ensures input_sound { result ≢ Ending.InputFailed → IfWritten result (read_failed input.new ≡ read_failed input.old) }
    ensures output_sound { result ≢ Ending.OutputFailed → write_failed output.new ≡ write_failed output.old }
{
    let ran = run_lines(alloc, input, output, listener);
    match (output.flush(), ran) {
        (Err(failed), _) => failed,
        (Ok(()), Ok(())) => Ending::Done,
        (Ok(()), Err(ending)) => ending,
    }
}
