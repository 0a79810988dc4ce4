ghost use Rattle.std.specs.Prelude.{true, ◌≡◌, ◌≢◌, ℕ, IfSome};
ghost use Rattle.std.specs.Io.KnownBytes.{Keeps};
ghost use Rattle.std.specs.Io.BufRead.{DropsThrough};
ghost use Rattle.blob_lab.specs.Endings.{IfNoReply};
ghost use Rattle.blob_lab.specs.ResolveReplies.{HasBadHex, ResolvesLine};
ghost use Rattle.blob_lab.specs.Streams.{DropsLine, KeepsOutput, OfBytes, OfKnown, reader_of, read_failed, write_failed, is_flushed};

mod resolving;

use crate::{Ending, Input, Output};
use resolving::resolve_line;
use std::alloc::Global;
use std::io::{BufRead, Write};

/// Reads one line of hex digits, resolves its bytes as a whole blob, and writes and flushes the result as one line.
/// Returns how the run ended (the exit status and the line for standard error), the reader and the writer.
pub fn run_resolve<R: BufRead, W: Write>(alloc: Global, reader: R, writer: W) -> (Ending, R, W)
    ensures replied { result.0 ≡ Ending.Done
        → OfKnown R.remaining W.contents reader writer result.2 ResolvesLine }
    ensures rest { result.0 ≡ Ending.Done → DropsThrough (R.remaining reader) (R.remaining result.1) 10 }
    ensures bad_image { result.0 ≡ Ending.BadImage → IfSome (R.remaining reader) HasBadHex }
    ensures nothing_written { IfNoReply result.0 (Keeps (W.contents writer) (W.contents result.2)) }
    ensures ending { ((line : ℕ) → result.0 ≢ Ending.BadCall line) × (result.0 ≢ Ending.Usage) }
{
    let mut input = Input::new(reader);
    let mut output = Output::new(writer);
    let ending = serve_resolve(alloc, &mut input, &mut output);
    (ending, input.into_reader(), output.into_writer())
}

/// Runs `resolve` like `run_resolve`, over streams that record whether they failed.
pub fn serve_resolve<R: BufRead, W: Write>(
    alloc: Global,
    input: &mut Input<R>,
    output: &mut Output<W>,
) -> Ending
    ensures replied { result ≡ Ending.Done
        → OfBytes R.remaining W.contents input.old output.old output.new ResolvesLine }
    ensures rest { result ≡ Ending.Done → DropsLine R.remaining input.old input.new }
    ensures bad_image { result ≡ Ending.BadImage → IfSome (R.remaining (reader_of input.old)) HasBadHex }
    ensures nothing_written { IfNoReply result (KeepsOutput W.contents output.old output.new) }
    ensures ending { ((line : ℕ) → result ≢ Ending.BadCall line) × (result ≢ Ending.Usage) }
    ensures handed_on { result ≡ Ending.Done → is_flushed output.new ≡ true }
    ensures input_failed { result ≡ Ending.InputFailed → read_failed input.new ≡ true }
    ensures output_failed { result ≡ Ending.OutputFailed → write_failed output.new ≡ true }
    ensures input_sound { result ≢ Ending.InputFailed → read_failed input.new ≡ read_failed input.old }
    ensures output_sound { result ≢ Ending.OutputFailed → write_failed output.new ≡ write_failed output.old }
{
    match resolve_line(alloc, input, output) {
        Ok(()) => Ending::Done,
        Err(ending) => ending,
    }
}
