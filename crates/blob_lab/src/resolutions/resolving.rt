// Resolving one line of hex.
ghost use Rattle.std.specs.Prelude.{true, ◌≡◌, ◌≢◌, OnOk, ◌⊎◌, IfSome, IfOk, IfErr, IsErr};
ghost use Rattle.std.specs.Io.KnownBytes.{Keeps};
ghost use Rattle.std.specs.Io.BufRead.{DropsThrough};
ghost use Rattle.hex.specs.Hex.{decode_of};
ghost use Rattle.blob_header.specs.Resolve.{AnswersAs};
ghost use Rattle.blob_lab.specs.Endings.{IfWritten, is_cut_of_resolve, is_of_stream};
ghost use Rattle.blob_lab.specs.ResolveReplies.{HasBadHex, IsFirstLine, ResolvesLine, resolved_image};
ghost use Rattle.blob_lab.specs.Streams.{KeepsOutput, OfBytes, reader_of, writer_of, is_flushed, ToldEnding};

use crate::resolution_line::ResolutionLine;
use crate::{Ending, Input, Output};
use blob_base::{BlobVersion, Error, Layout, resolve};
use blob_script::script::{RefusedLine, decode_hex};
use std::alloc::Global;
use std::io::{BufRead, Write};

/// Resolves one line, and writes and flushes the result.
pub(super) fn resolve_line<R: BufRead, W: Write>(
    alloc: Global,
    input: &mut Input<R>,
    output: &mut Output<W>,
) -> Result<(), Ending>
    ensures replied { OnOk result (OfBytes R.remaining W.contents input.old output.old output.new ResolvesLine) }
    ensures rest { OnOk result (DropsThrough (R.remaining (reader_of input.old)) (R.remaining (reader_of input.new)) 10) }
    ensures bad_image { result ≡ Err Ending.BadImage → IfSome (R.remaining (reader_of input.old)) HasBadHex }
    ensures nothing_written { IfErr result (λ ending. IfWritten ending (KeepsOutput W.contents output.old output.new)) }
    ensures cut { IfErr result (λ ending. is_cut_of_resolve ending ≡ true) }
    ensures handed_on { OnOk result (is_flushed output.new ≡ true) }
    ensures told { ToldEnding result input.old input.new output.old output.new }
{
    let line = read_line(alloc, input, output)?;
    let image = image_of(alloc, line.as_slice())?;
    let answer = resolved(alloc, image.as_slice());
    output.write_line(ResolutionLine(&answer))?;
    output.flush()
}

// Resolves the bytes as a whole blob, with the program's fixed partition and name.
fn resolved(alloc: Global, image: &[u8]) -> Result<Option<(u64, BlobVersion, u64)>, Error>
    ensures { AnswersAs result (resolved_image image.now) }
{
    let versions = BlobVersion::new(0)..=BlobVersion::new(u16::MAX);
    let len = image.len() as u64;
    resolve(
        alloc,
        image,
        len,
        &Layout::all(),
        &versions,
        "image",
        b"blob",
    )
}

// Reads one line without its line feed. Flushes the output first, since the read may wait.
fn read_line<R: BufRead, W: Write>(
    alloc: Global,
    input: &mut Input<R>,
    output: &mut Output<W>,
) -> Result<Vec<u8>, Ending>
    ensures handed_on { result ≢ Err Ending.OutputFailed → is_flushed output.new ≡ true }
    ensures line { IfOk result (λ line. IfSome (R.remaining (reader_of input.old)) (IsFirstLine line.items)) }
    ensures rest { OnOk result (DropsThrough (R.remaining (reader_of input.old)) (R.remaining (reader_of input.new)) 10) }
    ensures ending { IfErr result (λ ending. is_of_stream ending ≡ true) }
    ensures kept { Keeps (W.contents (writer_of output.old)) (W.contents (writer_of output.new)) }
    ensures told { ToldEnding result input.old input.new output.old output.new }
{
    let mut line = Vec::new(alloc);
    if !output.flushed {
        output.flush()?;
    }
    input.read_line(&mut line)?;
    Ok(line)
}

// Decodes a line of hex digits.
fn image_of(alloc: Global, line: &[u8]) -> Result<Vec<u8>, Ending>
    ensures bytes { IfOk result (λ image. decode_of line.now ≡ Ok image.items) }
    ensures refused { IfErr result (λ ending. (ending ≡ Ending.NoMemory) ⊎ (ending ≡ Ending.BadImage)) }
    ensures bad_image { result ≡ Err Ending.BadImage → IsErr (decode_of line.now) }
{
    match decode_hex(alloc, line) {
        Ok(image) => Ok(image),
        Err(RefusedLine::NoMemory) => Err(Ending::NoMemory),
        Err(RefusedLine::BadCall) => Err(Ending::BadImage),
    }
}
