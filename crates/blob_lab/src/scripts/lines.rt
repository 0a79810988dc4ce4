// Reading the lines of a script.
ghost use Rattle.std.specs.Prelude.{◌≡◌, ◌≢◌, ◌⊎◌, ◌<◌, [], true, false, IfErr, OnOk};
ghost use Rattle.blob_script.specs.Readers.{HasRead, config_of, has_begun, lines_read};
ghost use Rattle.blob_script.specs.Scripts.{no_script};
ghost use Rattle.blob_lab.specs.Endings.{IfBadLine, is_cut, is_of_stream};
ghost use Rattle.blob_lab.specs.Reading.{IfEnd, IfLine, IfNoLine, IfRead};
ghost use Rattle.blob_lab.specs.ScriptReading.{OfRead, TakesLine, TakesOne};
ghost use Rattle.blob_lab.specs.ScriptReading.{ReadsToCall, ReadsToEnd, ReadsBadCall, ReadsPart};
ghost use Rattle.blob_lab.specs.Streams.{IsReadToEnd, HasLineReady, KeepsKnown, KeepsOutput, is_flushed, lines_left, ToldEnding};

use super::Ahead;
use crate::{Ending, Input, Output};
use blob_script::Call;
use blob_script::script::{Reader, RefusedLine};
use memchr::memchr;
use std::alloc::Global;
use std::io::Write;

/// The last line, and what was read of the script.
#[derive(Drop)]
pub(crate) struct Lines {
    line: Vec<u8>,
    pub(crate) reader: Reader,
}

impl Lines {
    pub(crate) fn new(alloc: Global) -> Lines
        ensures script { HasRead result.reader no_script }
        ensures number { lines_read result.reader ≡ 0 }
        ensures begun { has_begun result.reader ≡ false }
    {
        Lines {
            line: Vec::new(alloc),
            reader: Reader::new(alloc),
        }
    }

    /// Reads up to the next call. Returns `None` at the end of the input.
    pub(crate) fn next_call<R: Ahead, W: Write>(
        &mut self,
        input: &mut Input<R>,
        output: &mut Output<W>,
    ) -> Result<Option<Call>, Ending>
        ensures cut { IfErr result (λ ending. is_cut ending ≡ true) }
        ensures told { ToldEnding result input.old input.new output.old output.new }
        ensures kept { KeepsOutput W.contents output.old output.new }
        ensures known { OnOk result (KeepsKnown R.remaining input.old input.new) }
        ensures end { IfEnd result (IsReadToEnd R.remaining input.old input.new) }
        ensures call { IfRead result (ReadsToCall R.remaining input.old input.new self.old.reader self.new.reader) }
        ensures over { IfEnd result (ReadsToEnd R.remaining input.old input.new self.old.reader self.new.reader) }
        ensures bad { IfBadLine result (ReadsBadCall R.remaining input.old input.new self.old.reader self.new.reader) }
        ensures part { IfErr result (λ _. ReadsPart R.remaining input.old input.new self.old.reader self.new.reader) }
        ensures begun { IfRead result (λ _. has_begun self.new.reader ≡ true) }
        ensures fewer { IfRead result (λ _. lines_left input.new < lines_left input.old) }
    {
        'lines: loop {
            if !self.next_line(input, output)? {
                return Ok(None);
            }
            match self.reader.read(self.line.as_slice()) {
                Ok(None) => {}
                Ok(Some(call)) => return Ok(Some(call)),
                Err(RefusedLine::BadCall) => return Err(Ending::BadCall(self.reader.number())),
                Err(RefusedLine::NoMemory) => return Err(Ending::NoMemory),
            }
        }
    }

    /// Reads one line. Returns false at the end of the input. Flushes the output first, unless a whole line is buffered:
    /// reading that doesn't wait.
    fn next_line<R: Ahead, W: Write>(
        &mut self,
        input: &mut Input<R>,
        output: &mut Output<W>,
    ) -> Result<bool, Ending>
        ensures handed_on { result ≢ Err Ending.OutputFailed → (is_flushed output.new ≡ true) ⊎ HasLineReady R.ready input.old }
        ensures cut { IfErr result (λ ending. is_of_stream ending ≡ true) }
        ensures told { ToldEnding result input.old input.new output.old output.new }
        ensures kept { KeepsOutput W.contents output.old output.new }
        ensures known { OnOk result (KeepsKnown R.remaining input.old input.new) }
        ensures end { IfNoLine result (IsReadToEnd R.remaining input.old input.new) }
        ensures line { IfLine result (OfRead R.remaining input.old input.new (TakesLine self.new.line.items)) }
        ensures over { IfNoLine result (OfRead R.remaining input.old input.new (λ lines _. lines ≡ [])) }
        ensures part { IfErr result (λ _. OfRead R.remaining input.old input.new TakesOne) }
        ensures fewer { IfLine result (lines_left input.new < lines_left input.old) }
        ensures same { self.new.reader ≡ self.old.reader }
    {
        if !output.flushed && memchr(b'\n', input.reader.ready()).is_none() {
            output.flush()?;
        }
        if !input.read_line(&mut self.line)? {
            return Ok(false);
        }
        Ok(true)
    }
}
