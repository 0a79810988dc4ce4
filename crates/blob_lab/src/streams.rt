//! The streams of a run: a reader and a writer that record whether they failed.
ghost use Rattle.std.specs.Prelude.{◌≡◌, ◌≢◌, ◌⊎◌, ◌<◌, true, false, IfSome, IfErr, OnOk};
ghost use Rattle.std.specs.Fmt.{with_newline};
ghost use Rattle.blob_lab.specs.Endings.{is_of_stream};
ghost use Rattle.blob_lab.specs.Streams.{reader_of, lines_left, read_failed, writer_of, write_failed, is_flushed, ToldOutput};
ghost use Rattle.blob_lab.specs.Streams.{KeepsOutput, ReadsInputLine, ReadsRest, WritesAll, WritesPrefix};

use crate::Ending;
use blob_script::script::read_through;
use std::fmt::Display;
use std::io::{BufRead, ErrorKind, Write};

/// A reader of at most 2^64 - 1 lines, and whether it failed.
#[derive(Drop)]
pub struct Input<R> {
    pub(crate) reader: R,
    left: u64,
    failed: bool,
}

impl<R> Input<R> {
    /// Returns a new input. Nothing was read yet.
    pub fn new(reader: R) -> Input<R>
        ensures reader { reader_of result ≡ reader }
        ensures sound { read_failed result ≡ false }
    {
        Input {
            reader,
            left: u64::MAX,
            failed: false,
        }
    }

    /// Returns whether a read failed (out of memory doesn't count) or the input had more than 2^64 - 1 lines.
    pub fn has_failed(&self) -> bool
        ensures { result ≡ read_failed self.now }
    {
        self.failed
    }

    /// Returns the reader, after what was read.
    pub fn into_reader(self) -> R
        ensures { result ≡ reader_of self }
    {
        self.reader
    }
}

impl<R: BufRead> Input<R> {
    /// Appends the rest of the input to `bytes`.
    ///
    /// # Errors
    ///
    /// `InputFailed` if a read failed; `NoMemory`. `bytes` may have a part then.
    pub fn read_all(&mut self, bytes: &mut Vec<u8>) -> Result<(), Ending>
        ensures failed { result ≡ Err Ending.InputFailed → read_failed self.new ≡ true }
        ensures sound { result ≢ Err Ending.InputFailed → read_failed self.new ≡ read_failed self.old }
        ensures ending { IfErr result (λ ending. (ending ≡ Ending.InputFailed) ⊎ (ending ≡ Ending.NoMemory)) }
        ensures read { OnOk result (ReadsRest R.remaining self.old bytes.old.items bytes.new.items) }
        ensures left { lines_left self.new ≡ lines_left self.old }
    {
        match self.reader.read_to_end(bytes) {
            Ok(_) => Ok(()),
            Err(e) if e.kind() == ErrorKind::OutOfMemory => Err(Ending::NoMemory),
            Err(_) => {
                self.failed = true;
                Err(Ending::InputFailed)
            }
        }
    }

    /// Reads one line into `line`, without its line feed. Returns false at the end of the input. The read may wait.
    pub(crate) fn read_line(&mut self, line: &mut Vec<u8>) -> Result<bool, Ending>
        ensures failed { result ≡ Err Ending.InputFailed → read_failed self.new ≡ true }
        ensures sound { result ≢ Err Ending.InputFailed → read_failed self.new ≡ read_failed self.old }
        ensures ending { IfErr result (λ ending. (ending ≡ Ending.InputFailed) ⊎ (ending ≡ Ending.NoMemory)) }
        ensures read { ReadsInputLine R.remaining result self.old self.new line.new.items }
        ensures fewer { OnOk result (lines_left self.new < lines_left self.old) }
    {
        if self.left == 0 {
            self.failed = true;
            return Err(Ending::InputFailed);
        }
        self.left -= 1;
        line.clear();
        match read_through(&mut self.reader, b'\n', line) {
            Ok(0) => Ok(false),
            Ok(_) => {
                if line.last() == Some(&b'\n') {
                    let _ = line.pop();
                }
                Ok(true)
            }
            Err(e) if e.kind() == ErrorKind::OutOfMemory => Err(Ending::NoMemory),
            Err(_) => {
                self.failed = true;
                Err(Ending::InputFailed)
            }
        }
    }
}

/// A writer, and whether it failed and was flushed after the last write.
#[derive(Drop)]
pub struct Output<W> {
    writer: W,
    failed: bool,
    pub(crate) flushed: bool,
}

impl<W> Output<W> {
    /// Returns a new output. Nothing was written yet.
    pub fn new(writer: W) -> Output<W>
        ensures writer { writer_of result ≡ writer }
        ensures sound { write_failed result ≡ false }
        ensures flushed { is_flushed result ≡ true }
    {
        Output {
            writer,
            failed: false,
            flushed: true,
        }
    }

    /// Returns whether a write or a flush failed.
    pub fn has_failed(&self) -> bool
        ensures { result ≡ write_failed self.now }
    {
        self.failed
    }

    /// Returns whether the writer was flushed after the last write.
    pub fn is_flushed(&self) -> bool
        ensures { result ≡ is_flushed self.now }
    {
        self.flushed
    }

    /// Returns the writer.
    pub fn into_writer(self) -> W
        ensures { result ≡ writer_of self }
    {
        self.writer
    }
}

impl<W: Write> Output<W> {
    /// Writes all bytes. They may stay in a buffer until a flush.
    ///
    /// # Errors
    ///
    /// `OutputFailed`. A prefix of the bytes may have been written.
    pub fn write_all(&mut self, bytes: &[u8]) -> Result<(), Ending>
        ensures written { OnOk result (WritesAll W.contents self.old self.new bytes.now) }
        ensures part { IfErr result (λ _. WritesPrefix W.contents self.old self.new bytes.now) }
        ensures ending { IfErr result (λ ending. ending ≡ Ending.OutputFailed) }
        ensures told { ToldOutput result self.old self.new }
        ensures held { is_flushed self.new ≡ false }
    {
        self.flushed = false;
        let mut rest = bytes;
        for _ in 0..u64::MAX {
            if rest.is_empty() {
                return Ok(());
            }
            match self.writer.write(rest) {
                Ok(0) => break,
                Ok(count) => rest = &rest[count..],
                Err(e) if e.kind() == ErrorKind::Interrupted => {}
                Err(_) => break,
            }
        }
        self.failed = true;
        Err(Ending::OutputFailed)
    }

    /// Writes a text as a line.
    pub(crate) fn write_line<D: Display + Drop>(&mut self, text: D) -> Result<(), Ending>
        ensures written { OnOk result (IfSome (with_newline (D.output text)) (WritesAll W.contents self.old self.new)) }
        ensures ending { IfErr result (λ ending. ending ≡ Ending.OutputFailed) }
        ensures told { ToldOutput result self.old self.new }
        ensures held { is_flushed self.new ≡ false }
    {
        self.flushed = false;
        match self.writer.writeln(text) {
            Ok(()) => Ok(()),
            Err(_) => {
                self.failed = true;
                Err(Ending::OutputFailed)
            }
        }
    }

    /// Flushes the writer. The only error is `OutputFailed`.
    pub fn flush(&mut self) -> Result<(), Ending>
        ensures flushed { OnOk result (is_flushed self.new ≡ true) }
        ensures kept { KeepsOutput W.contents self.old self.new }
        ensures ending { IfErr result (λ ending. ending ≡ Ending.OutputFailed) }
        ensures told { ToldOutput result self.old self.new }
    {
        match self.writer.flush() {
            Ok(()) => {
                self.flushed = true;
                Ok(())
            }
            Err(_) => {
                self.failed = true;
                Err(Ending::OutputFailed)
            }
        }
    }
}
