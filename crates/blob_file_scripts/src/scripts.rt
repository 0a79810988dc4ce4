//! A script of files over a reader and a writer.
use crate::answers::answer;
use crate::call::Line;
use crate::line::{read_line, without_comment};
use crate::remarks::push_remarks;
use crate::watch::Watch;
use blob_file_sessions::{FileReader, KeptFiles};
use blob_json::Object;
use blob_lab::script::RefusedLine;
use blob_lab::scripts::Ahead;
use blob_lab::{Ending, Output};
use blob_script::script::read_through;
use memchr::memchr;
use std::alloc::{AllocError, AllocFailed, Global};
use std::io::{ErrorKind, Write};

/// A run of a script: the reader of the lines before its files, and its files once a call or a setting has come.
struct Run {
    alloc: Global,
    reader: FileReader,
    files: Option<KeptFiles>,
    /// How many lines were taken.
    lines: u64,
    /// The line of the last reply.
    reply: String,
    /// What the remarks need, if the run is explained.
    watch: Option<Watch>,
    /// Whether the run is explained as objects.
    is_json: bool,
    /// The remarks after the last reply.
    remarks: Vec<u8>,
    /// What was told of the last call, as objects.
    objects: Vec<u8>,
}

/// Ends what it holds.
impl Drop for Run {
    fn drop(self) {
        let Run {
            alloc: _,
            reader: _,
            files: _,
            lines: _,
            reply: _,
            watch: _,
            is_json: _,
            remarks: _,
            objects: _,
        } = self;
    }
}

impl From<AllocError> for Stop {
    fn from(_error: AllocError) -> Stop {
        Stop::NoMemory
    }
}

impl<T: Drop> From<AllocFailed<T>> for Stop {
    fn from(_error: AllocFailed<T>) -> Stop {
        Stop::NoMemory
    }
}

impl From<RefusedLine> for Stop {
    fn from(refused: RefusedLine) -> Stop {
        match refused {
            RefusedLine::BadCall => Stop::BadCall,
            RefusedLine::NoMemory => Stop::NoMemory,
        }
    }
}

/// Why a run can't go on.
#[derive(Clone, Copy, Debug, PartialEq, Eq)]
pub(crate) enum Stop {
    /// The line isn't allowed there.
    BadCall,
    NoMemory,
}

impl Run {
    fn new(alloc: Global) -> Run {
        Run {
            alloc,
            reader: FileReader::new(alloc),
            files: None,
            lines: 0,
            reply: String::new(alloc),
            watch: None,
            is_json: false,
            remarks: Vec::new(alloc),
            objects: Vec::new(alloc),
        }
    }

    /// Begins a run that is explained.
    fn explained(alloc: Global, is_json: bool) -> Run {
        let mut run = Run::new(alloc);
        run.watch = Some(Watch::new(alloc));
        run.is_json = is_json;
        run
    }

    /// Begins the files with what was read, unless that is done.
    fn begin(&mut self) -> Result<(), Stop> {
        if self.files.is_none() {
            self.files = Some(self.reader.begin(self.alloc)?);
        }
        Ok(())
    }

    /// Reads a line that is no call. Returns whether it is a setting, which begins the files.
    fn read(&mut self, line: &str) -> Result<bool, Stop> {
        if let Some(files) = &mut self.files {
            return Ok(files.read_setting(line.as_bytes())?);
        }
        let is_setting = self.reader.read(self.alloc, line.as_bytes())?;
        if is_setting {
            self.begin()?;
        }
        Ok(is_setting)
    }

    /// Makes a call. Its reply is in `reply`, without a line feed.
    fn make(&mut self, call: &Line<'_>) -> Result<(), Stop> {
        self.begin()?;
        let Some(files) = &mut self.files else {
            return Err(Stop::NoMemory);
        };
        if let Some(watch) = &mut self.watch {
            watch.before(files, call)?;
        }
        answer(self.alloc, files, call, &mut self.reply)?;
        if let Some(watch) = &mut self.watch {
            let told = watch.after(self.lines, files, call, &self.reply, self.is_json)?;
            push_remarks(&told.text, &mut self.remarks)?;
            self.objects.extend_from_slice(&told.objects)?;
        }
        Ok(())
    }

    /// Does what a line says. Returns whether there is a reply, in `reply`, with its line feed.
    fn take(&mut self, line: &[u8]) -> Result<bool, Stop> {
        self.lines = self.lines.saturating_add(1);
        let Ok(text) = std::str::from_utf8(line) else {
            return Err(Stop::BadCall);
        };
        let line = without_comment(text);
        self.reply.clear();
        self.remarks.clear();
        self.objects.clear();
        let mut first = Vec::new(self.alloc);
        let mut second = Vec::new(self.alloc);
        match &read_line(self.alloc, line, (&mut first, &mut second))? {
            Some(call) => self.make(call)?,
            None => {
                if !self.read(line)? {
                    return Ok(false);
                }
                self.reply.push_str("ok")?;
            }
        }
        if self.is_json {
            self.add_call(line)?;
        }
        self.reply.push('\n')?;
        Ok(true)
    }

    /// Puts the object of the call before those that tell of it.
    fn add_call(&mut self, line: &str) -> Result<(), Stop> {
        let mut object = Object::new(self.alloc)?;
        object.number("line", self.lines)?;
        object.text("call", line.trim_matches(' '))?;
        object.text("reply", &self.reply)?;
        object.remarks("remarks", &self.remarks)?;
        let mut objects = Vec::new(self.alloc);
        object.end(&mut objects)?;
        objects.extend_from_slice(&self.objects)?;
        self.objects = objects;
        Ok(())
    }

    /// Writes the last reply with its remarks, or the objects of the last call.
    fn write<W: Write>(&self, output: &mut Output<W>) -> Result<(), Ending> {
        if self.is_json {
            return output.write_all(&self.objects);
        }
        output.write_all(self.reply.as_bytes())?;
        output.write_all(&self.remarks)
    }
}

/// Reads one line into `line`, without its line feed. Returns false at the end of the input.
fn next_line<R: Ahead>(reader: &mut R, line: &mut Vec<u8>) -> Result<bool, Ending> {
    line.clear();
    match read_through(reader, b'\n', line) {
        Ok(0) => Ok(false),
        Ok(_) => {
            if line.last() == Some(&b'\n') {
                let _ = line.pop();
            }
            Ok(true)
        }
        Err(e) if e.kind() == ErrorKind::OutOfMemory => Err(Ending::NoMemory),
        Err(_) => Err(Ending::InputFailed),
    }
}

fn run_lines<R: Ahead, W: Write>(
    alloc: Global,
    mut run: Run,
    reader: &mut R,
    output: &mut Output<W>,
) -> Result<(), Ending> {
    let mut line = Vec::new(alloc);
    for number in 1..u64::MAX {
        if !output.is_flushed() && memchr(b'\n', reader.ready()).is_none() {
            output.flush()?;
        }
        if !next_line(reader, &mut line)? {
            return Ok(());
        }
        match run.take(&line) {
            Ok(true) => run.write(output)?,
            Ok(false) => {}
            Err(Stop::BadCall) => return Err(Ending::BadCall(number)),
            Err(Stop::NoMemory) => return Err(Ending::NoMemory),
        }
    }
    Err(Ending::InputFailed)
}

fn serve<R: Ahead, W: Write>(
    alloc: Global,
    run: Run,
    reader: &mut R,
    output: &mut Output<W>,
) -> Ending {
    let ran = run_lines(alloc, run, reader, output);
    match (output.flush(), ran) {
        (Err(failed), _) => failed,
        (Ok(()), Ok(())) => Ending::Done,
        (Ok(()), Err(ending)) => ending,
    }
}

/// Runs a script of files: writes the reply to each call and setting as a line. Flushes the replies before a read that may wait
/// because no whole line is buffered, and at the end.
pub fn serve_files<R: Ahead, W: Write>(
    alloc: Global,
    reader: &mut R,
    output: &mut Output<W>,
) -> Ending {
    serve(alloc, Run::new(alloc), reader, output)
}

/// Runs a script of files as `serve_files`, and writes remarks after a reply: lines that begin with `# `. After a crash they list
/// the edits that nothing had settled and the unsynced writes of files, each with what the crash did with it. After a sync they list
/// the edits that it settled.
pub fn explain_files<R: Ahead, W: Write>(
    alloc: Global,
    reader: &mut R,
    output: &mut Output<W>,
) -> Ending {
    serve(alloc, Run::explained(alloc, false), reader, output)
}

/// Runs a script of files as `serve_files`, and writes for each reply the object of its call, and after it those of its draws and of
/// what it settled, kept and lost: each on a line of its own.
pub fn explain_files_as_json<R: Ahead, W: Write>(
    alloc: Global,
    reader: &mut R,
    output: &mut Output<W>,
) -> Ending {
    serve(alloc, Run::explained(alloc, true), reader, output)
}
