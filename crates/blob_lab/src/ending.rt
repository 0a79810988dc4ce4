ghost use Rattle.std.specs.Prelude.{◌≡◌, Some};
ghost use Rattle.blob_lab.specs.Endings.{ending_line, status_of};

use std::fmt;

/// How a run of the program ends. Displayed, it is the line for standard error, without its line feed; empty after
/// success.
#[derive(Clone, Copy, Debug, PartialEq, Eq)]
pub enum Ending {
    /// Every reply was written.
    Done,
    /// The input couldn't be read, or has more than 2^64 - 1 lines.
    InputFailed,
    /// The output couldn't be written. Part of a reply may have been.
    OutputFailed,
    /// This line of a script, counted from 1, isn't a call. The replies before it were written.
    BadCall(u64),
    /// The line for `resolve` isn't hex.
    BadImage,
    /// The arguments of the program are invalid.
    Usage,
    /// The program itself couldn't allocate. If a call can't, its reply says so.
    NoMemory,
}

impl Ending {
    /// Returns the exit status.
    pub fn status(self) -> u8
        ensures { result ≡ status_of self }
    {
        match self {
            Ending::Done => 0,
            Ending::InputFailed | Ending::OutputFailed => 1,
            Ending::BadCall(_) | Ending::BadImage | Ending::Usage => 2,
            Ending::NoMemory => 3,
        }
    }
}

impl fmt::Display for Ending {
    ghost output = { λ ending. Some (ending_line ending) };

    fn fmt<W: fmt::Write>(&self, f: &mut fmt::Formatter<W>) -> fmt::Result {
        match self {
            Ending::Done => f.write_str(""),
            Ending::InputFailed => f.write_str("input failed"),
            Ending::OutputFailed => f.write_str("output failed"),
            Ending::BadCall(line) => write!(f, "line {line}: bad call"),
            Ending::BadImage => f.write_str("bad image"),
            Ending::Usage => f.write_str("usage: blobcrash [resolve]"),
            Ending::NoMemory => f.write_str("no memory"),
        }
    }
}
