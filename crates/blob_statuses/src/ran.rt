// What an exported call returns. An enum can't be passed to C, so a status is a number with a name.
ghost use Rattle.std.specs.Prelude.{◌≡◌};

/// The call is done; the first `len` bytes of the caller's buffer are its reply.
pub const DONE: u32 = 0;
/// A script has more lines than can be counted, or a seed gives words without end.
pub const ENDLESS: u32 = 1;
/// A line isn't a call, or isn't allowed after those before it: no call was made.
pub const BAD_LINE: u32 = 2;
/// No memory could be had: no call was made.
pub const NO_MEMORY: u32 = 3;
/// The call was made, but its reply of `len` bytes doesn't fit. It is kept.
pub const NO_ROOM: u32 = 4;
/// The session isn't open.
pub const CLOSED: u32 = 5;
/// The call was made, and was given another reply than the one that it asks for. It is kept.
pub const OTHER_REPLY: u32 = 6;
/// The call was made, but the length of its reply's line does not fit in 64 bits. It is kept.
pub const UNPRINTED: u32 = 7;
/// A typed call has an unknown kind, a version that doesn't fit in 16 bits or a partition that isn't UTF-8. No call was made.
pub const BAD_CALL: u32 = 8;
/// The power is off. No call was made.
pub const POWER_LOSS: u32 = 9;

/// How a call ended, and how many bytes its reply has.
#[repr(C)]
#[derive(Clone, Copy)]
pub struct Ran {
    /// One of the statuses above.
    pub status: u32,
    /// In bytes; with `NO_ROOM` the capacity that is needed.
    pub len: usize,
}

/// How a script ended, how many bytes its replies have, and which line is bad, counted from 1.
#[repr(C)]
#[derive(Clone, Copy)]
pub struct ScriptRan {
    /// One of the statuses above.
    pub status: u32,
    /// In bytes; with `NO_ROOM` the capacity that is needed.
    pub len: usize,
    /// With `BAD_LINE` the line's number, and with `NO_ROOM` that of the bad line before which the run stops; else 0.
    pub line: u64,
}

impl Ran {
    /// Without a reply.
    pub fn stopped(status: u32) -> Ran
        ensures { result ≡ record { status = status; len = 0 } }
    {
        Ran { status, len: 0 }
    }
}

impl ScriptRan {
    pub fn stopped(status: u32) -> ScriptRan
        ensures { result ≡ record { status = status; len = 0; line = 0 } }
    {
        ScriptRan {
            status,
            len: 0,
            line: 0,
        }
    }
}
