//! Scripts over failing streams. Scripts over other streams are tested by the data in tests/scripts.

use crate::failing::{Full, Halting};
use blob_lab::{Ending, Input, Output, serve_script};
use std::alloc::Global;
use std::io::{BufReader, ErrorKind};
use std::process::Abort;
use std::test::Fail;

/// Runs two lines of eight bytes each over a reader that fails. They take six reads, and the end of the input a
/// seventh.
fn halted(
    rt: &impl Abort,
    alloc: Global,
    (reads, kind): (u32, ErrorKind),
    ending: Ending,
    output: &[u8],
) -> Result<(), Fail> {
    let halting = Halting {
        bytes: b"close 0\nreopen \n",
        reads,
        kind,
    };
    let mut reader = Input::new(BufReader::new(alloc, halting)?);
    let mut writer = Output::new(Vec::new(alloc));
    let found = serve_script(alloc, &mut reader, &mut writer);
    let has_failed = ending == Ending::InputFailed;
    assert!(rt;
        found == ending && reader.has_failed() == has_failed,
        "after {reads} reads"
    );
    assert!(rt;
        writer.into_writer().as_slice() == output,
        "after {reads} reads"
    );
    Ok(())
}

#[test]
fn a_failing_read_is_told(rt: HostRuntime) -> Result<(), Fail> {
    let alloc = rt.alloc();
    let other = ErrorKind::Other;
    let first = b"error NoHandle\n".as_slice();
    let both = b"error NoHandle\nok\n".as_slice();
    for (reads, kind, ending, output) in [
        (0, other, Ending::InputFailed, b"".as_slice()),
        (2, other, Ending::InputFailed, b"".as_slice()),
        (3, other, Ending::InputFailed, first),
        (5, ErrorKind::OutOfMemory, Ending::NoMemory, first),
        (6, other, Ending::InputFailed, both),
        (7, other, Ending::Done, both),
    ] {
        halted(&rt, alloc, (reads, kind), ending, output)?;
    }
    Ok(())
}

/// Runs a script over a writer that fails once its capacity is used, or at a flush.
fn filled(
    rt: &impl Abort,
    alloc: Global,
    input: &[u8],
    (room, flushes): (usize, bool),
    ending: Ending,
    output: &[u8],
) {
    let bytes = Vec::new(alloc);
    let mut writer = Output::new(Full {
        bytes,
        room,
        flushes,
    });
    let found = serve_script(alloc, &mut Input::new(input), &mut writer);
    let has_failed = ending == Ending::OutputFailed;
    assert!(rt;
        found == ending && writer.has_failed() == has_failed,
        "with room for {room}"
    );
    assert!(rt; writer.is_flushed() == flushes, "with room for {room}");
    let written = writer.into_writer();
    assert!(rt; written.bytes.as_slice() == output, "with room for {room}");
}

// The last failure is reported: that of the output, if its flush fails after a bad line.
#[test]
fn a_failing_write_is_told(rt: HostRuntime) {
    let alloc = rt.alloc();
    let (sound, bad) = (
        b"close 0\nreopen\n".as_slice(),
        b"close 0\nfrob\n".as_slice(),
    );
    let first = b"error NoHandle\n".as_slice();
    let both = b"error NoHandle\nok\n".as_slice();
    let failed = Ending::OutputFailed;
    for (input, room, flushes, ending, output) in [
        (sound, 0, true, failed, b"".as_slice()),
        (sound, 16, true, failed, b"error NoHandle\no".as_slice()),
        (sound, 18, false, failed, both),
        (sound, 18, true, Ending::Done, both),
        (bad, 18, false, failed, first),
        (bad, 18, true, Ending::BadCall(2), first),
    ] {
        filled(&rt, alloc, input, (room, flushes), ending, output);
    }
}
