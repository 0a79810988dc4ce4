// The text of what was told of a call.
use crate::event::Event;
use crate::files::Write;
use crate::handles::Opened;
use crate::picture::{draw, push_failed, push_range};
use blob_draws::faults::ResizeFate;
use std::alloc::AllocError;

/// Adds what is told as text. A draw is told by what it decides.
pub(crate) fn push_event(event: &Event<'_>, text: &mut String) -> Result<(), AllocError> {
    match *event {
        Event::Draw(_) => Ok(()),
        Event::Crashed { file, after } | Event::FailedWrite { file, after } => {
            draw(file, after, text)
        }
        Event::LostWrite { opened, write } => {
            push_unchanged(opened, text)?;
            push_failed(write, text)
        }
        Event::StaleWrite {
            opened,
            write,
            live,
        } => push_stale_write(opened, write, live, text),
        Event::UnsyncedWrite {
            opened,
            number,
            offset,
            len,
        } => push_unsynced_write(opened, number, offset, len, text),
        Event::Resized { opened, fate, len } => push_resize(opened, fate, len, text),
        Event::FailedSync {
            opened,
            number,
            is_drawn,
        } => push_failed_sync(opened, number, is_drawn, text),
        Event::Unkept {
            partition,
            name,
            count,
        } => push_unkept(partition, name, count, text),
    }
}

/// Adds a failed write through a stale handle. Its first kept run is live.
fn push_stale_write(
    opened: &Opened,
    write: &Write,
    live: Option<(u64, u64)>,
    text: &mut String,
) -> Result<(), AllocError> {
    push_unchanged(opened, text)?;
    text.push_str("  failed write")?;
    push_range(write.offset, write.bytes.len(), text)?;
    if let Some((start, end)) = live {
        write!(text, ", of which {start}..{end} is live")?;
    }
    text.push_str(": its handle is stale\n")
}

/// Adds a SYNC write with a failed sync, and its number if it is pending.
fn push_unsynced_write(
    opened: &Opened,
    number: Option<u64>,
    offset: u64,
    len: usize,
    text: &mut String,
) -> Result<(), AllocError> {
    push_unchanged(opened, text)?;
    text.push_str("  write")?;
    if let Some(number) = number {
        write!(text, " {number}")?;
    }
    push_range(offset, len, text)?;
    text.push_str(", whose sync failed: ")?;
    text.push_str(match number {
        _ if opened.is_stale => "its handle is stale\n",
        Some(_) => "a crash may keep bytes of it\n",
        None => "a crash loses it\n",
    })
}

/// Adds a resize that failed or that survives a crash. Adds nothing for any other.
fn push_resize(
    opened: &Opened,
    fate: ResizeFate,
    len: u64,
    text: &mut String,
) -> Result<(), AllocError> {
    let lasts = if opened.is_stale {
        "which no crash applies: its handle is stale"
    } else {
        "which a crash applies"
    };
    match fate {
        ResizeFate::Resizes(false) => Ok(()),
        ResizeFate::Resizes(true) => {
            push_unchanged(opened, text)?;
            writeln!(text, "  resize to {len}, {lasts}")
        }
        ResizeFate::Reaches(size) => {
            push_unchanged(opened, text)?;
            writeln!(text, "  failed resize to {len}, reached {size}, {lasts}")
        }
        ResizeFate::Stays => {
            push_unchanged(opened, text)?;
            writeln!(text, "  failed resize to {len}, which changed nothing")
        }
    }
}

/// Adds a started sync that failed.
fn push_failed_sync(
    opened: &Opened,
    number: usize,
    is_drawn: bool,
    text: &mut String,
) -> Result<(), AllocError> {
    push_unchanged(opened, text)?;
    write!(text, "  started sync {number}, which failed")?;
    text.push_str(if is_drawn {
        "\n"
    } else {
        ": its handle is stale\n"
    })
}

/// Adds how many writes of a blob a crash has lost that were made at retention 0.
fn push_unkept(
    partition: &str,
    name: &[u8],
    count: usize,
    text: &mut String,
) -> Result<(), AllocError> {
    let name = hex::encode(*text.allocator(), name)?;
    let noun = if count == 1 { "write" } else { "writes" };
    writeln!(
        text,
        "{partition} {name}: {count} {noun} lost at retention 0"
    )
}

fn push_unchanged(opened: &Opened, text: &mut String) -> Result<(), AllocError> {
    let name = hex::encode(*text.allocator(), &opened.name)?;
    let partition = &opened.partition;
    writeln!(text, "{partition} {name}: no durable change")
}
