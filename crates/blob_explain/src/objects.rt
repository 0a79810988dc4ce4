// What was told of a call as objects of JSON, a line each.
use crate::event::{Draw, Event};
use crate::files::{File, Item, Write};
use crate::handles::Opened;
use crate::picture::{Fate, fate_of};
use blob_draws::faults::ResizeFate;
use blob_json::Object;
use std::alloc::{AllocError, Global};

/// A blob by its partition and its name.
#[derive(Clone, Copy)]
struct Blob<'a> {
    partition: &'a str,
    name: &'a [u8],
}

impl<'a> Blob<'a> {
    fn of(opened: &'a Opened) -> Blob<'a> {
        Blob {
            partition: &opened.partition,
            name: &opened.name,
        }
    }

    fn of_file(file: &'a File) -> Blob<'a> {
        Blob {
            partition: &file.partition,
            name: &file.name,
        }
    }

    /// Adds the partition and the name to an object.
    fn name(self, object: &mut Object, alloc: Global) -> Result<(), AllocError> {
        object.text("partition", self.partition)?;
        if self.name.is_empty() {
            return object.text("name", "-");
        }
        object.text("name", hex::encode(alloc, self.name)?.as_str())
    }
}

/// Begins an object of the call of a line.
fn begin(alloc: Global, line: u64) -> Result<Object, AllocError> {
    let mut object = Object::new(alloc)?;
    object.number("line", line)?;
    Ok(object)
}

/// Adds what is told of the call of a line. `writes` has the line of each recorded write, by its number.
pub(crate) fn push_objects(
    line: u64,
    writes: &[u64],
    event: &Event<'_>,
    to: &mut Vec<u8>,
) -> Result<(), AllocError> {
    match *event {
        Event::Draw(draw) => push_draw(line, draw, to),
        Event::Crashed { file, after } | Event::FailedWrite { file, after } => {
            push_file(line, writes, file, after, to)
        }
        Event::LostWrite { opened, write } => {
            push_write(line, Blob::of(opened), write, line, to)
        }
        Event::StaleWrite {
            opened,
            write,
            live,
        } => push_stale_write(line, opened, write, live, to),
        Event::UnsyncedWrite {
            opened,
            number,
            offset,
            len,
        } => push_unsynced_write(line, opened, number, (offset, len), to),
        Event::Resized { opened, fate, len } => push_resize(line, opened, fate, len, to),
        Event::FailedSync { opened, number, .. } => {
            let mut object = begin(*to.allocator(), line)?;
            object.number("started", number as u64)?;
            object.truth("stale", opened.is_stale)?;
            Blob::of(opened).name(&mut object, *to.allocator())?;
            object.end(to)
        }
        Event::Unkept {
            partition,
            name,
            count,
        } => {
            let mut object = begin(*to.allocator(), line)?;
            object.number("unkept", count as u64)?;
            Blob { partition, name }.name(&mut object, *to.allocator())?;
            object.end(to)
        }
    }
}

fn push_draw(line: u64, draw: Draw, to: &mut Vec<u8>) -> Result<(), AllocError> {
    let mut object = begin(*to.allocator(), line)?;
    match draw {
        Draw::Rate(word, is_true) => {
            object.text("draw", word)?;
            object.number("among", 2)?;
            object.truth("outcome", is_true)?;
        }
        Draw::Size { among, reached } => {
            object.text("draw", "size")?;
            object.number("among", among)?;
            object.number("outcome", reached)?;
        }
    }
    object.end(to)
}

/// Adds a file that had something pending, and each of its entries.
fn push_file(
    line: u64,
    writes: &[u64],
    file: &File,
    after: &[u8],
    to: &mut Vec<u8>,
) -> Result<(), AllocError> {
    let alloc = *to.allocator();
    let blob = Blob::of_file(file);
    let mut object = begin(alloc, line)?;
    let lengths = (file.before.len() as u64, after.len() as u64);
    object.pair("length", if file.is_current { Some(lengths) } else { None })?;
    blob.name(&mut object, alloc)?;
    object.end(to)?;
    for (i, item) in file.entries.iter().enumerate() {
        push_item(line, writes, blob, item, i < file.held, to)?;
    }
    Ok(())
}

fn push_item(
    line: u64,
    writes: &[u64],
    blob: Blob<'_>,
    item: &Item,
    is_held: bool,
    to: &mut Vec<u8>,
) -> Result<(), AllocError> {
    let alloc = *to.allocator();
    let mut object = begin(alloc, line)?;
    match item {
        Item::Write(write) => {
            let of = line_of(writes, write.number, line);
            if !is_held {
                return push_write(line, blob, write, of, to);
            }
            begin_write(
                &mut object,
                write.number,
                of,
                range(write.offset, write.bytes.len()),
            )?;
        }
        Item::Resize(len) => object.number("resize", *len)?,
        Item::Durable { offset, bytes } => {
            object.pair("durable", Some(range(*offset, bytes.len())))?
        }
    }
    if is_held {
        object.text("durable_by", "started sync")?;
    }
    blob.name(&mut object, alloc)?;
    object.end(to)
}

/// Returns the line of a recorded write; of one without a number that of the call itself.
fn line_of(writes: &[u64], number: Option<u64>, line: u64) -> u64 {
    match number {
        None => line,
        Some(number) => writes.get(number as usize).copied().unwrap_or(line),
    }
}

fn range(offset: u64, len: usize) -> (u64, u64) {
    (offset, offset.saturating_add(len as u64))
}

fn begin_write(
    object: &mut Object,
    number: Option<u64>,
    of: u64,
    bytes: (u64, u64),
) -> Result<(), AllocError> {
    object.pair("bytes", Some(bytes))?;
    object.optional("write", number)?;
    object.number("of", of)
}

/// Adds a write with the runs of each outcome.
fn push_write(
    line: u64,
    blob: Blob<'_>,
    write: &Write,
    of: u64,
    to: &mut Vec<u8>,
) -> Result<(), AllocError> {
    let alloc = *to.allocator();
    let mut object = begin(alloc, line)?;
    begin_write(
        &mut object,
        write.number,
        of,
        range(write.offset, write.bytes.len()),
    )?;
    blob.name(&mut object, alloc)?;
    object.runs("kept", &runs_of(alloc, write, Fate::Kept)?)?;
    object.runs("lost", &runs_of(alloc, write, Fate::Lost)?)?;
    object.runs("covered", &runs_of(alloc, write, Fate::Covered)?)?;
    object.end(to)
}

/// Returns the runs of the bytes of a write with an outcome.
fn runs_of(alloc: Global, write: &Write, fate: Fate) -> Result<Vec<(u64, u64)>, AllocError> {
    let mut runs = Vec::new(alloc);
    let mut start = None;
    let mut at = write.offset;
    for i in 0..write.bytes.len() {
        match start {
            None if fate_of(write, i) == fate => start = Some(at),
            Some(first) if fate_of(write, i) != fate => {
                runs.push((first, at))?;
                start = None;
            }
            _ => {}
        }
        at = at.saturating_add(1);
    }
    if let Some(first) = start {
        runs.push((first, at))?;
    }
    Ok(runs)
}

fn push_stale_write(
    line: u64,
    opened: &Opened,
    write: &Write,
    live: Option<(u64, u64)>,
    to: &mut Vec<u8>,
) -> Result<(), AllocError> {
    let alloc = *to.allocator();
    let mut object = begin(alloc, line)?;
    begin_write(
        &mut object,
        None,
        line,
        range(write.offset, write.bytes.len()),
    )?;
    Blob::of(opened).name(&mut object, alloc)?;
    object.pair("live", live)?;
    object.end(to)
}

fn push_unsynced_write(
    line: u64,
    opened: &Opened,
    number: Option<u64>,
    (offset, len): (u64, usize),
    to: &mut Vec<u8>,
) -> Result<(), AllocError> {
    let alloc = *to.allocator();
    let mut object = begin(alloc, line)?;
    begin_write(&mut object, number, line, range(offset, len))?;
    Blob::of(opened).name(&mut object, alloc)?;
    object.text("sync", "failed")?;
    object.truth("stale", opened.is_stale)?;
    object.end(to)
}

/// Adds a resize that failed or that survives a crash. Adds nothing for any other.
fn push_resize(
    line: u64,
    opened: &Opened,
    fate: ResizeFate,
    len: u64,
    to: &mut Vec<u8>,
) -> Result<(), AllocError> {
    let reached = match fate {
        ResizeFate::Resizes(false) => return Ok(()),
        ResizeFate::Resizes(true) => Some(len),
        ResizeFate::Reaches(size) => Some(size),
        ResizeFate::Stays => None,
    };
    let alloc = *to.allocator();
    let mut object = begin(alloc, line)?;
    object.number("resize", len)?;
    object.optional("reached", reached)?;
    object.truth("stale", opened.is_stale)?;
    Blob::of(opened).name(&mut object, alloc)?;
    object.end(to)
}
