//! The result of a call, and its line.

use blob_base::{BlobVersion, Error, IoBufsMut, Layout};
use blob_faulty::{PartialWriteMode, WriteConfig};
use blob_memory::Origin;
use blob_script::Reply;
use blob_script::script::{Line, RefusedLine, print_reply};
use std::alloc::{AllocError, Global};

/// The result of a call.
#[derive(Drop)]
pub enum Found {
    /// A reply of a script.
    Told(Reply),
    /// A sync was started: its number, and its marker if it has one.
    Started(usize, Option<u64>),
    Is(bool),
    /// There is no blob.
    Nothing,
    Origin(Origin),
    /// How writes fail, and which of their bytes are kept.
    Writes(WriteConfig),
    /// The blob must be created.
    Creates,
    /// The blob's logical size, its version and its data offset.
    Valid(u64, BlobVersion, u64),
    Layout(Layout),
    /// A checksum.
    Sum([u8; 4]),
    /// The result of a draw, and the number of words that it took.
    Drawn(bool, usize),
    /// The number of words taken so far.
    Taken(usize),
    /// The meaning of a line of a script.
    Line(Result<Line, RefusedLine>),
    Text(String),
    /// The number of pieces, the number of bytes, and whether there are no bytes.
    Pieces(usize, usize, bool),
    /// An error as a text.
    Words(Error),
    /// An open was admitted: its number, whether its predecessor is still settling, and whether its name has debt.
    Admitted(usize, bool, bool),
    /// A name was released: the number of its token.
    Released(usize),
}

/// A result without a value.
pub fn done(_: ()) -> Found {
    Found::Told(Reply::Done)
}

/// Bytes.
pub fn bytes(bytes: Vec<u8>) -> Found {
    Found::Told(Reply::Bytes(bytes))
}

/// The bytes of a read.
pub fn read(read: IoBufsMut) -> Found {
    bytes(read.coalesce())
}

/// The bytes of a blob, if it exists.
pub fn bytes_of(blob: Option<Vec<u8>>) -> Found {
    match blob {
        Some(found) => bytes(found),
        None => Found::Nothing,
    }
}

/// The names of a partition.
pub fn names(names: Vec<Vec<u8>>) -> Found {
    Found::Told(Reply::Names(names))
}

fn print_origin(origin: &Origin, line: &mut String) -> Result<(), AllocError> {
    write!(line, "origin {}", origin.partition())?;
    let name = hex::encode(*line.allocator(), origin.name())?;
    let (generation, offset) = (origin.generation(), origin.data_offset());
    write!(line, " {name} {generation} {offset}")
}

fn print_writes(config: &WriteConfig, line: &mut String) -> Result<(), AllocError> {
    let (failure, retention) = (config.failure_rate, config.retention_rate);
    let (n, d) = (failure.numerator(), failure.denominator());
    write!(line, "write {n} {d}")?;
    let (n, d) = (retention.numerator(), retention.denominator());
    write!(line, " {n} {d} ")?;
    match config.mode {
        PartialWriteMode::Prefix => line.push_str("prefix"),
        PartialWriteMode::Subset => line.push_str("subset"),
        // No cell has another mode.
        mode => write!(line, "{mode:?}"),
    }
}

fn print_read(read: &Result<Line, RefusedLine>, line: &mut String) -> Result<(), AllocError> {
    match read {
        Ok(said) => write!(line, "{said:?}"),
        Err(_) => line.push_str("no line"),
    }
}

fn print_admitted(
    number: usize,
    is_settling: bool,
    owes: bool,
    line: &mut String,
) -> Result<(), AllocError> {
    write!(line, "entered {number}")?;
    line.push_str(if is_settling { " settling" } else { "" })?;
    line.push_str(if owes { " owes" } else { "" })
}

fn print_found(found: &Found, line: &mut String) -> Result<(), AllocError> {
    match found {
        Found::Told(reply) => print_reply(reply, line),
        Found::Started(number, None) => write!(line, "started {number}"),
        Found::Started(number, Some(marker)) => write!(line, "started {number} marker {marker}"),
        Found::Is(true) => line.push_str("yes"),
        Found::Is(false) => line.push_str("no"),
        Found::Nothing => line.push_str("none"),
        Found::Origin(origin) => print_origin(origin, line),
        Found::Writes(config) => print_writes(config, line),
        Found::Creates => line.push_str("create"),
        Found::Valid(size, version, offset) => {
            let number = version.get();
            write!(line, "valid {size} {number} {offset}")
        }
        _ => print_more(found, line),
    }
}

fn print_more(found: &Found, line: &mut String) -> Result<(), AllocError> {
    match found {
        Found::Layout(Layout::V0) => line.push_str("V0"),
        Found::Layout(Layout::V1) => line.push_str("V1"),
        Found::Sum(sum) => {
            let number = u32::from_be_bytes(*sum);
            write!(line, "bytes {number:08x}")
        }
        Found::Drawn(true, words) => write!(line, "yes {words}"),
        Found::Drawn(false, words) => write!(line, "no {words}"),
        Found::Taken(words) => write!(line, "taken {words}"),
        Found::Line(read) => print_read(read, line),
        Found::Text(text) => line.push_str(text),
        Found::Pieces(0, 0, true) => line.push_str("empty"),
        Found::Pieces(pieces, bytes, false) => write!(line, "{pieces} pieces, {bytes} bytes"),
        Found::Words(error) => write!(line, "{error}"),
        Found::Admitted(number, is_settling, owes) => print_admitted(
            *number,
            *is_settling,
            *owes,
            line,
        ),
        Found::Released(number) => write!(line, "released {number}"),
        _ => Ok(()),
    }
}

/// Returns a result, or an error, as a line.
pub fn line_of(alloc: Global, found: Result<Found, Error>) -> Result<String, AllocError> {
    let found = match found {
        Ok(found) => found,
        Err(e) => Found::Told(Reply::Failed(e)),
    };
    let mut line = String::new(alloc);
    print_found(&found, &mut line)?;
    Ok(line)
}
