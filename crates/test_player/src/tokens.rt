//! Parses the tokens of a row. An invalid token is `Closed`, an error that no store here returns.

use blob_base::{BlobVersion, Error, IoBufs, Layout};
use blob_faulty::Config;
use blob_script::script::setting::copy_of;
use blob_script::script::{Line, Reader, RefusedLine, read_line, token};
use std::alloc::{AllocError, Global};

/// Parses a number; `max` is the greatest one.
pub fn number(token: &str) -> Result<u64, Error> {
    if token == "max" {
        return Ok(u64::MAX);
    }
    token::number(token).ok_or(Error::Closed)
}

pub fn numbers(alloc: Global, tokens: &[&str]) -> Result<Vec<u64>, Error> {
    let mut numbers = Vec::new(alloc);
    for token in tokens {
        numbers.push(number(token)?)?;
    }
    Ok(numbers)
}

pub fn version(token: &str) -> Result<BlobVersion, Error> {
    match u16::try_from(number(token)?) {
        Ok(number) => Ok(BlobVersion::new(number)),
        Err(_) => Err(Error::Closed),
    }
}

pub fn layout(token: &str) -> Result<Layout, Error> {
    match token {
        "V0" => Ok(Layout::V0),
        "V1" => Ok(Layout::V1),
        _ => Err(Error::Closed),
    }
}

/// Converts the error of a line of a script.
pub fn refused(refusal: RefusedLine) -> Error {
    match refusal {
        RefusedLine::BadCall => Error::Closed,
        RefusedLine::NoMemory => Error::Memory(AllocError),
    }
}

fn repeat(all: &mut Vec<u8>, bytes: &[u8], times: u64) -> Result<(), Error> {
    for _ in 0..times {
        all.extend_from_slice(bytes)?;
    }
    Ok(())
}

/// Parses bytes in pieces that are separated by `+`; `00x4084` is 4084 times `00`.
pub fn bytes(alloc: Global, token: &str) -> Result<Vec<u8>, Error> {
    let mut all = Vec::new(alloc);
    for piece in token.split('+') {
        let (digits, times) = piece.split_once('x').unwrap_or((piece, "1"));
        let digits = token::bytes(alloc, digits).map_err(refused)?;
        repeat(&mut all, &digits, number(times)?)?;
    }
    Ok(all)
}

/// Parses bytes; each token is a piece.
pub fn pieces(alloc: Global, tokens: &[&str]) -> Result<IoBufs, Error> {
    let mut pieces = IoBufs::new(alloc);
    for token in tokens {
        pieces.push(bytes(alloc, token)?)?;
    }
    Ok(pieces)
}

/// Parses which bytes are kept, `1` or `0` for each.
pub fn choices(alloc: Global, token: &str) -> Result<Vec<bool>, Error> {
    let mut choices = Vec::new(alloc);
    for digit in token.bytes() {
        choices.push(digit == b'1')?;
    }
    Ok(choices)
}

/// Parses a string, such as a partition: `''` is empty, and `%20` is a space.
pub fn text(alloc: Global, token: &str) -> Result<String, Error> {
    let mut text = String::new(alloc);
    if token != "''" {
        for (i, piece) in token.split("%20").enumerate() {
            if i > 0 {
                text.push(' ')?;
            }
            text.push_str(piece)?;
        }
    }
    Ok(text)
}

/// Parses a setting, as after `config` in a script.
pub fn setting(alloc: Global, text: &str) -> Result<Line, Error> {
    let line = format!(in alloc; "config {text}")?;
    read_line(alloc, line.as_bytes()).map_err(refused)
}

/// Returns the configuration with a setting. Doesn't allocate.
pub fn configured(alloc: Global, config: Config, setting: Line) -> Result<Config, Error> {
    let mut reader = Reader::begun(alloc, config);
    let _ = reader.take(setting).map_err(refused)?;
    Ok(copy_of(reader.config()))
}

/// Parses an error by its name and its fields; `-` is none.
pub fn error(alloc: Global, tokens: &[&str]) -> Result<Option<Error>, Error> {
    Ok(match tokens {
        [] | ["-"] => None,
        [name] => Some(error_without_fields(name)),
        ["BlobLayoutMismatch", oldest, newest, found] => {
            Some(layout_mismatch(oldest, newest, found)?)
        }
        ["BlobVersionMismatch", first, last, found] => Some(version_mismatch(first, last, found)?),
        [name, texts @ ..] => Some(error_with_texts(alloc, name, texts)?),
    })
}

fn error_without_fields(name: &str) -> Error {
    match name {
        "OffsetOverflow" => Error::OffsetOverflow,
        "BlobInsufficientLength" => Error::BlobInsufficientLength,
        "ReadFailed" => Error::ReadFailed,
        "WriteFailed" => Error::WriteFailed,
        "Injected" => Error::Injected,
        "Memory" => Error::Memory(AllocError),
        "GenerationsExhausted" => Error::GenerationsExhausted,
        _ => Error::Closed,
    }
}

fn layout_mismatch(oldest: &str, newest: &str, found: &str) -> Result<Error, Error> {
    Ok(Error::BlobLayoutMismatch {
        expected: layout(oldest)?..=layout(newest)?,
        found: layout(found)?,
    })
}

fn version_mismatch(first: &str, last: &str, found: &str) -> Result<Error, Error> {
    Ok(Error::BlobVersionMismatch {
        expected: version(first)?..=version(last)?,
        found: version(found)?,
    })
}

fn error_with_texts(alloc: Global, name: &str, texts: &[&str]) -> Result<Error, Error> {
    let mut owned = [String::new(alloc), String::new(alloc), String::new(alloc)];
    for (slot, token) in owned.iter_mut().zip(texts) {
        *slot = text(alloc, token)?;
    }
    let [partition, blob, reason] = owned;
    Ok(match (name, texts.len()) {
        ("PartitionNameInvalid", 1) => Error::PartitionNameInvalid(partition),
        ("PartitionMissing", 1) => Error::PartitionMissing(partition),
        ("BlobMissing", 2) => Error::BlobMissing(partition, blob),
        ("BlobAlreadyOpen", 2) => Error::BlobAlreadyOpen(partition, blob),
        ("BlobCorrupt", 3) => Error::BlobCorrupt(partition, blob, reason),
        _ => Error::Closed,
    })
}
