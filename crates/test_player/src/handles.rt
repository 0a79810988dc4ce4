//! The calls of every handle.

use crate::args::{Args, ROOM};
use crate::calls::Own;
use crate::found::{Found, bytes, done, read};
use blob_base::{Blob, Durable, Error, Handle, IoBufsMut, ReadOptions, WriteOptions};

/// The started syncs by number.
pub type Started = Vec<Option<Handle>>;

/// Returns all live bytes, if there are `len`.
pub fn live<S: Durable, B: Blob<S>>(store: &mut S, blob: &B, len: u64) -> Result<Found, Error> {
    match blob.read_at(store, len, 1, ReadOptions::default()) {
        Err(Error::BlobInsufficientLength) => {}
        Err(e) => return Err(e),
        Ok(_) => return Err(Error::Closed),
    }
    blob.read_at(store, 0, len as usize, ReadOptions::default())
        .map(read)
}

/// Returns all live bytes, if they are fewer than 32 KiB. Finds their number by trying reads.
pub fn all<S: Durable, B: Blob<S>>(store: &mut S, blob: &B) -> Result<Found, Error> {
    let mut len: usize = 0;
    for bit in 0..15u32 {
        let longer = len | (1usize << (14 - bit));
        match blob.read_at(store, 0, longer, ReadOptions::default()) {
            Ok(_) => len = longer,
            Err(Error::BlobInsufficientLength) => {}
            Err(e) => return Err(e),
        }
    }
    blob.read_at(store, 0, len, ReadOptions::default())
        .map(read)
}

// Reads into a buffer that has this capacity and other contents.
fn read_into<S: Durable, B: Blob<S>>(
    store: &mut S,
    blob: &B,
    offset: u64,
    len: usize,
    buf: IoBufsMut,
) -> Result<Found, Error> {
    if buf.capacity() < len {
        return Err(Error::Closed);
    }
    let read = blob.read_at_buf(store, offset, len, buf, ReadOptions::default())?;
    if read.capacity() < ROOM {
        return Err(Error::Closed);
    }
    Ok(bytes(read.coalesce()))
}

// Records a started sync. If its outcome is `Memory`, returns this error instead.
fn start(started: &mut Started, handle: Handle) -> Result<Found, Error> {
    if let Err(Error::Memory(e)) = handle.outcome() {
        return Err(Error::Memory(*e));
    }
    let (number, marker) = (started.len(), handle.marker());
    started.push(Some(handle))?;
    Ok(Found::Started(number, marker))
}

// Runs a write.
fn write<S: Durable, B: Blob<S>>(
    store: &mut S,
    blob: &mut B,
    own: Own,
    args: &mut Args<'_>,
) -> Result<Found, Error> {
    let [_, at, _, _] = args.numbers;
    match own {
        Own::Write => blob
            .write_at(store, at, args.take_bufs(), WriteOptions::default())
            .map(done),
        Own::WriteSynced => blob
            .write_at(store, at, args.take_bufs(), WriteOptions::SYNC)
            .map(done),
        Own::WriteFrom => blob
            .write_from(store, at, &args.take_bytes(), WriteOptions::default())
            .map(done),
        Own::WriteFromSynced => blob
            .write_from(store, at, &args.take_bytes(), WriteOptions::SYNC)
            .map(done),
        _ => Err(Error::Closed),
    }
}

/// Takes a started sync. Returns `Closed` if there is none.
pub fn taken(started: &mut Started, number: usize) -> Result<Handle, Error> {
    match started.get_mut(number) {
        Some(started) => started.take().ok_or(Error::Closed),
        None => Err(Error::Closed),
    }
}

/// Runs a call through a handle.
pub fn call<S: Durable, B: Blob<S>>(
    store: &mut S,
    blob: &mut B,
    started: &mut Started,
    own: Own,
    args: &mut Args<'_>,
) -> Result<Found, Error> {
    let [_, at, len, _] = args.numbers;
    match own {
        Own::Read => blob
            .read_at(store, at, len as usize, ReadOptions::default())
            .map(read),
        Own::ReadInto => match args.buf.take() {
            Some(buf) => read_into(store, blob, at, len as usize, buf),
            None => Err(Error::Closed),
        },
        Own::Resize => blob.resize(store, at).map(done),
        Own::Sync => blob.sync(store).map(done),
        Own::StartSync => start(started, blob.start_sync(store)),
        Own::Reserve => blob.reserve(store, at).map(done),
        Own::Origin => Ok(Found::Is(*blob.origin_ref() == blob.origin()?)),
        Own::Current => Ok(Found::Is(store.is_current(blob.origin_ref()))),
        Own::Live => live(store, blob, at),
        Own::All => all(store, blob),
        _ => write(store, blob, own, args),
    }
}
