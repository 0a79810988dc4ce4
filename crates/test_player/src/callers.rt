//! The operations of `any_store`, over the memory store. Each is called in a function of its own, so that only the
//! proof of that function sees its contract.

use crate::args::Args;
use crate::calls::Own;
use crate::found::{Found, done};
use blob_base::any_store::{
    plain_write_within_room, resize_and_start_sync, write_and_remove, write_and_sync,
    write_within_room,
};
use blob_base::{Blob, Durable, Error, WriteOptions};
use blob_memory::{Blob as Opened, Storage as Memory};

fn synced(store: &mut Memory, blob: &mut Opened, args: &mut Args<'_>) -> Result<(), Error> {
    let (at, plain) = (args.numbers[1], WriteOptions::default());
    write_and_sync(store, blob, at, args.take_bufs(), plain)
}

fn removed(store: &mut Memory, blob: &mut Opened, args: &mut Args<'_>) -> Result<(), Error> {
    let (at, bufs) = (args.numbers[1], args.take_bufs());
    let (partition, name) = (&args.partition, &args.name);
    write_and_remove(store, blob, at, bufs, WriteOptions::SYNC, partition, name)
}

// Writes with SYNC within a reservation that ends at `end`.
fn within_room(store: &mut Memory, blob: &mut Opened, args: &mut Args<'_>) -> Result<(), Error> {
    let ([_, end, at, _], bufs) = (args.numbers, args.take_bufs());
    if at > end || bufs.remaining() as u64 > end - at || !store.is_current(blob.origin_ref()) {
        return Err(Error::Closed);
    }
    write_within_room(store, blob, end, at, bufs, WriteOptions::SYNC)?
}

fn plain_within_room(
    store: &mut Memory,
    blob: &mut Opened,
    args: &mut Args<'_>,
) -> Result<(), Error> {
    let ([_, end, at, _], bufs) = (args.numbers, args.take_bufs());
    if at > end || bufs.remaining() as u64 > end - at || bufs.is_empty() {
        return Err(Error::Closed);
    }
    plain_write_within_room(store, blob, end, at, bufs, WriteOptions::default())?
}

/// Runs one of these operations.
pub fn call(
    store: &mut Memory,
    blob: &mut Opened,
    own: Own,
    args: &mut Args<'_>,
) -> Result<Found, Error> {
    match own {
        Own::WriteAndSync => synced(store, blob, args),
        Own::ResizeAndStart => resize_and_start_sync(store, blob, args.numbers[1]),
        Own::WriteAndRemove => removed(store, blob, args),
        Own::WriteWithin => within_room(store, blob, args),
        _ => plain_within_room(store, blob, args),
    }
    .map(done)
}
