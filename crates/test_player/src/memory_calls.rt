//! The memory store's own calls.

use crate::args::Args;
use crate::callers;
use crate::calls::Own;
use crate::found::{Found, bytes, done};
use crate::place::Place;
use blob_base::{Blob, Error};
use blob_memory::{Blob as Opened, Storage as Memory};
use std::alloc::Global;
use std::mem;

/// A memory store with its handles, and the store that was set aside.
#[derive(Drop)]
pub struct MemoryPlace {
    pub place: Place<Memory>,
    aside: Memory,
}

// Applies or reserves what a crash keeps, by a handle or by its origin.
fn retain(store: &mut Memory, blob: &Opened, own: Own, args: &Args<'_>) -> Result<Found, Error> {
    let [_, at, _, _] = args.numbers;
    let (bufs, choices) = (&args.bufs, args.choices.as_slice());
    if choices.len() != bufs.remaining() {
        return Err(Error::Closed);
    }
    match own {
        Own::Retain => blob.retain_crash_write(store, at, bufs, choices),
        Own::RetainOf => store.retain_write(blob.origin_ref(), at, bufs, choices),
        Own::RetainResize => blob.retain_crash_resize(store, at),
        Own::RetainResizeOf => store.retain_resize(blob.origin_ref(), at),
        _ => store.reserve_crash(blob.origin_ref(), at),
    }
    .map(done)
}

// Returns the partition, the name, the number and the data offset.
fn origin_of(blob: &Opened) -> Result<Found, Error> {
    Ok(Found::Origin(blob.origin()?))
}

impl MemoryPlace {
    /// Returns an empty store; its first incarnation gets the number `next`.
    pub fn starting_at(alloc: Global, next: u64) -> MemoryPlace {
        MemoryPlace {
            place: Place::new(alloc, Memory::starting_at(alloc, next)),
            aside: Memory::new(alloc),
        }
    }

    // Sets the store aside and replaces it by one that is rebuilt from its snapshot.
    fn rebuild(&mut self) -> Result<Found, Error> {
        let later = Memory::from_snapshot(self.place.store.take_snapshot());
        self.aside = mem::replace(&mut self.place.store, later);
        Ok(done(()))
    }

    // Sets a fork of the store aside.
    fn fork(&mut self) -> Result<Found, Error> {
        self.aside = self.place.store.fork()?;
        Ok(done(()))
    }

    // Swaps the store with the one that was set aside.
    fn swap(&mut self) -> Result<Found, Error> {
        mem::swap(&mut self.place.store, &mut self.aside);
        Ok(done(()))
    }

    fn read_slice(&mut self, args: &mut Args<'_>) -> Result<Found, Error> {
        let [_, at, _, _] = args.numbers;
        let mut slice = args.take_bytes();
        let number = args.handle();
        let blob = self.place.blobs.get(number).ok_or(Error::Closed)?;
        blob.read_into(at, &mut slice)?;
        Ok(bytes(slice))
    }

    fn through_handle(&mut self, own: Own, args: &Args<'_>) -> Result<Found, Error> {
        let blob = self.place.blobs.get(args.handle()).ok_or(Error::Closed)?;
        match own {
            Own::Origin => origin_of(blob),
            _ => retain(&mut self.place.store, blob, own, args),
        }
    }

    /// Runs a call of the memory store.
    pub fn call(&mut self, own: Own, args: &mut Args<'_>) -> Result<Found, Error> {
        match own {
            Own::SetRaw => {
                let raw = args.take_bytes();
                let store = &mut self.place.store;
                store
                    .set_raw_blob(&args.partition, &args.name, raw)
                    .map(done)
            }
            Own::Audit => Ok(Found::Sum(self.place.store.audit())),
            Own::Rebuild => self.rebuild(),
            Own::Fork => self.fork(),
            Own::Swap => self.swap(),
            Own::ReadSlice => self.read_slice(args),
            Own::Origin
            | Own::Retain
            | Own::RetainResize
            | Own::RetainOf
            | Own::RetainResizeOf
            | Own::ReserveCrash => self.through_handle(own, args),
            Own::WriteAndSync
            | Own::ResizeAndStart
            | Own::WriteAndRemove
            | Own::WriteWithin
            | Own::PlainWithin => match self.place.blobs.get_mut(args.handle()) {
                Some(blob) => callers::call(&mut self.place.store, blob, own, args),
                None => Err(Error::Closed),
            },
            _ => self.place.call(own, args),
        }
    }
}
