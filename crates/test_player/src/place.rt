//! A store with its handles, and the calls of every store.

use crate::args::Args;
use crate::calls::Own;
use crate::found::{Found, done, names};
use crate::handles::{self, Started};
use blob_base::{Blob, BlobVersion, DEFAULT_BLOB_VERSION, Error, Storage};
use blob_script::Reply;
use std::alloc::{AllocError, Global};

/// A store with its open handles and its started syncs.
#[derive(Drop)]
pub struct Place<S: Storage + Drop> {
    pub store: S,
    pub blobs: Vec<S::Blob>,
    pub started: Started,
}

impl<S: Storage + Drop> Place<S> {
    pub fn new(alloc: Global, store: S) -> Place<S> {
        Place {
            store,
            blobs: Vec::new(alloc),
            started: Vec::new(alloc),
        }
    }

    /// Reserves capacity for one more handle and one more started sync, so that recording one doesn't allocate.
    pub fn make_room(&mut self) -> Result<(), AllocError> {
        self.blobs.reserve(1)?;
        self.started.reserve(1)
    }

    /// Records the handle of an open.
    pub fn opened(
        &mut self,
        blob: S::Blob,
        size: u64,
        version: BlobVersion,
    ) -> Result<Found, Error> {
        let handle = self.blobs.len();
        self.blobs.push(blob)?;
        Ok(Found::Told(Reply::Opened {
            handle,
            size,
            version,
        }))
    }

    fn open(&mut self, args: &Args<'_>) -> Result<Found, Error> {
        let (blob, size) = self.store.open(&args.partition, &args.name)?;
        self.opened(blob, size, DEFAULT_BLOB_VERSION)
    }

    fn open_versioned(&mut self, args: &Args<'_>) -> Result<Found, Error> {
        let [first, last] = args.versions;
        if first > last {
            return Ok(Found::Told(Reply::EmptyRange));
        }
        let (blob, size, version) = self
            .store
            .open_versioned(&args.partition, &args.name, first..=last)?;
        self.opened(blob, size, version)
    }

    // Returns all bytes that a new open reads. Drops its handle.
    fn fresh(&mut self, args: &Args<'_>) -> Result<Found, Error> {
        let (blob, size) = self.store.open(&args.partition, &args.name)?;
        handles::live(&mut self.store, &blob, size)
    }

    // Returns whether both handles were opened on the same incarnation.
    fn is_same(&self, args: &Args<'_>) -> Result<Found, Error> {
        let blob = self.blobs.get(args.handle()).ok_or(Error::Closed)?;
        let other = self
            .blobs
            .get(args.numbers[1] as usize)
            .ok_or(Error::Closed)?;
        Ok(Found::Is(blob.origin_ref() == other.origin_ref()))
    }

    fn finish(&mut self, number: usize) -> Result<Found, Error> {
        let started = handles::taken(&mut self.started, number)?;
        self.store.finish(started).map(done)
    }

    // Runs a removal or a scan.
    fn call_of_names(&mut self, own: Own, args: &Args<'_>) -> Result<Found, Error> {
        match own {
            Own::Remove => self
                .store
                .remove(&args.partition, Some(&args.name))
                .map(done),
            Own::RemovePartition => self.store.remove(&args.partition, None).map(done),
            _ => self.store.scan(&args.partition).map(names),
        }
    }

    /// Runs a call of every store.
    pub fn call(&mut self, own: Own, args: &mut Args<'_>) -> Result<Found, Error> {
        match own {
            Own::Open => self.open(args),
            Own::OpenVersioned => self.open_versioned(args),
            Own::Fresh => self.fresh(args),
            Own::Same => self.is_same(args),
            Own::Remove | Own::RemovePartition | Own::Scan => self.call_of_names(own, args),
            Own::Finish => self.finish(args.handle()),
            _ => match self.blobs.get_mut(args.handle()) {
                Some(blob) => handles::call(&mut self.store, blob, &mut self.started, own, args),
                None => Err(Error::Closed),
            },
        }
    }
}
