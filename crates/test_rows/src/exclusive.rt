//! Exclusive opens over the wrapper.

use crate::slots::Slots;
use blob_base::Error;
use blob_lab::open::Blob;
use blob_lab::{Opens, Reply};
use blob_memory::Storage as Memory;
use std::alloc::{AllocError, Global};
use test_player::args::Args;
use test_player::calls::Own;
use test_player::found::{Found, done};
use test_player::handles::{self, Started};
use test_player::wrapper_calls::Wrapper;

type Held = Blob<blob_faulty::Blob<blob_memory::Blob>>;

/// The open names and their handles.
pub struct Exclusive {
    opens: Opens,
    held: Slots<Held>,
    started: Started,
}

// The result of a replacement that succeeds.
const REPLACED: u64 = 7;

fn replacement(error: Option<Error>) -> Result<u64, Error> {
    match error {
        Some(e) => Err(e),
        None => Ok(REPLACED),
    }
}

fn size(size: u64) -> Found {
    Found::Told(Reply::Size(size))
}

// Closes a handle, if there is one.
fn close(opens: &mut Opens, held: Option<Held>) {
    if let Some(blob) = held {
        opens.close(blob);
    }
}

impl Exclusive {
    /// Returns a registry without open names.
    pub fn new(alloc: Global) -> Exclusive {
        Exclusive {
            opens: Opens::new(alloc),
            held: Slots::new(),
            started: Vec::new(alloc),
        }
    }

    /// Closes all open handles.
    pub fn end(self) {
        let Exclusive {
            mut opens,
            held,
            started: _,
        } = self;
        let Slots {
            first,
            second,
            third,
            last,
        } = held;
        close(&mut opens, first);
        close(&mut opens, second);
        close(&mut opens, third);
        close(&mut opens, last);
    }

    /// Reserves capacity for one more started sync.
    pub fn make_room(&mut self) -> Result<(), AllocError> {
        self.started.reserve(1)
    }

    fn open(&mut self, wrapper: &mut Wrapper<Memory>, args: &Args<'_>) -> Result<Found, Error> {
        let [first, last] = args.versions;
        if first > last {
            return Ok(Found::Told(Reply::EmptyRange));
        }
        let versions = first..=last;
        match self
            .opens
            .open(wrapper, &args.partition, &args.name, versions)
        {
            Ok((blob, size, version)) => {
                let (handle, earlier) = self.held.put(blob);
                close(&mut self.opens, earlier);
                Ok(Found::Told(Reply::Opened {
                    handle,
                    size,
                    version,
                }))
            }
            Err(e) => Err(e),
        }
    }

    fn close(&mut self, handle: usize) -> Result<Found, Error> {
        match self.held.take(handle) {
            Some(blob) => {
                self.opens.close(blob);
                Ok(done(()))
            }
            None => Err(Error::Closed),
        }
    }

    fn replace(
        &mut self,
        partition: &str,
        name: Option<&[u8]>,
        error: Option<Error>,
    ) -> Result<Found, Error> {
        self.opens
            .replace(partition, name, || replacement(error))
            .map(size)
    }

    /// Runs a call of exclusive opens, or through one of their handles. Opens aren't admitted.
    pub fn call(
        &mut self,
        wrapper: &mut Wrapper<Memory>,
        own: Own,
        args: &mut Args<'_>,
    ) -> Result<Found, Error> {
        match own {
            Own::OpenExclusive => self.open(wrapper, args),
            Own::Remove => self
                .opens
                .remove(wrapper, &args.partition, Some(&args.name))
                .map(done),
            Own::RemovePartition => self.opens.remove(wrapper, &args.partition, None).map(done),
            Own::Close => self.close(args.handle()),
            Own::Replace => {
                let error = args.error.take();
                self.replace(&args.partition, Some(&args.name), error)
            }
            Own::ReplacePartition => {
                let error = args.error.take();
                self.replace(&args.partition, None, error)
            }
            _ => match self.held.get_mut(args.handle()) {
                Some(blob) => handles::call(wrapper, blob, &mut self.started, own, args),
                None => Err(Error::Closed),
            },
        }
    }
}
