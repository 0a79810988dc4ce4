//! The calls of a wrapper, and those of a wrapper over the memory store only.

use crate::args::Args;
use crate::calls::Own;
use crate::found::{Found, bytes, done};
use crate::place::Place;
use crate::words;
use blob_base::{DEFAULT_BLOB_VERSION, Error, Storage};
use blob_faulty::Config;
use blob_lab_store::ScriptedRng;
use blob_memory::Storage as Memory;
use blob_pending::entry::Entry;
use blob_pending::extent::Extent;
use blob_script::Reply;
use blob_script::script::setting::copy_of;
use std::alloc::{AllocError, Global};
use std::mem;

/// The wrapper of a store.
pub type Wrapper<S> = blob_faulty::Storage<S, ScriptedRng>;

impl<S: Storage + Drop> Place<Wrapper<S>> {
    // Changes one setting.
    fn configure(&mut self, args: &mut Args<'_>) -> Result<Found, Error> {
        let config = args.configured(copy_of(self.store.config()))?;
        *self.store.config() = config;
        Ok(done(()))
    }

    // Returns the size that a handle tracks.
    fn size(&self, handle: usize) -> Result<Found, Error> {
        let blob = self.blobs.get(handle).ok_or(Error::Closed)?;
        Ok(Found::Told(Reply::Size(blob.size())))
    }

    // Removes through `remove_retired`.
    fn remove_retired(&mut self, partition: &str, name: Option<&[u8]>) -> Result<Found, Error> {
        let _retired = self.store.remove_retired(partition, name)?;
        Ok(done(()))
    }

    /// Runs a call of every wrapper.
    pub fn call_wrapper(&mut self, own: Own, args: &mut Args<'_>) -> Result<Found, Error> {
        match own {
            Own::Config => self.configure(args),
            Own::Size => self.size(args.handle()),
            Own::RemovePartitionRetired => self.remove_retired(&args.partition, None),
            Own::RemoveRetired => self.remove_retired(&args.partition, Some(&args.name)),
            _ => self.call(own, args),
        }
    }
}

/// A wrapper with its handles and the number of its remaining words.
#[derive(Drop)]
pub struct WrapperPlace<S: Storage + Drop> {
    pub place: Place<Wrapper<S>>,
    alloc: Global,
    given: usize,
    left: usize,
}

impl<S: Storage + Drop> WrapperPlace<S> {
    /// Wraps a store, with these words and first numbers.
    pub fn new(
        alloc: Global,
        store: S,
        words: Vec<u64>,
        (next_write, next_marker): (u64, u64),
    ) -> Result<WrapperPlace<S>, Error> {
        let given = words.len();
        let (rng, config) = (words::generator(words)?, Config::default());
        let wrapper = Wrapper::new_numbered(alloc, store, rng, config, next_write, next_marker);
        Ok(WrapperPlace {
            place: Place::new(alloc, wrapper),
            alloc,
            given,
            left: given,
        })
    }

    /// Returns the store, and how many words were taken; if more than all were taken, one more than given.
    pub fn into_inner(self) -> Result<(S, usize), Error> {
        let WrapperPlace {
            place,
            alloc,
            given,
            left,
        } = self;
        let (store, rng, _config) = place.store.into_inner();
        let taken = words::taken(alloc, rng, given, left)?;
        Ok((store, taken))
    }
}

// Prints each hole by its first and its last byte.
fn print_holes(holes: &[Extent], line: &mut String) -> Result<(), AllocError> {
    line.push_str("holes")?;
    for hole in holes {
        let (first, last) = (hole.start, hole.end.wrapping_sub(1));
        write!(line, " {first}-{last}")?;
    }
    Ok(())
}

// The contracts of a wrapper and of a snapshot take most of a minute of a proof with several of them. Only the proofs of
// these functions see them.
fn wrapped(alloc: Global, memory: Memory, rng: ScriptedRng, config: Config) -> Wrapper<Memory> {
    Wrapper::new(alloc, memory, rng, config)
}

fn empty(alloc: Global) -> Wrapper<Memory> {
    let rng = ScriptedRng::new(Vec::new(alloc));
    wrapped(alloc, Memory::new(alloc), rng, Config::default())
}

fn unwrapped(wrapper: Wrapper<Memory>) -> (Memory, ScriptedRng, Config) {
    wrapper.into_inner()
}

fn rebuilt(mut memory: Memory) -> Memory {
    Memory::from_snapshot(memory.take_snapshot())
}

fn again(memory: Memory, is_rebuilt: bool) -> Memory {
    if is_rebuilt { rebuilt(memory) } else { memory }
}

impl WrapperPlace<Memory> {
    /// Takes the wrapper and leaves an empty one.
    pub fn take(&mut self) -> Wrapper<Memory> {
        mem::replace(&mut self.place.store, empty(self.alloc))
    }

    /// Sets the wrapper that the handles use from now on.
    pub fn put_back(&mut self, wrapper: Wrapper<Memory>) {
        self.place.store = wrapper;
    }

    // Takes the store out of its wrapper and wraps it again, with the same generator and configuration. If
    // `is_rebuilt`, rebuilds the store from a snapshot first. Handles stay. Returns how many words were taken so far.
    fn rewrap(&mut self, is_rebuilt: bool) -> Result<Found, Error> {
        let (memory, rng, config) = unwrapped(self.take());
        let memory = again(memory, is_rebuilt);
        let rng = self.next_generator(rng)?;
        self.put_back(wrapped(self.alloc, memory, rng, config));
        Ok(Found::Taken(self.given.wrapping_sub(self.left)))
    }

    // Returns a generator of the words that are left, and counts them.
    fn next_generator(&mut self, rng: ScriptedRng) -> Result<ScriptedRng, Error> {
        let left = words::left(self.alloc, rng, self.left)?.ok_or(Error::Closed)?;
        self.left = left.len();
        words::generator(left)
    }

    // Admits a name, which retires its pending entries.
    fn admit(&mut self, args: &Args<'_>) -> Result<Found, Error> {
        let _retired = self.place.store.admit(&args.partition, &args.name);
        Ok(done(()))
    }

    // Opens and admits a name.
    fn open_admitted(&mut self, args: &Args<'_>) -> Result<Found, Error> {
        let (blob, size) = self.place.store.open_admitted(&args.partition, &args.name)?;
        self.place.opened(blob, size, DEFAULT_BLOB_VERSION)
    }

    fn open_versioned_admitted(&mut self, args: &Args<'_>) -> Result<Found, Error> {
        let [first, last] = args.versions;
        if first > last {
            return Ok(Found::Told(Reply::EmptyRange));
        }
        let (blob, size, version) = self
            .place
            .store
            .open_versioned_admitted(&args.partition, &args.name, first..=last)?;
        self.place.opened(blob, size, version)
    }

    fn read_slice(&mut self, args: &mut Args<'_>) -> Result<Found, Error> {
        let [_, at, _, _] = args.numbers;
        let mut slice = args.take_bytes();
        let number = args.handle();
        let blob = self.place.blobs.get(number).ok_or(Error::Closed)?;
        blob.read_into(&mut self.place.store, at, &mut slice)?;
        Ok(bytes(slice))
    }

    // Returns the holes of a pending write, by its number.
    fn holes(&self, number: u64) -> Result<Found, Error> {
        let mut line = String::new(self.alloc);
        for list in self.place.store.pending() {
            for entry in &list.entries {
                match entry {
                    Entry::Write(write) if write.number == number => {
                        print_holes(&write.holes, &mut line)?;
                    }
                    _ => {}
                }
            }
        }
        Ok(Found::Text(line))
    }

    fn crash(&mut self) -> Result<Found, Error> {
        Ok(Found::Told(Reply::Crashed(self.place.store.crash()?)))
    }

    /// Runs a call of the wrapper over the memory store.
    pub fn call(&mut self, own: Own, args: &mut Args<'_>) -> Result<Found, Error> {
        match own {
            Own::Admit => self.admit(args),
            Own::OpenAdmitted => self.open_admitted(args),
            Own::OpenVersionedAdmitted => self.open_versioned_admitted(args),
            Own::ReadSlice => self.read_slice(args),
            Own::Crash => self.crash(),
            Own::Holes => self.holes(args.numbers[0]),
            Own::Rewrap => self.rewrap(false),
            Own::Rebuild => self.rewrap(true),
            _ => self.place.call_wrapper(own, args),
        }
    }

    /// Returns how many words were taken, at the end of a case.
    pub fn taken(&mut self) -> Result<Found, Error> {
        let (_memory, rng, _config) = unwrapped(self.take());
        Ok(Found::Taken(words::taken(self.alloc, rng, self.given, self.left)?))
    }
}
