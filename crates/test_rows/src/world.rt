//! All stores and registries of a case.

use crate::debts::Debts;
use crate::exclusive::Exclusive;
use crate::laboratory::Laboratory;
use crate::preamble::{Layer, Preamble};
use blob_base::{Error, IoBufs};
use blob_memory::Storage as Memory;
use std::alloc::Global;
use test_player::args::Args;
use test_player::calls::{self, Ask, Kept, Own};
use test_player::found::{Found, bytes, bytes_of, done};
use test_player::layers::Layers;
use test_player::memory_calls::MemoryPlace;
use test_player::wrapper_calls::WrapperPlace;
use test_player::{values, window};

/// The stores and registries of every layer, and a list of pieces.
pub struct World {
    alloc: Global,
    /// What calls work on.
    pub layer: Layer,
    pieces: IoBufs,
    memory: MemoryPlace,
    layers: Layers,
    exclusive: Exclusive,
    debts: Debts,
    laboratory: Laboratory,
}

impl World {
    /// Returns empty stores and registries, as a preamble requires.
    pub fn new(alloc: Global, preamble: &Preamble) -> Result<World, Error> {
        let words = Vec::from_slice(alloc, &preamble.words)?;
        let (next, next_marker) = (preamble.next, preamble.next_marker);
        let wrapper = WrapperPlace::new(alloc, Memory::new(alloc), words, (next, next_marker))?;
        let words = Vec::from_slice(alloc, &preamble.words)?;
        Ok(World {
            alloc,
            layer: preamble.layer,
            pieces: IoBufs::new(alloc),
            memory: MemoryPlace::starting_at(alloc, next),
            layers: Layers::new(alloc, wrapper),
            exclusive: Exclusive::new(alloc),
            debts: Debts::new(alloc),
            laboratory: Laboratory::new(alloc, words),
        })
    }

    /// Closes all that is open.
    pub fn end(self) {
        let World {
            alloc: _,
            layer: _,
            pieces: _,
            memory: _,
            layers: _,
            exclusive,
            debts,
            laboratory,
        } = self;
        exclusive.end();
        debts.end();
        laboratory.end();
    }

    // Returns the store with the durable bytes of the layer.
    fn store(&self) -> &Memory {
        match self.layer {
            Layer::Memory => &self.memory.place.store,
            _ => self.layers.memory(),
        }
    }

    fn call_of_kept(&mut self, kept: Kept, args: &mut Args<'_>) -> Result<Found, Error> {
        match kept {
            Kept::Push => self.pieces.push(args.take_bytes()).map(done),
            Kept::Pieces => self.pieces.copied()?.coalesce().map(bytes),
            Kept::Raw => self
                .store()
                .raw_blob(&args.partition, &args.name)
                .map(bytes_of),
            Kept::Logical => self
                .store()
                .logical_blob(&args.partition, &args.name)
                .map(bytes_of),
        }
    }

    fn call_of_layer(&mut self, own: Own, args: &mut Args<'_>) -> Result<Found, Error> {
        match self.layer {
            Layer::Memory => self.memory.call(own, args),
            Layer::Wrapper => self.layers.call(own, args),
            Layer::Opens => {
                let wrapper = &mut self.layers.below.place.store;
                self.exclusive.call(wrapper, own, args)
            }
            Layer::Laboratory => Err(Error::Closed),
        }
    }

    fn call(&mut self, ask: Ask, args: &mut Args<'_>) -> Result<Found, Error> {
        match ask {
            Ask::Value(value) => values::call(value, args),
            Ask::Kept(kept) => self.call_of_kept(kept, args),
            Ask::Own(own) => self.call_of_layer(own, args),
            Ask::Debt(debt) => self.debts.call(debt, args),
        }
    }

    // Reserves capacity for the results of a call, so that recording them doesn't allocate.
    fn make_room(&mut self) -> Result<(), Error> {
        self.memory.place.make_room()?;
        self.layers.below.place.make_room()?;
        self.exclusive.make_room()?;
        Ok(())
    }

    /// Runs the call of a line. Returns `Closed`, an error that no store returns, if it isn't a call. All allocations
    /// between the marks are the call's own.
    pub fn perform(&mut self, line: &str) -> Result<Found, Error> {
        if let Layer::Laboratory = self.layer {
            return self.laboratory.perform(line);
        }
        let (ask, mut args) = calls::read(self.alloc, line)?;
        self.make_room()?;
        window::begin(self.alloc);
        let found = self.call(ask, &mut args);
        window::end(self.alloc);
        found
    }

    /// Returns how many words of the wrapper over memory were taken, at the end of a case.
    pub fn taken(&mut self) -> Result<Found, Error> {
        self.layers.below.taken()
    }
}
