//! The wrapper of a store.
ghost use Rattle.std.specs.Prelude.{◌≡◌};
ghost use Rattle.std.specs.Borrow.{sem};
ghost use Rattle.blob_faulty.specs.Lends.{LendsConfig, with_config, with_rng};
ghost use Rattle.blob_faulty.specs.Names.{Steps};
ghost use Rattle.blob_faulty.specs.New.{IsNew};
ghost use Rattle.blob_model.specs.Order.{ArePlacesApart};
ghost use Rattle.blob_model.specs.Rates.{sample};
ghost use Rattle.blob_pending.specs.Lists.{list_of, lists_of};
ghost use Rattle.blob_faulty.specs.Wrapper.{inner_of, rng_of, config_of, next_write_of, pending_of};

use blob_base::{Durable, Probability};
use blob_draws::config::Config;
use blob_pending::incarnation::Incarnation;
use blob_pending::lists::Lists;
use rand_core::Rng;
use std::alloc::{AllocError, Global};
use std::mem;

/// A store that fails by draws of a generator and records the mutations that a crash could still lose.
///
/// A call makes its draws before it calls the inner store, and returns `Injected` if a draw is true. An error of the inner store
/// is returned in place of `Injected`, and nothing is recorded. `Memory` changes nothing except the generator.
#[derive(Drop)]
pub struct Storage<S: Durable, R> {
    pub(crate) inner: S,
    pub(crate) rng: R,
    pub(crate) config: Config,
    pub(crate) lists: Lists<S>,
    pub(crate) next_write: u64,
    pub(crate) next_marker: u64,
    pub(crate) alloc: Global,
}

impl<S: Durable, R> Storage<S, R> {
    /// Wraps a store, with faults drawn from the generator. Nothing is pending. Writes and markers are numbered from 0.
    pub fn new(alloc: Global, inner: S, rng: R, config: Config) -> Storage<S, R>
        ensures { IsNew S.Durable inner rng config 0 0 result }
    {
        Storage::new_numbered(alloc, inner, rng, config, 0, 0)
    }

    /// Wraps a store as `new`, with writes and markers numbered from the given numbers on, so that a test can reach the last one.
    pub fn new_numbered(
        alloc: Global,
        inner: S,
        rng: R,
        config: Config,
        next_write: u64,
        next_marker: u64,
    ) -> Storage<S, R>
        ensures { IsNew S.Durable inner rng config next_write next_marker result }
    {
        Storage {
            inner,
            rng,
            config,
            lists: Lists::new(alloc),
            next_write,
            next_marker,
            alloc,
        }
    }

    /// Returns the inner store. Its durable bytes don't include pending writes.
    pub fn inner(&self) -> &S
        ensures { result.now ≡ inner_of self.now }
    {
        &self.inner
    }

    /// Returns the generator that the faults are drawn from.
    pub fn rng(&self) -> &R
        ensures { result.now ≡ rng_of self.now }
    {
        &self.rng
    }

    /// Returns the pending lists, in no order, one of an incarnation at most. Ended incarnations and empty lists may be among
    /// them, and a list may have a write that later durable ranges cover fully, and entries that a sync dropped
    /// (`Entry::is_left` is false for them).
    pub fn pending(&self) -> &[Incarnation<S::Origin>]
        ensures lists { list_of S.place result.now ≡ pending_of S.place self.now }
        ensures apart { ArePlacesApart (lists_of S.place result.now) }
    {
        self.lists.as_slice()
    }

    /// Returns the number of the next write that is recorded. Each one since then has this number or a greater one.
    pub fn next_write(&self) -> u64
        ensures { result ≡ next_write_of self.now }
    {
        self.next_write
    }

    /// Returns the fault rates, which may be changed at any time. A pending entry keeps the mode and rate of its issue.
    pub fn config(&mut self) -> &mut Config
        ensures* writes_back { sem 𝓛 (LendsConfig S.row R.row S.Origin.row S.Durable S.Origin.PartialEq self.entry result) }
        ensures value { result.now ≡ config_of self.old }
    {
        &mut self.config
    }

    /// Replaces only the fault rates. For a type with an invariant, which can't lend `config`.
    pub fn set_config(&mut self, config: Config)
        ensures set { self.new ≡ with_config self.old config }
        ensures files { Steps S.place S.directory S.durable self.old self.new (λ files. files) }
    {
        self.config = config;
    }

    /// Replaces the generator. The next draw is the first one from `rng`. The rest stays as it is.
    pub fn set_rng(&mut self, rng: R)
    where
        R: Drop,
        ensures set { self.new ≡ with_rng self.old rng }
        ensures files { Steps S.place S.directory S.durable self.old self.new (λ files. files) }
    {
        self.rng = rng;
    }

    /// Replaces the generator as `set_rng` does, and returns the one before.
    pub fn replace_rng(&mut self, rng: R) -> R
        ensures before { result ≡ rng_of self.old }
        ensures set { self.new ≡ with_rng self.old rng }
        ensures files { Steps S.place S.directory S.durable self.old self.new (λ files. files) }
    {
        mem::replace(&mut self.rng, rng)
    }

    /// Draws a rate once, as the calls of the wrapper do, and returns whether it is true. Nothing else changes.
    pub fn draw(&mut self, rate: Probability) -> bool
    where
        R: Rng,
        ensures drawn { (result, R.stream (rng_of self.new)) ≡ sample rate (R.stream (rng_of self.old)) }
        ensures set { self.new ≡ with_rng self.old (rng_of self.new) }
        ensures files { Steps S.place S.directory S.durable self.old self.new (λ files. files) }
    {
        rate.sample(&mut self.rng)
    }

    /// Returns the inner store, the generator and the configuration. Drops the pending lists.
    pub fn into_inner(self) -> (S, R, Config)
        ensures inner { result.0 ≡ inner_of self }
        ensures rng { result.1 ≡ rng_of self }
        ensures config { result.2 ≡ config_of self }
    {
        (self.inner, self.rng, self.config)
    }
}

impl<S: blob_base::Storage, R: Rng> Durable for Storage<S, R> {
    type Origin = S::Origin;

    ghost place = { λ origin. S.place origin };

    ghost directory = { λ s. S.directory s.inner };

    ghost durable = { λ s. S.durable s.inner };

    ghost same_origins = { S.same_origins };

    ghost one_origin = { S.one_origin };

    ghost currents = { λ s o. S.currents s.inner o };

    ghost given = { λ s o. S.given s.inner o };

    /// Returns whether the incarnation is its name's current one in the inner store.
    fn is_current(&self, origin: &S::Origin) -> bool {
        self.inner.is_current(origin)
    }

    /// Returns what the inner store returns.
    fn is_removed(&self, origin: &S::Origin, partition: &str, name: Option<&[u8]>) -> bool {
        self.inner.is_removed(origin, partition, name)
    }

    /// Returns the number of the incarnation.
    fn number_of(origin: &S::Origin) -> u64 {
        S::number_of(origin)
    }

    /// Returns the number of the name's current incarnation in the inner store, if it has one.
    fn current_number(&self, partition: &str, name: &[u8]) -> Option<u64> {
        self.inner.current_number(partition, name)
    }

    /// Returns the numbers of the partition's current incarnations in the inner store. The only error is out of memory.
    fn current_numbers(&self, partition: &str) -> Result<Vec<u64>, AllocError> {
        self.inner.current_numbers(partition)
    }
}
