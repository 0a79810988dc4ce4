//! What a client in another language needs: descriptors by their numbers, and the generator.
ghost use Rattle.std.specs.Prelude.{◌≡◌};
ghost use Rattle.blob_fs.specs.States.{KeepsState};
ghost use Rattle.blob_fs.specs.Files.{descriptor_number, generator_of, with_generator};

use crate::file_system::{Descriptor, FileSystem};
use rand_core::Rng;

impl Descriptor {
    /// Returns the descriptor with this number. It is stale if no open file has it.
    pub fn numbered(number: u64) -> Descriptor
        ensures { descriptor_number result ≡ number }
    {
        Descriptor { number }
    }

    /// Returns its number. Numbers aren't used again, not after a crash either.
    pub fn number(self) -> u64
        ensures { result ≡ descriptor_number self }
    {
        self.number
    }
}

impl<R: Rng + Drop> FileSystem<R> {
    /// Returns the generator that the draws come from.
    pub fn rng(&self) -> &R
        ensures { result.now ≡ generator_of self.now }
    {
        self.store.rng()
    }

    /// Replaces the generator, and returns the one before. The next draw is the first one from `rng`.
    pub fn replace_rng(&mut self, rng: R) -> R
        ensures before { result ≡ generator_of self.old }
        ensures set { self.new ≡ with_generator self.old rng }
        ensures keeps { KeepsState self.old self.new }
    {
        self.store.replace_rng(rng)
    }
}
