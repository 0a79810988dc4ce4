ghost use Rattle.std.specs.Prelude.{◌≡◌, ◌≢◌, [], None};
ghost use Rattle.std.specs.Bool.{OnFalse, OnTrue};
ghost use Rattle.blob_script.specs.Preambles.{only, words_of};

use std::alloc::Global;

/// What the lines before the first call give.
#[derive(Drop)]
pub struct Preamble {
    /// Raw images that the store starts with: partition, name and bytes.
    pub images: Vec<(String, Vec<u8>, Vec<u8>)>,
    /// The first words of the generator.
    pub words: Vec<u64>,
    /// The seed of the words after them.
    pub seed: Option<u64>,
}

impl Preamble {
    /// Returns a preamble without images, words and seed.
    pub fn new(alloc: Global) -> Preamble
        ensures images { result.images.items ≡ [] }
        ensures words { result.words.items ≡ [] }
        ensures seed { result.seed ≡ None }
    {
        Preamble {
            images: Vec::new(alloc),
            words: Vec::new(alloc),
            seed: None,
        }
    }
    /// Returns whether there are words or a seed.
    pub fn has_words(&self) -> bool
        ensures none { OnFalse result (words_of self.now ≡ only []) }
        ensures some { OnTrue result (words_of self.now ≢ only []) }
    {
        !self.words.is_empty() || self.seed.is_some()
    }
}
