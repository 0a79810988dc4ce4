//! The words that a laboratory's generator gives next, read without taking them.
ghost use Rattle.blob_lab_model.specs.Scripted.{next_of, scripted_stream};

use rand_core::utils::NextWord;
use rand_core::{Rng, utils};
use rand_xoshiro::Xoshiro256PlusPlus;
use std::marker::Model;

/// Gives the words that a `ScriptedRng` gives next, and leaves it as it is. It copies none of them.
#[derive(Drop)]
pub struct Ahead<'a> {
    pub(crate) words: &'a [u64],
    pub(crate) behind: Option<Xoshiro256PlusPlus>,
}

impl<'a> Model for Ahead<'a> {
    ghost use Rattle.blob_lab_model.specs.Scripted.{Left};

    ghost Value = { Left };

    ghost view = { λ ahead. (ahead.words.now, ahead.behind) };
}

impl<'a> NextWord<u64> for Ahead<'a> {
    ghost step = { next_of };

    fn next_word(&mut self) -> u64 {
        if let [word, rest @ ..] = self.words {
            self.words = rest;
            return *word;
        }
        match &mut self.behind {
            Some(rng) => rng.next_word(),
            None => 0,
        }
    }
}

impl<'a> Rng for Ahead<'a> {
    ghost stream = { scripted_stream };

    fn next_u32(&mut self) -> u32 {
        let word = self.next_word();
        (word % (1 << 32)) as u32
    }

    fn next_u64(&mut self) -> u64 {
        self.next_word()
    }

    fn fill_bytes(&mut self, dst: &mut [u8]) {
        utils::fill_bytes_via_u64(self, dst)
    }
}
