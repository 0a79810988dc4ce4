//! A generator with given first words.
ghost use Rattle.std.specs.Prelude.{◌≡◌, ◌≤◌, ◌++◌, IfOk, IfSome, OnErr, OnOk, drop, is_none, is_some, vec_len};
ghost use Rattle.blob_tree.specs.WordsLeft.{EndsAfter};
ghost use Rattle.blob_lab_model.specs.Scripted.{next_of, scripted_stream};
ghost use Rattle.rand_xoshiro.specs.SplitMix64.{splitmix_seed};
ghost use Rattle.rand_xoshiro.specs.Xoshiro256.{of_seed};

use crate::ahead::Ahead;
use rand_core::utils::NextWord;
use rand_core::{Rng, SeedableRng, utils};
use rand_xoshiro::Xoshiro256PlusPlus;
use std::alloc::AllocError;
use std::marker::Model;

/// Returns the given words in order, and then zeros or the words of a seed.
///
/// `next_u32` takes one word and returns its low 32 bits. `fill_bytes` takes a word for each 8 bytes, little-endian.
#[derive(Drop)]
pub struct ScriptedRng {
    words: Vec<u64>,
    at: usize,
    behind: Option<Xoshiro256PlusPlus>,
}

impl Model for ScriptedRng {
    ghost use Rattle.std.specs.Prelude.{drop, length, ◌≤◌};
    ghost use Rattle.blob_lab_model.specs.Scripted.{Left};

    ghost Value = { Left };

    ghost view = { λ rng. (drop rng.at rng.words.items, rng.behind) };

    ghost invariant = { λ rng. rng.at ≤ length rng.words.items };
}

/// Puts words before those from index `at` on, over the ones that were taken. Returns the index of the first. If there is too little
/// space, it makes as much as all of them take, so that the cost of a word doesn't grow with their number. After an error nothing
/// has changed.
fn put_before(all: &mut Vec<u64>, at: usize, words: &[u64]) -> Result<usize, AllocError>
    requires { at ≤ vec_len all.old }
    ensures ok { IfOk result (λ start. drop start all.new.items ≡ words.now ++ drop at all.old.items) }
    ensures inside { IfOk result (λ start. start ≤ vec_len all.new) }
    ensures err { OnErr result (all.new.items ≡ all.old.items) }
{
    if at >= words.len() {
        let start = at - words.len();
        all[start..at].copy_from_slice(words);
        return Ok(start);
    }
    let left = &all[at..];
    let start = words.len().saturating_add(left.len());
    let mut more = Vec::with_capacity(*all.allocator(), start.saturating_mul(2))?;
    more.resize(start, 0)?;
    more.extend_from_slice(words)?;
    more.extend_from_slice(left)?;
    *all = more;
    Ok(start)
}

impl ScriptedRng {
    /// Returns a generator of these words, followed by zeros.
    pub fn new(words: Vec<u64>) -> ScriptedRng
        ensures { result ≡ (words.items, None) }
    {
        ScriptedRng {
            words,
            at: 0,
            behind: None,
        }
    }

    /// Returns a generator of the words that come next, which takes none of them from this one.
    pub fn ahead(&self) -> Result<Ahead<'_>, AllocError>
        ensures { IfOk result (λ ahead. ahead ≡ self.now) }
    {
        let behind = match &self.behind {
            None => None,
            Some(rng) => Some(rng.clone()?),
        };
        Ok(Ahead {
            words: &self.words[self.at..],
            behind,
        })
    }

    /// Returns a generator of the words that come next, which has a copy of those that were given.
    pub fn copy(&self) -> Result<ScriptedRng, AllocError>
        ensures { IfOk result (λ copy. copy ≡ self.now) }
    {
        let behind = match &self.behind {
            None => None,
            Some(rng) => Some(rng.clone()?),
        };
        let words = Vec::from_slice(*self.words.allocator(), &self.words[self.at..])?;
        Ok(ScriptedRng {
            words,
            at: 0,
            behind,
        })
    }

    /// Returns a generator of these words, followed by those of `Xoshiro256PlusPlus::seed_from_u64`.
    pub fn seeded(words: Vec<u64>, seed: u64) -> ScriptedRng
        ensures { result ≡ (words.items, Some (of_seed (splitmix_seed 32 seed))) }
    {
        ScriptedRng {
            words,
            at: 0,
            behind: Some(Xoshiro256PlusPlus::seed_from_u64(seed)),
        }
    }

    /// Returns how many words are left, up to the last given word that isn't zero. `None` if a seed gives the words after them.
    pub fn left(&self) -> Option<usize>
        ensures left { IfSome result (λ n. EndsAfter (scripted_stream self.now) n) }
        ensures none { is_some result ≡ is_none self.now.1 }
    {
        if self.behind.is_some() {
            return None;
        }
        let mut end = self.words.len();
        while self.at < end && self.words[end - 1] == 0 {
            end -= 1;
        }
        Some(end - self.at)
    }

    /// Inserts words before those that it gives next. After an error it is unchanged.
    pub fn push_words(&mut self, words: &[u64]) -> Result<(), AllocError>
        ensures ok { OnOk result (self.new ≡ (words.now ++ self.old.0, self.old.1)) }
        ensures err { OnErr result (self.new ≡ self.old) }
    {
        self.at = put_before(&mut self.words, self.at, words)?;
        Ok(())
    }
}

impl NextWord<u64> for ScriptedRng {
    ghost step = { next_of };

    fn next_word(&mut self) -> u64 {
        if self.at < self.words.len() {
            let word = self.words[self.at];
            self.at += 1;
            return word;
        }
        match &mut self.behind {
            Some(rng) => rng.next_word(),
            None => 0,
        }
    }
}

impl Rng for ScriptedRng {
    ghost stream = { scripted_stream };

    fn next_u32(&mut self) -> u32 {
        let word = self.next_word();
        (word % (1 << 32)) as u32
    }

    fn next_u64(&mut self) -> u64 {
        self.next_word()
    }

    fn fill_bytes(&mut self, dst: &mut [u8]) {
        utils::fill_bytes_via_u64(self, dst)
    }
}
