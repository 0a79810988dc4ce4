//! The words of a generator, and how many of them were taken.

use blob_base::Error;
use blob_lab_store::ScriptedRng;
use rand_core::Rng;
use std::alloc::Global;

// Follows the given words. None of them has this value.
const END: u64 = 0x656e_6420_776f_7264;

/// Returns a generator of these words.
pub fn generator(mut words: Vec<u64>) -> Result<ScriptedRng, Error> {
    words.push(END)?;
    Ok(ScriptedRng::new(words))
}

/// Returns the remaining words of a generator that had `had` words, or `None` if more were taken.
pub fn left(alloc: Global, mut rng: ScriptedRng, had: usize) -> Result<Option<Vec<u64>>, Error> {
    let mut words = Vec::new(alloc);
    for _ in 0..=had {
        let word = rng.next_u64();
        if word == END {
            return Ok(Some(words));
        }
        words.push(word)?;
    }
    Ok(None)
}

/// Returns how many of the `given` words were taken from a generator that last had `had` of them. If more than all were
/// taken, it is `given` + 1.
pub fn taken(alloc: Global, rng: ScriptedRng, given: usize, had: usize) -> Result<usize, Error> {
    Ok(match left(alloc, rng, had)? {
        Some(words) => given.wrapping_sub(words.len()),
        None => given.wrapping_add(1),
    })
}
