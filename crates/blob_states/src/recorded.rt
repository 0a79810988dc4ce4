//! A recorded run.
ghost use Rattle.std.specs.Prelude.{◌≡◌, IfOk, OnErr};
ghost use Rattle.blob_header.specs.Refusals.{IsMemory};
ghost use Rattle.blob_script.specs.Preambles.{images_of, words_of};

use blob_base::Error;
use blob_distinct::images::copies;
use blob_script::Call;
use blob_script::script::Preamble;
use std::alloc::Global;

/// What lies in the store at first, the words and the seed of the run's draws, and its calls.
#[derive(Drop)]
pub struct Recorded {
    pub preamble: Preamble,
    pub calls: Vec<Call>,
}

/// Returns a copy of a preamble. The only error is `Memory`.
pub(crate) fn copy_of(alloc: Global, preamble: &Preamble) -> Result<Preamble, Error>
    ensures images { IfOk result (λ copy. images_of copy.images.items ≡ images_of preamble.now.images.items) }
    ensures words { IfOk result (λ copy. words_of copy ≡ words_of preamble.now) }
    ensures memory { OnErr result (IsMemory result) }
{
    let images = copies(alloc, &preamble.images)?;
    let words = Vec::from_slice(alloc, &preamble.words)?;
    Ok(Preamble {
        images,
        words,
        seed: preamble.seed,
    })
}
