// A crash along a path.
ghost use Rattle.std.specs.Prelude.{IfOk, IfSome, OnErr, string_bytes};
ghost use Rattle.blob_header.specs.Refusals.{IsMemory};
ghost use Rattle.blob_lab_model.specs.States.{State};
ghost use Rattle.blob_lab_store.specs.LabStands.{LabStandsFor};
ghost use Rattle.blob_states.specs.CrashStates.{Leaves, TakesPath};
ghost use Rattle.blob_states.specs.Recorded.{names_of};

use crate::images::image_lines;
use blob_base::Error;
use blob_choices::laws::taken_words;
use blob_distinct::paths::{words_along, words_taken};
use blob_lab_store::Lab;
use blob_tree::Explorer;
use std::alloc::{AllocError, Global};

/// The words that a crash took, each 0 or the greatest word, and the lines of the files that it left.
#[derive(Drop)]
pub struct Leaf {
    pub words: Vec<u64>,
    pub lines: String,
}

/// Crashes along the explorer's path. Doubles `spare`, the number of zeros after the path, until the crash leaves some.
///
/// The only error is `Memory`, also if a call was refused it.
pub(crate) fn visit(
    alloc: Global,
    lab: &Lab,
    names: &[(String, Vec<u8>)],
    explorer: &Explorer,
    spare: &mut usize,
) -> Result<Leaf, Error>
    ensures ok { IfOk result (λ leaf. (v : State) → LabStandsFor lab.now v → TakesPath v (names_of names.now) explorer.now leaf) }
    ensures memory { OnErr result (IsMemory result) }
{
    for _ in 0..64 {
        match visit_within(alloc, lab, names, explorer, *spare)? {
            Some(leaf) => return Ok(leaf),
            None => *spare = spare.saturating_mul(2),
        }
    }
    Err(Error::Memory(AllocError))
}

/// The same with `spare` zeros. Returns `None` if these weren't enough.
fn visit_within(
    alloc: Global,
    lab: &Lab,
    names: &[(String, Vec<u8>)],
    explorer: &Explorer,
    spare: usize,
) -> Result<Option<Leaf>, Error>
    ensures ok { IfOk result (λ found. IfSome found (λ leaf.
        (v : State) → LabStandsFor lab.now v → TakesPath v (names_of names.now) explorer.now leaf)) }
    ensures memory { OnErr result (IsMemory result) }
{
    taken_words();
    let words = words_along(explorer, spare)?;
    let given = words.len();
    let (lines, left) = crash_by(alloc, lab, names, words)?;
    match left {
        Some(left) if left > 0 => {
            let words = words_taken(explorer, given.saturating_sub(left))?;
            Ok(Some(Leaf { words, lines }))
        }
        _ => Ok(None),
    }
}

/// Returns the lines of the files of these names after a crash by these words and then zeros, and the number of words left.
fn crash_by(
    alloc: Global,
    lab: &Lab,
    names: &[(String, Vec<u8>)],
    words: Vec<u64>,
) -> Result<(String, Option<usize>), Error>
    ensures ok { IfOk result (λ left.
        (v : State) → LabStandsFor lab.now v → Leaves v (names_of names.now) words.items (string_bytes left.0) left.1) }
    ensures memory { OnErr result (IsMemory result) }
{
    let left = lab.crashed(words)?;
    let lines = image_lines(alloc, left.inner(), names)?;
    Ok((lines, left.rng().left()))
}
