// One run of the calls along a path.
ghost use Rattle.std.specs.Prelude.{IfOk, IfSome, OnErr};
ghost use Rattle.blob_header.specs.Refusals.{IsMemory};
ghost use Rattle.blob_explore.specs.Explorations.{Follows};

use crate::exploration::Leaf;
use crate::script::Script;
use crate::shared::Shared;
use blob_base::Error;
use blob_choices::laws::taken_words;
use blob_distinct::paths::{words_along, words_taken};
use blob_distinct::short::is_short;
use blob_tree::Explorer;
use std::alloc::AllocError;

/// Runs the calls after the shared ones along the explorer's path. Doubles `spare`, the number of zeros after the path, until the
/// run leaves some.
pub(crate) fn visit(
    script: &Script,
    shared: &Shared,
    explorer: &Explorer,
    spare: &mut usize,
) -> Result<Leaf, Error>
    ensures ok { IfOk result (Follows script.now shared.now explorer.now) }
    ensures memory { OnErr result (IsMemory result) }
{
    for _ in 0..64 {
        match visit_within(script, shared, explorer, *spare)? {
            Some(leaf) => return Ok(leaf),
            None => *spare = spare.saturating_mul(2),
        }
    }
    Err(Error::Memory(AllocError))
}

/// The same with `spare` zeros. Returns `None` if these weren't enough.
fn visit_within(
    script: &Script,
    shared: &Shared,
    explorer: &Explorer,
    spare: usize,
) -> Result<Option<Leaf>, Error>
    ensures ok { IfOk result (λ found. IfSome found (Follows script.now shared.now explorer.now)) }
    ensures memory { OnErr result (IsMemory result) }
{
    taken_words();
    let words = words_along(explorer, spare)?;
    let given = words.len();
    let (replies, left) = shared.run(script, words)?;
    if is_short(&replies) {
        return Err(Error::Memory(AllocError));
    }
    match left {
        Some(left) if left > 0 => {
            let words = words_taken(explorer, given.saturating_sub(left))?;
            Ok(Some(Leaf { words, replies }))
        }
        _ => Ok(None),
    }
}
