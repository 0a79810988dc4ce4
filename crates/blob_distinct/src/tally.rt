//! The distinct outcomes so far.
ghost use Rattle.std.specs.Prelude.{OnOk, string_bytes};
ghost use Rattle.blob_distinct.specs.Distinct.{AddsLeaf, leaf_text};

use indexmap::IndexMap;
use std::alloc::AllocError;

/// How many leaves have an outcome, and the words of the first of them.
#[derive(Drop)]
pub struct Outcome {
    /// The number of leaves.
    pub leaves: u64,
    /// The words of the first leaf.
    pub words: Vec<u64>,
}

/// Counts a leaf with this text and these words.
pub fn tally(
    outcomes: &mut IndexMap<String, Outcome>,
    text: String,
    words: Vec<u64>,
) -> Result<(), AllocError>
    ensures { OnOk result (AddsLeaf outcomes.old outcomes.new (leaf_text words.items (string_bytes text))) }
{
    if let Some(outcome) = outcomes.get_mut(text.as_str()) {
        outcome.leaves = outcome.leaves.saturating_add(1);
        return Ok(());
    }
    outcomes.insert(text, Outcome { leaves: 1, words })?;
    Ok(())
}
