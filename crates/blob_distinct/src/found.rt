//! The distinct states so far.
ghost use Rattle.std.specs.Prelude.{◌≡◌, OnOk, OnErr, string_bytes};
ghost use Rattle.blob_distinct.specs.Found.{left_by, states_in, with_state};

use indexmap::IndexMap;
use std::alloc::AllocError;

/// Adds a state by its lines, with words that lead to it, unless it exists. The only error is a refused allocation.
pub fn add(
    states: &mut IndexMap<String, Vec<u64>>,
    lines: String,
    words: Vec<u64>,
) -> Result<(), AllocError>
    ensures { OnOk result (states_in states.new ≡ with_state (states_in states.old) (left_by words.items (string_bytes lines))) }
{
    if states.contains_key(lines.as_str()) {
        return Ok(());
    }
    states.insert(lines, words)?;
    Ok(())
}
