//! The words of a run along a path, and those that it took.
ghost use Rattle.std.specs.Prelude.{◌≡◌, ◌+◌, IfOk, length};
ghost use Rattle.blob_tree.specs.Trees.{extend_path, words_of};
ghost use Rattle.blob_choices.specs.Explored.{sentinel_words};

use blob_tree::Explorer;
use std::alloc::AllocError;

/// Returns the words of the explorer's path, `spare` zeros for more draws, and a last word that isn't zero. If a run leaves that
/// word, the number of words left says how many it took.
///
/// The only error is a refused allocation.
pub fn words_along(explorer: &Explorer, spare: usize) -> Result<Vec<u64>, AllocError>
    ensures words { IfOk result (λ words. words.items ≡ sentinel_words explorer.now spare) }
    ensures len { IfOk result (λ words. length words.items ≡ length explorer.now + spare + 1) }
{
    let mut words = explorer.words()?;
    let Some(len) = words.len().checked_add(spare) else {
        return Err(AllocError);
    };
    words.resize(len, 0)?;
    words.push(u64::MAX)?;
    Ok(words)
}

/// Returns the words that a run along the explorer's path took, if it made `taken` draws. The draws after the path are true.
///
/// The only error is a refused allocation.
pub fn words_taken(explorer: &Explorer, taken: usize) -> Result<Vec<u64>, AllocError>
    ensures { IfOk result (λ words. words.items ≡ words_of (extend_path taken explorer.now)) }
{
    let mut words = explorer.words()?;
    words.resize(taken, 0)?;
    Ok(words)
}
