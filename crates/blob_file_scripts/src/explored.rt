//! The distinct outcomes of a script of files.
ghost use Rattle.std.specs.Prelude.{◌≡◌, ◌≤◌, IfOk, IfSome, false, string_bytes};
ghost use Rattle.blob_file_scripts.specs.Explorations.{PrintsExploration};
ghost use Rattle.blob_file_scripts.specs.SharedLines.{Follows, IsShared, front_of, HasFound};

use crate::shared::Shared;
use blob_distinct::Explored;
use blob_distinct::explored::print_explored;
use blob_distinct::limit::may_try;
use blob_distinct::paths::{words_along, words_taken};
use blob_tree::Explorer;
use std::alloc::{AllocError, AllocFailed, Global};

/// Why a script of files can't be explored.
#[derive(Clone, Copy, Debug, PartialEq, Eq)]
pub enum RefusedFiles {
    /// The line with this number, from 1 on, isn't allowed: also words and a seed.
    BadLine(u64),
    NoMemory,
}

impl From<AllocError> for RefusedFiles {
    fn from(_error: AllocError) -> RefusedFiles {
        RefusedFiles::NoMemory
    }
}

impl<T: Drop> From<AllocFailed<T>> for RefusedFiles {
    fn from(_error: AllocFailed<T>) -> RefusedFiles {
        RefusedFiles::NoMemory
    }
}

/// The words that a run took, each 0 or the greatest word, and the text of its replies after that of the shared lines.
#[derive(Drop)]
struct Leaf {
    words: Vec<u64>,
    text: String,
}

/// Takes the lines after the shared ones along the explorer's path. Doubles `spare`, the number of zeros after the path, until the run
/// leaves some.
fn visit(
    alloc: Global,
    shared: &Shared<'_>,
    explorer: &Explorer,
    spare: &mut usize,
    last: bool,
) -> Result<Leaf, RefusedFiles>
    ensures { IfOk result (Follows shared.now last explorer.now) }
{
    for _ in 0..64 {
        match visit_within(alloc, shared, explorer, *spare, last)? {
            Some(leaf) => return Ok(leaf),
            None => *spare = spare.saturating_mul(2),
        }
    }
    Err(RefusedFiles::NoMemory)
}

/// Takes them with `spare` zeros after the words of the path. Returns `None` if the run took all of these words, so that it may have
/// needed more.
///
/// A run takes at least the words of its path, since the runs before it drew them. If a call was refused memory, it may take fewer: that
/// is `NoMemory`.
fn visit_within(
    alloc: Global,
    shared: &Shared<'_>,
    explorer: &Explorer,
    spare: usize,
    last: bool,
) -> Result<Option<Leaf>, RefusedFiles>
    ensures { IfOk result (λ found. IfSome found (Follows shared.now last explorer.now)) }
{
    let words = words_along(explorer, spare)?;
    let given = words.len();
    let (text, left) = shared.run(alloc, words, last)?;
    if left == 0 {
        return Ok(None);
    }
    if left - 1 > spare {
        return Err(RefusedFiles::NoMemory);
    }
    let words = words_taken(explorer, given.saturating_sub(left))?;
    Ok(Some(Leaf { words, text }))
}

/// Returns the text that each outcome begins with: the replies to the shared lines, or none if only the last reply is printed.
fn print_shared(alloc: Global, shared: &Shared<'_>, last: bool) -> Result<String, AllocError>
    ensures { IfOk result (λ text. string_bytes text ≡ front_of shared.now last) }
{
    if last {
        Ok(String::new(alloc))
    } else {
        shared.text.clone()
    }
}

/// Visits the leaves, at most `limit`.
fn visit_leaves(
    alloc: Global,
    shared: &Shared<'_>,
    limit: u64,
    last: bool,
) -> Result<Explored, RefusedFiles>
    ensures found { IfOk result (λ found. (script : _) → IsShared script last shared.now → HasFound script last found) }
    ensures within { IfOk result (λ found. found.leaves ≤ limit) }
    ensures limit { IfOk result (λ found. found.is_complete ≡ false → found.leaves ≡ limit) }
{
    let mut explorer = Explorer::new(alloc);
    let mut found = Explored::new(alloc, print_shared(alloc, shared, last)?);
    let mut spare = 64;
    'visits: while !found.is_complete && may_try(found.leaves, limit) {
        let leaf = visit(alloc, shared, &explorer, &mut spare, last)?;
        let taken = leaf.words.len();
        found.add(leaf.text, leaf.words)?;
        found.is_complete = !explorer.advance(taken)?;
    }
    Ok(found)
}

/// Runs a script of files once for each leaf of the tree of its draws, at most `limit` leaves, and prints its distinct outcomes: the
/// replies to all calls, or with `last` the reply to the last one. Lines that aren't replies begin with `#`.
///
/// The lines before the first draw are taken once, and each run starts from a fork of the files after them. Memory grows with the number
/// of distinct outcomes, not with that of leaves.
///
/// # Errors
///
/// `BadLine` of a line that isn't allowed, `NoMemory`. With the limit 0 no line is read.
pub fn explore_files(
    alloc: Global,
    script: &[u8],
    limit: u64,
    last: bool,
) -> Result<String, RefusedFiles>
    ensures { IfOk result (λ printed. PrintsExploration script.now limit last (string_bytes printed)) }
{
    if limit == 0 {
        let none = Explored::new(alloc, String::new(alloc));
        return Ok(print_explored(alloc, &none)?);
    }
    let shared = Shared::new(alloc, script, last)?;
    let found = visit_leaves(alloc, &shared, limit, last)?;
    Ok(print_explored(alloc, &found)?)
}
