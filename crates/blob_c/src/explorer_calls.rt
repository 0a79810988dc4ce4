//! Calls that take a run through a tree of choices, without a session. What a traversal is and does is `blob_tree`.
ghost use Rattle.std.specs.Prelude.{◌≡◌, ◌⊎◌, ◌-◌, ◌<◌, ◌≤◌, ◌∷◌, [], ◌&&◌, length, nat_le, not, take, false, true, if◌then◌else◌};
ghost use Rattle.blob_tree.specs.ChoiceTrees.{AdvancesTo, branch_on, if_further, path_after};
ghost use Rattle.blob_tree.specs.Traversals.{IsFull, Makes, draws, draws_and_size, new_draws, path_ahead, path_below_root};

use blob_sessions::ran::{BAD_CALL, DONE, NO_ROOM};
use blob_tree::{Choice, Traversal};

/// Which branch a choice takes.
#[repr(C)]
#[derive(Clone, Copy)]
pub struct Branch {
    /// `DONE`, `NO_ROOM` or `BAD_CALL`.
    pub status: u32,
    pub branch: u64,
}

/// Begins the run of the path, with this many words.
#[unsafe(no_mangle)]
pub extern "C" fn blobcrash_explorer_begin(explorer: &mut Traversal, given: usize)
    ensures { explorer.new ≡ record explorer.old { taken = 0; given = given; drawn = 0; differs = false } }
{
    explorer.begin(given)
}

/// Makes the next choice of the run: that of the path, or after its end the first branch.
///
/// `NO_ROOM` if the list is full, and `BAD_CALL` if there is no branch: nothing has changed.
#[unsafe(no_mangle)]
pub extern "C" fn blobcrash_explorer_choose(
    explorer: &mut Traversal,
    choices: &mut [Choice],
    kind: u32,
    among: u64,
) -> Branch
    ensures made { result.status ≡ DONE →
        Makes ((kind, among - 1) ∷ []) explorer.old choices.old explorer.new choices.new }
    ensures branch { result.status ≡ DONE → result.branch ≡ branch_on (among - 1) (path_ahead explorer.old choices.old) }
    ensures no_room { result.status ≡ NO_ROOM → IsFull 1 explorer.old choices.old }
    ensures bad_call { result.status ≡ BAD_CALL → among ≡ 0 }
    ensures unchanged { (result.status ≡ DONE) ⊎ ((explorer.new ≡ explorer.old) × (choices.new ≡ choices.old)) }
    ensures status { (result.status ≡ DONE) ⊎ (result.status ≡ NO_ROOM) ⊎ (result.status ≡ BAD_CALL) }
{
    if among == 0 {
        return Branch {
            status: BAD_CALL,
            branch: 0,
        };
    }
    match explorer.choose(choices, kind, among) {
        Some(branch) => Branch {
            status: DONE,
            branch,
        },
        None => Branch {
            status: NO_ROOM,
            branch: 0,
        },
    }
}

/// Makes the draws of the calls up to here choices of the run, where `left` words are left.
///
/// `NO_ROOM` if the list is too short for them, with nothing changed.
#[unsafe(no_mangle)]
pub extern "C" fn blobcrash_explorer_count(
    explorer: &mut Traversal,
    choices: &mut [Choice],
    left: usize,
) -> u32
    ensures made { result ≡ DONE →
        Makes (draws (new_draws explorer.old left)) explorer.old choices.old explorer.new choices.new }
    ensures no_room { result ≡ NO_ROOM → IsFull (new_draws explorer.old left) explorer.old choices.old }
    ensures unchanged { result ≡ NO_ROOM → (explorer.new ≡ explorer.old) × (choices.new ≡ choices.old) }
    ensures status { (result ≡ DONE) ⊎ (result ≡ NO_ROOM) }
{
    if explorer.count(choices, left) {
        DONE
    } else {
        NO_ROOM
    }
}

/// Makes draws choices as `blobcrash_explorer_count` does, where the last one is that of a size among this many.
///
/// `NO_ROOM` if the list is too short for them, and `BAD_CALL` if there is no size: nothing has changed.
#[unsafe(no_mangle)]
pub extern "C" fn blobcrash_explorer_count_size(
    explorer: &mut Traversal,
    choices: &mut [Choice],
    left: usize,
    among: u64,
) -> u32
    ensures made { result ≡ DONE → Makes
        (draws_and_size (new_draws explorer.old left) (among - 1)) explorer.old choices.old explorer.new choices.new }
    ensures no_room { result ≡ NO_ROOM → IsFull (new_draws explorer.old left) explorer.old choices.old }
    ensures bad_call { result ≡ BAD_CALL → among ≡ 0 }
    ensures unchanged { (result ≡ DONE) ⊎ ((explorer.new ≡ explorer.old) × (choices.new ≡ choices.old)) }
    ensures status { (result ≡ DONE) ⊎ (result ≡ NO_ROOM) ⊎ (result ≡ BAD_CALL) }
{
    if among == 0 {
        return BAD_CALL;
    }
    if explorer.count_size(choices, left, among) {
        DONE
    } else {
        NO_ROOM
    }
}

/// Ends the run. Returns whether it made the choices of the path, and no fewer: then all choices that it made are the path.
#[unsafe(no_mangle)]
pub extern "C" fn blobcrash_explorer_end(explorer: &mut Traversal) -> bool
    ensures followed { result ≡ (not explorer.old.differs && nat_le explorer.old.len explorer.old.taken) }
    ensures path { explorer.new ≡ (if result then record explorer.old { len = explorer.old.taken } else explorer.old) }
{
    explorer.end()
}

/// Makes the path that of the next leaf below the root. Returns false if this was the last one, or, with nothing changed, if the
/// list is shorter than the path.
#[unsafe(no_mangle)]
pub extern "C" fn blobcrash_explorer_next(explorer: &mut Traversal, choices: &mut [Choice]) -> bool
    ensures next { explorer.old.len ≤ length choices.old →
        path_after (path_below_root explorer.old choices.old) ≡ if_further result (path_below_root explorer.new choices.new) }
    ensures leaves { explorer.old.len ≤ length choices.old →
        AdvancesTo (path_below_root explorer.old choices.old) (if_further result (path_below_root explorer.new choices.new)) }
    ensures root { take explorer.old.root choices.new ≡ take explorer.old.root choices.old }
    ensures short { length choices.old < explorer.old.len → (result ≡ false) × (choices.new ≡ choices.old) }
    ensures others { explorer.new ≡ record explorer.old { len = explorer.new.len } }
{
    if explorer.len > choices.len() {
        return false;
    }
    explorer.next(choices).unwrap_or(false)
}
