//! The states that a crash leaves, each once.
ghost use Rattle.std.specs.Prelude.{◌≡◌, ◌≤◌, IfOk, OnErr, false};
ghost use Rattle.blob_header.specs.Refusals.{IsMemory};
ghost use Rattle.blob_lab_model.specs.States.{State};
ghost use Rattle.blob_lab_store.specs.LabStands.{LabStandsFor};
ghost use Rattle.blob_states.specs.CrashStates.{AreStatesOf};
ghost use Rattle.blob_states.specs.Recorded.{HaveEachFile, names_of};

use crate::visit::visit;
use blob_base::Error;
use blob_choices::laws::draws;
use blob_distinct::found::add;
use blob_distinct::limit::may_try;
use blob_lab_store::Lab;
use blob_tree::Explorer;
use indexmap::IndexMap;
use std::alloc::Global;

/// What a crash could have left: each state once, by the lines that set its files, with the words of a crash that leaves it.
#[derive(Drop)]
pub struct CrashStates {
    pub states: IndexMap<String, Vec<u64>>,
    /// The number of outcomes that were tried.
    pub outcomes: u64,
    /// Whether these are all outcomes.
    pub is_complete: bool,
}

/// Returns what a crash of the laboratory could leave of the files of these names. Tries at most `limit` outcomes. The laboratory
/// stays as it is.
///
/// The only error is `Memory`.
pub fn crash_states(
    alloc: Global,
    lab: &Lab,
    names: &[(String, Vec<u8>)],
    limit: u64,
) -> Result<CrashStates, Error>
    ensures left { IfOk result (λ found. (v : State) → LabStandsFor lab.now v → HaveEachFile (names_of names.now) v.files → AreStatesOf v found) }
    ensures within { IfOk result (λ found. found.outcomes ≤ limit) }
    ensures limit { IfOk result (λ found. found.is_complete ≡ false → found.outcomes ≡ limit) }
    ensures memory { OnErr result (IsMemory result) }
{
    draws();
    let mut explorer = Explorer::new(alloc);
    let mut spare = 64;
    let mut states = IndexMap::new(alloc);
    let mut outcomes = 0;
    let mut is_complete = false;
    'outcomes: while !is_complete && may_try(outcomes, limit) {
        let leaf = visit(alloc, lab, names, &explorer, &mut spare)?;
        let taken = leaf.words.len();
        add(&mut states, leaf.lines, leaf.words)?;
        outcomes += 1;
        is_complete = !explorer.advance(taken)?;
    }
    Ok(CrashStates {
        states,
        outcomes,
        is_complete,
    })
}
