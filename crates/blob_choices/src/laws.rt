//! Two words suffice to explore every run. Each law is the contract of a function that does nothing.

ghost use Rattle.std.specs.Prelude.{ℕ, List, Option};
ghost use Rattle.blob_model.specs.Draws.{draw_rows, positions};
ghost use Rattle.blob_model.specs.Log.{Need};
ghost use Rattle.blob_model.specs.Rates.{Rate, sample};
ghost use Rattle.blob_model.specs.declared.mode.PartialWriteMode.{PartialWriteMode};
ghost use Rattle.blob_choices.specs.Decided.{IsDecided};
ghost use Rattle.blob_choices.specs.Explored.{LeavesAreAllRuns, LeavesHoldEveryRun, LeftCountsTaken, SeedsHaveU64Words};
ghost use Rattle.blob_choices.specs.Sizes.{SizesHaveWords};
ghost use Rattle.blob_choices.specs.TwoWords.{CallsAreDecided, RunsAreDecided, TwoWordsSuffice};

/// A decision tree describes one draw of a rate, the draws of one write, and those of a crash.
pub fn draws()
    ensures one { (rate : Rate) → IsDecided (sample rate) }
    ensures write { (mode : PartialWriteMode) (rate : Rate) (o n : ℕ) → IsDecided (positions mode rate o n) }
    ensures crash { (needs : List Need) → IsDecided (λ s. draw_rows s needs) }
{}

/// Without partial resizes, a decision tree describes each call and each run of calls: the replies and the state after them.
pub fn outcomes()
    ensures call { CallsAreDecided }
    ensures run { RunsAreDecided }
{}

/// Without partial resizes, each run over 64-bit words is one over 0 and the greatest word alone, with the same replies and the
/// same state, unless a call fails to allocate.
pub fn two_words()
    ensures { TwoWordsSuffice }
{}

/// The number of words that are left after a run gives the number that it took, if the last given word isn't zero and is still left.
/// The run is that of a leaf.
pub fn taken_words()
    ensures { LeftCountsTaken }
{}

/// In a tree that decides a run, each run over 64-bit words takes the words of a leaf, unless a call fails to allocate.
pub fn leaves()
    ensures { LeavesAreAllRuns }
{}

/// Each run over 64-bit words is that of a leaf of a decision tree, unless a call fails to allocate.
pub fn every_run()
    ensures { LeavesHoldEveryRun }
{}

/// The words of a seed fit in 64 bits, so that each run of a seed is among the leaves too.
pub fn seeds()
    ensures { SeedsHaveU64Words }
{}

/// Each size that a partial resize may reach has words that draw it: one word, if there are at most 2^63 sizes. No draw
/// returns another size.
pub fn sizes()
    ensures { SizesHaveWords }
{}
