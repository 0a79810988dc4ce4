//! The leaves of a script, one after another.
ghost use Rattle.std.specs.Prelude.{◌≡◌, ◌≢◌, [], None, IfOk, IfSome, IfNone, OnErr};
ghost use Rattle.std.specs.Bool.{OnFalse, OnTrue};
ghost use Rattle.blob_header.specs.Refusals.{IsMemory};
ghost use Rattle.blob_tree.specs.Trees.{DecisionTree};
ghost use Rattle.blob_explore.specs.Explorations.{IsBegun, VisitsNext, explored_script, remaining_leaves, path_of};
ghost use Rattle.blob_explore.specs.SharedCalls.{HasShared, shared_replies};

use crate::run::visit;
use crate::script::Script;
use crate::shared::Shared;
use blob_base::Error;
use blob_script::Reply;
use blob_tree::Explorer;
use std::alloc::Global;

/// The words that a run took, each 0 or the greatest word, and the replies to its calls after the shared ones.
#[derive(Drop)]
pub struct Leaf {
    pub words: Vec<u64>,
    pub replies: Vec<Reply>,
}

/// Runs the calls of a script once for each leaf of the decision tree of their draws, depth first.
///
/// The calls before the first one that draws are shared: they are made in one laboratory, and each run starts from a fork of it.
/// It keeps that laboratory and one path. So memory doesn't grow with the number of leaves.
///
/// It can't be dropped: call `end`.
pub struct Exploration {
    script: Script,
    shared: Shared,
    explorer: Explorer,
    /// The number of zeros that a run is given after the words of its path.
    spare: usize,
    is_done: bool,
}

impl Exploration {
    /// Starts before the first leaf. Makes the calls before the first one that draws.
    ///
    /// The only error is `Memory`, also if a call was refused it.
    pub fn new(alloc: Global, script: Script) -> Result<Exploration, Error>
        ensures script { IfOk result (λ begun. explored_script begun ≡ script) }
        ensures begun { IfOk result IsBegun }
        ensures memory { OnErr result (IsMemory result) }
    {
        let shared = Shared::new(alloc, &script)?;
        Ok(Exploration {
            script,
            shared,
            explorer: Explorer::new(alloc),
            spare: 64,
            is_done: false,
        })
    }

    /// Whether every leaf was visited.
    pub fn is_done(&self) -> bool
        ensures done { OnTrue result ((t : DecisionTree) → remaining_leaves self.now t ≡ []) }
        ensures more { OnFalse result (path_of self.now ≢ None) }
    {
        self.is_done
    }

    /// Returns the replies to the shared calls, the first ones of each run.
    pub fn shared(&self) -> &[Reply]
        ensures { result.now ≡ shared_replies self.now }
    {
        &self.shared.replies
    }

    /// Visits the next leaf: the first of those that are left. Returns `None` if none is left.
    ///
    /// The only error is `Memory`, also if a call was refused it. Then the same leaf is next.
    pub fn next(&mut self) -> Result<Option<Leaf>, Error>
        ensures leaf { IfOk result (λ found. IfSome found (λ leaf.
            HasShared self.old → VisitsNext self.old leaf self.new)) }
        ensures end { IfOk result (λ found. IfNone found ((path_of self.old ≡ None) × (path_of self.new ≡ None))) }
        ensures err { OnErr result (path_of self.new ≡ path_of self.old) }
        ensures memory { OnErr result (IsMemory result) }
        ensures script { explored_script self.new ≡ explored_script self.old }
        ensures shared { HasShared self.old → HasShared self.new }
        ensures replies { shared_replies self.new ≡ shared_replies self.old }
    {
        if self.is_done {
            return Ok(None);
        }
        let leaf = visit(&self.script, &self.shared, &self.explorer, &mut self.spare)?;
        let taken = leaf.words.len();
        let more = self.explorer.advance(taken)?;
        self.is_done = !more;
        Ok(Some(leaf))
    }

    /// Drops the laboratory of the shared calls. Allocates nothing.
    pub fn end(self) {
        let Exploration {
            script: _,
            shared,
            explorer: _,
            spare: _,
            is_done: _,
        } = self;
        shared.end();
    }
}
