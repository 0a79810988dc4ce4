//! The leaves of a decision tree, one after another.
ghost use Rattle.std.specs.Prelude.{◌≡◌, [], IfOk, OnErr, true};
ghost use Rattle.blob_tree.specs.Trees.{Advances, BeginsAtFirst, extend_path, if_more, next_path, words_of};

use std::alloc::{AllocError, Global};
use std::marker::Model;

/// A path of a decision tree: the outcomes of a run's first draws. The draws after them are true.
///
/// An exploration runs the words of the path, counts the draws of the run, and advances by that number. It visits each leaf
/// once, depth first. The explorer knows nothing of the tree, and keeps one path.
#[derive(Drop)]
pub struct Explorer {
    path: Vec<bool>,
    alloc: Global,
}

impl Model for Explorer {
    ghost use Rattle.std.specs.Prelude.{Bool, List};

    ghost Value = { List Bool };

    ghost view = { λ e. e.path.items };
}

impl Explorer {
    /// Starts at the first leaf, where every draw is true. Allocates nothing.
    pub fn new(alloc: Global) -> Explorer
        ensures path { result ≡ [] }
        ensures first { BeginsAtFirst }
    {
        Explorer {
            path: Vec::new(alloc),
            alloc,
        }
    }

    /// Returns the words of the path: 0 for a draw that is true, the greatest word for one that is false. A generator that gives
    /// these and then zeros leads to the leaf.
    ///
    /// The only error is a failed allocation.
    pub fn words(&self) -> Result<Vec<u64>, AllocError>
        ensures { IfOk result (λ words. words.items ≡ words_of self.now) }
    {
        let mut words = Vec::with_capacity(self.alloc, self.path.len())?;
        for outcome in &self.path {
            let word = if *outcome { 0 } else { u64::MAX };
            words.push(word).unwrap();
        }
        Ok(words)
    }

    /// Advances to the next leaf, after a run that made `taken` draws. Returns false if this was the last leaf.
    ///
    /// The only error is a failed allocation, with nothing changed.
    pub fn advance(&mut self, taken: usize) -> Result<bool, AllocError>
        ensures next { IfOk result (λ more. next_path (extend_path taken self.old) ≡ if_more more self.new) }
        ensures leaves { IfOk result (λ more. Advances self.old taken (if_more more self.new)) }
        ensures err { OnErr result (self.new ≡ self.old) }
    {
        self.extend(taken)?;
        Ok(self.turn())
    }

    fn extend(&mut self, taken: usize) -> Result<(), AllocError>
        ensures ok { IfOk result (λ _. self.new ≡ extend_path taken self.old) }
        ensures err { OnErr result (self.new ≡ self.old) }
    {
        self.path.resize(taken, true)
    }

    fn turn(&mut self) -> bool
        ensures { next_path self.old ≡ if_more result self.new }
    {
        while let Some(outcome) = self.path.pop() {
            if outcome {
                self.path.push(false).unwrap();
                return true;
            }
        }
        false
    }
}
