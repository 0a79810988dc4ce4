// A choice of a run.
ghost use Rattle.std.specs.Prelude.{◌≡◌, ◌<◌, ◌-◌};
ghost use Rattle.blob_tree.specs.Traversals.{fits};

/// One of several branches. The first branch is 0.
#[repr(C)]
#[derive(Clone, Copy)]
pub struct Choice {
    /// What is chosen: `DRAW`, `DRAWN_SIZE`, or a number of the caller's.
    pub kind: u32,
    /// The branch that is taken.
    pub branch: u64,
    /// How many branches there are.
    pub among: u64,
}

/// A draw of the store: it is true in the first branch, and false in the second.
pub const DRAW: u32 = 0;
/// A draw of a size among several. The word that draws the one at index `k` of `n` is `k * 2^64 / n`, rounded up.
pub const DRAWN_SIZE: u32 = 3;

impl Choice {
    /// Returns whether this is a choice of the kind, among so many branches.
    pub fn fits(&self, kind: u32, among: u64) -> bool
        requires { 0 < among }
        ensures { result ≡ fits (kind, among - 1) self.now }
    {
        self.kind == kind && self.among == among && self.branch < self.among
    }
}
