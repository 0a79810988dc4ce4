//! A depth-first traversal of a tree of choices, one run after another.
ghost use Rattle.std.specs.Prelude.{◌≡◌, ◌<◌, ◌≤◌, ◌+◌, ◌-◌, ◌∷◌, [], ◌&&◌, not, nat_le, take, length, false, true, if◌then◌else◌, IfNone, IfSome};
ghost use Rattle.blob_tree.specs.ChoiceTrees.{AdvancesTo, BeginsAtAll, branch_on, if_further, path_after};
ghost use Rattle.blob_tree.specs.Traversals.{IsFull, Makes, draws, draws_and_size, new_draws, path_ahead, path_below_root};

use crate::choice::{Choice, DRAW, DRAWN_SIZE};

/// How far a traversal is. The caller keeps the choices, in a list that is given to each call: those of the path, and those that
/// the run has made. All zeros are the first run of the whole tree.
///
/// A run follows the path, and then takes the first branch of each choice.
#[repr(C)]
#[derive(Clone, Copy)]
pub struct Traversal {
    /// How many choices of the path are kept: they name the subtree that is visited.
    pub root: usize,
    /// How many choices the path has.
    pub len: usize,
    /// How many choices the run has made.
    pub taken: usize,
    /// How many words the run was given.
    pub given: usize,
    /// How many of them were taken by draws that are counted.
    pub drawn: usize,
    /// Whether the path has another choice than the run has made.
    pub differs: bool,
}

impl Traversal {
    /// Starts at the first leaf of the whole tree.
    pub fn new() -> Traversal
        ensures path { result.len ≡ 0 }
        ensures first { BeginsAtAll }
    {
        Traversal {
            root: 0,
            len: 0,
            taken: 0,
            given: 0,
            drawn: 0,
            differs: false,
        }
    }

    /// Begins the run of the path, with this many words.
    pub fn begin(&mut self, given: usize)
        ensures { self.new ≡ record self.old { taken = 0; given = given; drawn = 0; differs = false } }
    {
        self.taken = 0;
        self.given = given;
        self.drawn = 0;
        self.differs = false;
    }

    /// Makes the next choice of the run, of a kind and among this many branches, and returns its branch.
    ///
    /// `None` if the list is full, with nothing changed.
    pub fn choose(&mut self, choices: &mut [Choice], kind: u32, among: u64) -> Option<u64>
        requires { 0 < among }
        ensures made { IfSome result (λ _. Makes ((kind, among - 1) ∷ []) self.old choices.old self.new choices.new) }
        ensures branch { IfSome result (λ branch. branch ≡ branch_on (among - 1) (path_ahead self.old choices.old)) }
        ensures drawn { self.new.drawn ≡ self.old.drawn }
        ensures full { IfNone result (IsFull 1 self.old choices.old) }
        ensures unchanged { IfNone result ((self.new ≡ self.old) × (choices.new ≡ choices.old)) }
    {
        if self.len > choices.len() || self.taken >= choices.len() {
            return None;
        }
        Some(self.make(choices, kind, among))
    }

    fn make(&mut self, choices: &mut [Choice], kind: u32, among: u64) -> u64
        requires some { 0 < among }
        requires path { self.old.len ≤ length choices.old }
        requires room { self.old.taken < length choices.old }
        ensures made { Makes ((kind, among - 1) ∷ []) self.old choices.old self.new choices.new }
        ensures branch { result ≡ branch_on (among - 1) (path_ahead self.old choices.old) }
        ensures drawn { self.new.drawn ≡ self.old.drawn }
        ensures len { length choices.new ≡ length choices.old }
    {
        let at = self.taken;
        self.taken += 1;
        if at >= self.len {
            choices[at] = Choice {
                kind,
                branch: 0,
                among,
            };
            return 0;
        }
        let planned = choices[at];
        if !planned.fits(kind, among) {
            self.differs = true;
        }
        planned.branch.min(among - 1)
    }

    /// Counts the draws of the calls up to here, after which `left` words are left: each is a choice of the run. Words that were
    /// inserted meanwhile aren't counted.
    ///
    /// Returns false if the list is too short for them, with nothing changed.
    pub fn count(&mut self, choices: &mut [Choice], left: usize) -> bool
        ensures made { result ≡ true → Makes (draws (new_draws self.old left)) self.old choices.old self.new choices.new }
        ensures drawn { result ≡ true → self.new.drawn ≡ self.old.drawn + new_draws self.old left }
        ensures full { result ≡ false → IsFull (new_draws self.old left) self.old choices.old }
        ensures unchanged { result ≡ false → (self.new ≡ self.old) × (choices.new ≡ choices.old) }
    {
        let more = self.new_draws(left);
        if self.is_full(choices, more) {
            return false;
        }
        self.make_draws(choices, more);
        self.drawn += more;
        true
    }

    /// Counts draws as `count` does, where the last one is that of a size among this many.
    ///
    /// Returns false if the list is too short for them, with nothing changed.
    pub fn count_size(&mut self, choices: &mut [Choice], left: usize, among: u64) -> bool
        requires { 0 < among }
        ensures made { result ≡ true
            → Makes (draws_and_size (new_draws self.old left) (among - 1)) self.old choices.old self.new choices.new }
        ensures drawn { result ≡ true → self.new.drawn ≡ self.old.drawn + new_draws self.old left }
        ensures full { result ≡ false → IsFull (new_draws self.old left) self.old choices.old }
        ensures unchanged { result ≡ false → (self.new ≡ self.old) × (choices.new ≡ choices.old) }
    {
        let more = self.new_draws(left);
        if self.is_full(choices, more) {
            return false;
        }
        if more == 0 {
            return true;
        }
        self.make_draws(choices, more - 1);
        self.make(choices, DRAWN_SIZE, among);
        self.drawn += more;
        true
    }

    /// Returns how many words were taken since the draws were counted, if `left` are left.
    fn new_draws(&self, left: usize) -> usize
        ensures { result ≡ new_draws self.now left }
    {
        self.given.saturating_sub(left).saturating_sub(self.drawn)
    }

    /// Returns whether the list is too short for the path, or for so many choices more.
    fn is_full(&self, choices: &[Choice], more: usize) -> bool
        ensures full { result ≡ true → IsFull more self.now choices.now }
        ensures path { result ≡ false → self.now.len ≤ length choices.now }
        ensures room { result ≡ false → self.now.taken + more ≤ length choices.now }
    {
        let room = choices.len();
        self.len > room || self.taken > room || more > room - self.taken
    }

    fn make_draws(&mut self, choices: &mut [Choice], count: usize)
        requires path { self.old.len ≤ length choices.old }
        requires room { self.old.taken + count ≤ length choices.old }
        ensures made { Makes (draws count) self.old choices.old self.new choices.new }
        ensures drawn { self.new.drawn ≡ self.old.drawn }
        ensures len { length choices.new ≡ length choices.old }
    {
        for _ in 0..count {
            self.make(choices, DRAW, 2);
        }
    }

    /// Ends the run. Returns whether it made the choices of the path, and no fewer; the path is then all choices that it made.
    pub fn end(&mut self) -> bool
        ensures followed { result ≡ (not self.old.differs && nat_le self.old.len self.old.taken) }
        ensures path { self.new ≡ (if result then record self.old { len = self.old.taken } else self.old) }
    {
        let followed = !self.differs && self.len <= self.taken;
        if followed {
            self.len = self.taken;
        }
        followed
    }

    /// Makes the path that of the next leaf below the root. Returns false if this was the last leaf.
    ///
    /// `None` if the list is shorter than the path, with nothing changed.
    pub fn next(&mut self, choices: &mut [Choice]) -> Option<bool>
        ensures next { IfSome result (λ more.
            path_after (path_below_root self.old choices.old) ≡ if_further more (path_below_root self.new choices.new)) }
        ensures leaves { IfSome result (λ more.
            AdvancesTo (path_below_root self.old choices.old) (if_further more (path_below_root self.new choices.new))) }
        ensures root { take self.old.root choices.new ≡ take self.old.root choices.old }
        ensures others { self.new ≡ record self.old { len = self.new.len } }
        ensures short { IfNone result (length choices.old < self.old.len) }
        ensures unchanged { IfNone result ((self.new ≡ self.old) × (choices.new ≡ choices.old)) }
    {
        if self.len > choices.len() {
            return None;
        }
        while self.len > self.root {
            let last = choices[self.len - 1];
            if last.branch < last.among.saturating_sub(1) {
                choices[self.len - 1] = Choice {
                    kind: last.kind,
                    branch: last.branch + 1,
                    among: last.among,
                };
                return Some(true);
            }
            self.len -= 1;
        }
        Some(false)
    }
}
