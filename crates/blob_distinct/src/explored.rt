//! What an exploration found, and its text.
ghost use Rattle.std.specs.Prelude.{◌≡◌, ◌<◌, ◌+◌, ◌-◌, ◌^◌, [], IfOk, OnOk, false, string_bytes};
ghost use Rattle.blob_distinct.specs.Distinct.{behind, distinct};
ghost use Rattle.blob_distinct.specs.Explored.{Counts, HasCounted};
ghost use Rattle.blob_distinct.specs.Printed.{Appends, explored_text, found_text, last_line};
ghost use Rattle.blob_distinct.specs.Printed.{leaves_text, outcome_text, words_text};

use crate::limit::limit_text;
use crate::tally::{Outcome, tally};
use crate::words::{noun, print_words};
use indexmap::IndexMap;
use std::alloc::{AllocError, Global};

/// What an exploration found: each distinct outcome, in the order of their first leaves, and the number of leaves.
#[derive(Drop)]
pub struct Explored {
    /// The text that each outcome begins with: the replies to the shared calls, a line each. Empty if an outcome is the last reply.
    pub shared: String,
    /// Each outcome by its text after the shared one.
    pub outcomes: IndexMap<String, Outcome>,
    pub leaves: u64,
    /// Whether these are all leaves.
    pub is_complete: bool,
}

impl Explored {
    /// Starts with no leaf.
    pub fn new(alloc: Global, shared: String) -> Explored
        ensures none { HasCounted result [] }
        ensures shared { string_bytes result.shared ≡ string_bytes shared }
        ensures more { result.is_complete ≡ false }
    {
        Explored {
            shared,
            outcomes: IndexMap::new(alloc),
            leaves: 0,
            is_complete: false,
        }
    }

    /// Counts a leaf by its text after the shared one and its words. The only error is a refused allocation.
    pub fn add(&mut self, text: String, words: Vec<u64>) -> Result<(), AllocError>
        ensures counts { OnOk result (Counts self.old words.items (string_bytes text) self.new) }
        ensures leaves { OnOk result (self.old.leaves < 2 ^ 64 - 1 → self.new.leaves ≡ self.old.leaves + 1) }
        ensures shared { string_bytes self.new.shared ≡ string_bytes self.old.shared }
    {
        tally(&mut self.outcomes, text, words)?;
        self.leaves = self.leaves.saturating_add(1);
        Ok(())
    }
}

/// Prints each outcome in the order of its first leaf, after a line with the number of its leaves and the words of the
/// first. The last line is the number of leaves and whether these are all. The lines that aren't replies begin with
/// `#`.
pub fn print_explored(alloc: Global, explored: &Explored) -> Result<String, AllocError>
    ensures { IfOk result (λ text. string_bytes text ≡ explored_text explored.now) }
{
    let mut printed = String::new(alloc);
    for (text, outcome) in &explored.outcomes {
        print_outcome(
            explored.shared.as_str(),
            text.as_str(),
            outcome,
            &mut printed,
        )?;
    }
    print_end(explored, &mut printed)?;
    Ok(printed)
}

/// Prints the last line.
fn print_end(explored: &Explored, printed: &mut String) -> Result<(), AllocError>
    ensures { OnOk result (Appends printed.old printed.new (last_line explored.now)) }
{
    print_leaves(explored.leaves, printed)?;
    let count = explored.outcomes.len() as u64;
    print_found(count, explored.is_complete, printed)
}

/// Prints whether these are all leaves, and the number of outcomes.
fn print_found(count: u64, is_complete: bool, printed: &mut String) -> Result<(), AllocError>
    ensures { OnOk result (Appends printed.old printed.new (found_text count is_complete)) }
{
    let all = limit_text(is_complete);
    let outcomes = noun(count, "outcome", "outcomes");
    write!(printed, ", {all}; {count} {outcomes}\n")
}

fn print_outcome(
    shared: &str,
    text: &str,
    outcome: &Outcome,
    printed: &mut String,
) -> Result<(), AllocError>
    ensures { OnOk result (Appends printed.old printed.new
        (outcome_text (behind shared.now (distinct text.now outcome.now)))) }
{
    print_leaves(outcome.leaves, printed)?;
    print_first(&outcome.words, printed)?;
    printed.push('\n')?;
    printed.push_str(shared)?;
    printed.push_str(text)
}

/// Prints the words of an outcome's first leaf.
fn print_first(words: &[u64], printed: &mut String) -> Result<(), AllocError>
    ensures { OnOk result (Appends printed.old printed.new (words_text words.now)) }
{
    if words.is_empty() {
        return printed.push_str(", which draws no words");
    }
    printed.push_str(", first: words")?;
    print_words(words, printed)
}

fn print_leaves(leaves: u64, printed: &mut String) -> Result<(), AllocError>
    ensures { OnOk result (Appends printed.old printed.new (leaves_text leaves)) }
{
    let noun = noun(leaves, "leaf", "leaves");
    write!(printed, "# {leaves} {noun}")
}
