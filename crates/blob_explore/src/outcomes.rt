//! The distinct outcomes of a script.
ghost use Rattle.std.specs.Prelude.{◌≡◌, ◌≤◌, ◌-◌, ◌++◌, IfOk, OnErr, drop, false, length, string_bytes};
ghost use Rattle.blob_header.specs.Refusals.{IsMemory};
ghost use Rattle.blob_explore.specs.Explorations.{IsBegun, explored_script};
ghost use Rattle.blob_explore.specs.Outcomes.{IsExplored, replies_text, reply_lines, shared_text};

use crate::exploration::Exploration;
use crate::script::Script;
use blob_base::Error;
use blob_choices::laws::{every_run, outcomes};
pub use blob_distinct::Explored;
use blob_distinct::limit::may_try;
use blob_script::Reply;
use blob_script::script::print_reply;
use std::alloc::Global;

/// Explores a script, at most `limit` leaves of it. An outcome is the replies to all calls, a line each, or with
/// `last` the reply to the last call. Memory grows with the number of distinct outcomes, not with that of leaves.
///
/// The only error is `Memory`, also if a call was refused it.
pub fn explore(alloc: Global, script: Script, limit: u64, last: bool) -> Result<Explored, Error>
    ensures leaves { IfOk result (IsExplored script last) }
    ensures within { IfOk result (λ found. found.leaves ≤ limit) }
    ensures limit { IfOk result (λ found. found.is_complete ≡ false → found.leaves ≡ limit) }
    ensures memory { OnErr result (IsMemory result) }
{
    let mut exploration = Exploration::new(alloc, script)?;
    let found = visit_leaves(alloc, &mut exploration, limit, last);
    exploration.end();
    found
}

/// Visits the leaves of an exploration, at most `limit`.
fn visit_leaves(
    alloc: Global,
    exploration: &mut Exploration,
    limit: u64,
    last: bool,
) -> Result<Explored, Error>
    ensures leaves { IfOk result (λ found.
        IsBegun exploration.old → IsExplored (explored_script exploration.old) last found) }
    ensures within { IfOk result (λ found. found.leaves ≤ limit) }
    ensures limit { IfOk result (λ found. found.is_complete ≡ false → found.leaves ≡ limit) }
    ensures memory { OnErr result (IsMemory result) }
{
    outcomes();
    every_run();
    let shared = print_shared(alloc, exploration.shared(), last)?;
    let mut found = Explored::new(alloc, shared);
    'visits: while may_try(found.leaves, limit) {
        let Some(leaf) = exploration.next()? else {
            found.is_complete = true;
            return Ok(found);
        };
        let text = print_own(alloc, exploration.shared(), &leaf.replies, last)?;
        found.add(text, leaf.words)?;
    }
    found.is_complete = exploration.is_done();
    Ok(found)
}

/// Returns the lines of the shared replies, or none if only the last reply is printed.
fn print_shared(alloc: Global, shared: &[Reply], last: bool) -> Result<String, Error>
    ensures ok { IfOk result (λ text. string_bytes text ≡ shared_text last shared.now) }
    ensures memory { OnErr result (IsMemory result) }
{
    if last {
        Ok(String::new(alloc))
    } else {
        print_lines(alloc, shared)
    }
}

/// Returns the rest of a leaf's text: the lines of its own replies, or of the last reply.
fn print_own(
    alloc: Global,
    shared: &[Reply],
    replies: &[Reply],
    last: bool,
) -> Result<String, Error>
    ensures ok { IfOk result (λ text.
        replies_text last (shared.now ++ replies.now) ≡ shared_text last shared.now ++ string_bytes text) }
    ensures memory { OnErr result (IsMemory result) }
{
    if !last {
        print_lines(alloc, replies)
    } else if replies.is_empty() {
        print_lines(alloc, last_of(shared))
    } else {
        print_lines(alloc, last_of(replies))
    }
}

/// Returns the last reply alone, if there is one.
fn last_of(replies: &[Reply]) -> &[Reply]
    ensures { result.now ≡ drop (length replies.now - 1) replies.now }
{
    &replies[replies.len().saturating_sub(1)..]
}

/// Returns the lines of these replies.
fn print_lines(alloc: Global, replies: &[Reply]) -> Result<String, Error>
    ensures ok { IfOk result (λ text. string_bytes text ≡ reply_lines replies.now) }
    ensures memory { OnErr result (IsMemory result) }
{
    let mut text = String::new(alloc);
    for reply in replies {
        print_reply(reply, &mut text)?;
        text.push('\n')?;
    }
    Ok(text)
}
