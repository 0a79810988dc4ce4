// What was explored, as lines.
ghost use Rattle.std.specs.Prelude.{IfOk, IfErr, string_bytes};
ghost use Rattle.blob_explore.specs.Outcomes.{PrintsExploration};
ghost use Rattle.blob_explore.specs.RefusedLines.{IsRefused};

use crate::outcomes::explore;
use crate::script::{RefusedScript, read_script};
use blob_distinct::explored::print_explored;
use std::alloc::Global;

/// Explores a script without words and seed, at most `limit` leaves of it, and prints its distinct outcomes: the
/// replies to all calls, or with `last` the reply to the last call.
pub fn explore_text(
    alloc: Global,
    text: &[u8],
    limit: u64,
    last: bool,
) -> Result<String, RefusedScript>
    ensures text { IfOk result (λ printed. PrintsExploration text.now limit last (string_bytes printed)) }
    ensures refused { IfErr result (IsRefused text.now) }
{
    let script = read_script(alloc, text)?;
    let Ok(explored) = explore(alloc, script, limit, last) else {
        return Err(RefusedScript::NoMemory);
    };
    Ok(print_explored(alloc, &explored)?)
}
