//! A whole script that is explained, for C.
ghost use Rattle.std.specs.Prelude.{◌≡◌, ◌⊎◌, ◌<◌, ◌≤◌, ℕ, take, drop, length};
ghost use Rattle.blob_c.specs.Explanations.{ExplainsUntil, ExplainsWhole, NeedsRoom};
ghost use Rattle.blob_sessions.specs.WholeScripts.{IsRunStatus};

use blob_explain::{explain_script, explain_script_as_json};
use blob_lab::{Ending, Input, Output};
use blob_sessions::ran::{BAD_LINE, DONE, ENDLESS, NO_MEMORY, NO_ROOM};
use blob_sessions::{ScriptRan, script};
use std::alloc::Global;

/// Runs a script, and writes what `blobcrash explain` prints to the start of `text`: the script's replies, with remarks between
/// them. The bytes after them don't change.
///
/// `BAD_LINE` returns the line's number, and writes the explanation of the lines before it. `NO_ROOM` writes nothing and returns
/// the capacity that is needed, and the number of the bad line if the run stops before one; `NO_MEMORY` and `ENDLESS` write nothing.
#[unsafe(no_mangle)]
pub extern "C" fn blobcrash_explain(alloc: Global, script: &[u8], text: &mut [u8]) -> ScriptRan
    ensures done { result.status ≡ DONE → ExplainsWhole script.now (take result.len text.new) }
    ensures bad_line { result.status ≡ BAD_LINE → ExplainsUntil script.now result.line (take result.len text.new) }
    ensures no_room { result.status ≡ NO_ROOM → length text.old < result.len }
    ensures wanted { result.status ≡ NO_ROOM → NeedsRoom script.now result.line result.len }
    ensures no_line { result.status ≡ DONE → result.line ≡ 0 }
    ensures stopped { (result.status ≡ NO_MEMORY) ⊎ (result.status ≡ ENDLESS) → (result.len ≡ 0) × (result.line ≡ 0) }
    ensures unwritten { (result.status ≡ DONE) ⊎ (result.status ≡ BAD_LINE) ⊎ (text.new ≡ text.old) }
    ensures behind { drop result.len text.new ≡ drop result.len text.old }
    ensures within { (result.status ≡ NO_ROOM) ⊎ (result.len ≤ length text.old) }
    ensures status { IsRunStatus result.status }
{
    let (ending, explained) = explained_by(alloc, script);
    script::put(ending, &explained, text)
}

/// How a script ends, and its explanation.
fn explained_by(alloc: Global, script: &[u8]) -> (Ending, Vec<u8>)
    ensures done { result.0 ≡ Ending.Done → ExplainsWhole script.now result.1.items }
    ensures bad_call { (number : ℕ) → result.0 ≡ Ending.BadCall number → ExplainsUntil script.now number result.1.items }
{
    let mut input = Input::new(script);
    let mut output = Output::new(Vec::new(alloc));
    let ending = explain_script(alloc, &mut input, &mut output);
    (ending, output.into_writer())
}

/// Runs a script, and writes what `blobcrash explain --json` prints to the start of `text`. The bytes after it don't change.
///
/// The statuses of `blobcrash_explain`.
#[unsafe(no_mangle)]
pub extern "C" fn blobcrash_explain_json(alloc: Global, script: &[u8], text: &mut [u8]) -> ScriptRan
    ensures no_room { result.status ≡ NO_ROOM → length text.old < result.len }
    ensures no_line { result.status ≡ DONE → result.line ≡ 0 }
    ensures stopped { (result.status ≡ NO_MEMORY) ⊎ (result.status ≡ ENDLESS) → (result.len ≡ 0) × (result.line ≡ 0) }
    ensures unwritten { (result.status ≡ DONE) ⊎ (result.status ≡ BAD_LINE) ⊎ (text.new ≡ text.old) }
    ensures behind { drop result.len text.new ≡ drop result.len text.old }
    ensures within { (result.status ≡ NO_ROOM) ⊎ (result.len ≤ length text.old) }
    ensures status { IsRunStatus result.status }
{
    let mut input = Input::new(script);
    let mut output = Output::new(Vec::new(alloc));
    let ending = explain_script_as_json(alloc, &mut input, &mut output);
    script::put(ending, &output.into_writer(), text)
}
