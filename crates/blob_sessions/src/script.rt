// A whole script in one call.
ghost use Rattle.std.specs.Prelude.{◌≡◌, ◌⊎◌, ◌<◌, ◌≤◌, ℕ, take, drop, length};
ghost use Rattle.blob_sessions.specs.WholeScripts.{EndsAt, IsRunStatus, PrintsScript, PrintsUntil, WantsRoom};

use crate::ran::{BAD_LINE, DONE, ENDLESS, NO_MEMORY, NO_ROOM, ScriptRan};
use blob_lab::{Ending, Input, Output, serve_script};
use std::alloc::Global;

/// Runs a script, and copies what it prints to the start of `replies`, if it fits. If not, `len` is the capacity that
/// is needed.
pub fn run(alloc: Global, script: &[u8], replies: &mut [u8]) -> ScriptRan
    ensures done { result.status ≡ DONE → PrintsScript script.now (take result.len replies.new) }
    ensures bad_line { result.status ≡ BAD_LINE → PrintsUntil script.now result.line (take result.len replies.new) }
    ensures no_room { result.status ≡ NO_ROOM → length replies.old < result.len }
    ensures wanted { result.status ≡ NO_ROOM → WantsRoom script.now result.line result.len }
    ensures no_line { result.status ≡ DONE → result.line ≡ 0 }
    ensures stopped { (result.status ≡ NO_MEMORY) ⊎ (result.status ≡ ENDLESS) → (result.len ≡ 0) × (result.line ≡ 0) }
    ensures unwritten { (result.status ≡ DONE) ⊎ (result.status ≡ BAD_LINE) ⊎ (replies.new ≡ replies.old) }
    ensures behind { drop result.len replies.new ≡ drop result.len replies.old }
    ensures within { (result.status ≡ NO_ROOM) ⊎ (result.len ≤ length replies.old) }
    ensures status { IsRunStatus result.status }
{
    let (ending, printed) = printed_by(alloc, script);
    put(ending, &printed, replies)
}

/// Copies the text of a script that ended like this to the start of `into`, if it fits. If not, `len` is the capacity that
/// is needed.
pub fn put(ending: Ending, text: &[u8], into: &mut [u8]) -> ScriptRan
    ensures done { result.status ≡ DONE → (ending ≡ Ending.Done) × (take result.len into.new ≡ text.now) }
    ensures bad_line { result.status ≡ BAD_LINE
        → (ending ≡ Ending.BadCall result.line) × (take result.len into.new ≡ text.now) }
    ensures no_room { result.status ≡ NO_ROOM → length into.old < result.len }
    ensures wanted { result.status ≡ NO_ROOM → EndsAt ending result.line × (length text.now ≡ result.len) }
    ensures no_line { result.status ≡ DONE → result.line ≡ 0 }
    ensures stopped { (result.status ≡ NO_MEMORY) ⊎ (result.status ≡ ENDLESS) → (result.len ≡ 0) × (result.line ≡ 0) }
    ensures unwritten { (result.status ≡ DONE) ⊎ (result.status ≡ BAD_LINE) ⊎ (into.new ≡ into.old) }
    ensures behind { drop result.len into.new ≡ drop result.len into.old }
    ensures within { (result.status ≡ NO_ROOM) ⊎ (result.len ≤ length into.old) }
    ensures status { IsRunStatus result.status }
{
    let (status, line) = match ending {
        Ending::Done => (DONE, 0),
        Ending::BadCall(line) => (BAD_LINE, line),
        Ending::InputFailed => return ScriptRan::stopped(ENDLESS),
        // A list is a writer that fails only if memory runs out.
        _ => return ScriptRan::stopped(NO_MEMORY),
    };
    let len = text.len();
    if len > into.len() {
        return ScriptRan {
            status: NO_ROOM,
            len,
            line,
        };
    }
    into[..len].copy_from_slice(text);
    ScriptRan { status, len, line }
}

/// How a script ends, and what it prints.
fn printed_by(alloc: Global, script: &[u8]) -> (Ending, Vec<u8>)
    ensures done { result.0 ≡ Ending.Done → PrintsScript script.now result.1.items }
    ensures bad_call { (number : ℕ) → result.0 ≡ Ending.BadCall number → PrintsUntil script.now number result.1.items }
{
    let mut input = Input::new(script);
    let mut output = Output::new(Vec::new(alloc));
    let ending = serve_script(alloc, &mut input, &mut output);
    (ending, output.into_writer())
}
