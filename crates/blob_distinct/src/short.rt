//! Whether a run was refused memory.
ghost use Rattle.std.specs.Prelude.{◌≡◌, ◌≢◌, Some};
ghost use Rattle.std.specs.Bool.{OnTrue, OnFalse};
ghost use Rattle.blob_header.specs.Refusals.{Memory};
ghost use Rattle.blob_script.specs.Told.{refused_by};
ghost use Rattle.blob_choices.specs.Outcomes.{NoneOutOfMemory};

use blob_base::Error;
use blob_script::Reply;

fn is_memory(reply: &Reply) -> bool
    ensures is { OnTrue result (refused_by reply.now ≡ Some Memory) }
    ensures not { OnFalse result (refused_by reply.now ≢ Some Memory) }
{
    match reply {
        Reply::Failed(Error::Memory(_)) => true,
        _ => false,
    }
}

/// Returns whether a call failed to allocate.
pub fn is_short(replies: &[Reply]) -> bool
    ensures { OnFalse result (NoneOutOfMemory replies.now) }
{
    for reply in replies {
        if is_memory(reply) {
            return true;
        }
    }
    false
}
