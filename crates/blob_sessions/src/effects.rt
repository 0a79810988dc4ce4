// What each call of a store may do.
ghost use Rattle.std.specs.Prelude.{◌≡◌, false, true};
ghost use Rattle.blob_script.specs.Acts.{act_of};
ghost use Rattle.blob_sessions.specs.Effects.{effect_of, kind_effect};
ghost use Rattle.blob_statuses.specs.Effects.{effect};

use crate::effect::{Effect, Role};
use crate::kinds::{
    ADMIT, CLOSE, CONFIGURE, CRASH, FINISH, OPEN, OPEN_LOOSE, READ, REMOVE_BLOB, REMOVE_PARTITION,
    REOPEN, RESIZE, SCAN, SIZE, START_SYNC, SYNC, WRITE, WRITE_SYNC,
};
use blob_lab::Call;

/// Returns an effect that draws, or doesn't, and nothing else.
pub(crate) fn of_role(draws: bool, role: Role) -> Effect
    ensures { result ≡ effect false draws false role }
{
    Effect {
        changes: false,
        draws,
        syncs: false,
        role,
    }
}

/// Returns the effect of a call that changes what a crash leaves.
pub(crate) fn changing(draws: bool, syncs: bool) -> Effect
    ensures { result ≡ effect true draws syncs Role.Ordinary }
{
    Effect {
        changes: true,
        draws,
        syncs,
        role: Role::Ordinary,
    }
}

/// Returns what a call may do.
pub fn effect_of(call: &Call) -> Effect
    ensures { result ≡ effect_of (act_of call.now) }
{
    match call {
        Call::Configure(_) => of_role(false, Role::Sets),
        Call::Admit { .. } | Call::Finish(_) => changing(false, false),
        Call::Open { .. } | Call::OpenLoose { .. } => changing(true, false),
        Call::Resize { .. } | Call::Remove { .. } => changing(true, false),
        Call::Write { sync, .. } => changing(true, *sync),
        Call::Sync(_) | Call::StartSync(_) => changing(true, true),
        Call::Close(_) => of_role(false, Role::Closes),
        Call::Read { .. } | Call::Scan { .. } => of_role(true, Role::Ordinary),
        Call::Size(_) => of_role(false, Role::Looks),
        Call::Crash => of_role(true, Role::Crashes),
        Call::Reopen => of_role(false, Role::Reopens),
    }
}

/// Returns what a call of a kind may do. Of an unknown kind it is nothing.
pub fn effect_of_kind(kind: u32) -> Effect
    ensures { result ≡ kind_effect kind }
{
    match kind {
        OPEN | OPEN_LOOSE | RESIZE | REMOVE_BLOB | REMOVE_PARTITION | WRITE => {
            changing(true, false)
        }
        ADMIT | FINISH => changing(false, false),
        SYNC | START_SYNC | WRITE_SYNC => changing(true, true),
        CLOSE => of_role(false, Role::Closes),
        SIZE => of_role(false, Role::Looks),
        SCAN | READ => of_role(true, Role::Ordinary),
        CRASH => of_role(true, Role::Crashes),
        REOPEN => of_role(false, Role::Reopens),
        CONFIGURE => of_role(false, Role::Sets),
        _ => of_role(false, Role::Ordinary),
    }
}
