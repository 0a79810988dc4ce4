// What each call on files may do.
ghost use Rattle.std.specs.Prelude.{◌≡◌};
ghost use Rattle.blob_file_sessions.specs.Effects.{kind_effect};
ghost use Rattle.blob_statuses.specs.Effects.{effect};

use crate::kinds::{
    CLOSE, COMMIT, CRASH, CREATE, CREATE_AT, FIND, FIND_AT, INODE_OF, LINK, LINK_AT, LIST, LIST_AT,
    MAKE_DIRECTORY, MAKE_DIRECTORY_AT, OPEN_INODE_TRUNCATED, OPEN_TRUNCATED, READ,
    REMOVE_DIRECTORY, REMOVE_DIRECTORY_AT, RENAME, RENAME_AT, SETTLE, SIZE, SYNC, SYNC_ALL,
    SYNC_DATA, SYNC_DIRECTORY, SYNC_DIRECTORY_AT, TREE, TRUNCATE, UNLINK, UNLINK_AT, WRITE,
};
use blob_sessions::effect::{Effect, Role};

fn of(changes: bool, draws: bool, syncs: bool, role: Role) -> Effect
    ensures { result ≡ effect changes draws syncs role }
{
    Effect {
        changes,
        draws,
        syncs,
        role,
    }
}

/// Returns what a call of a kind may do. Of an unknown kind it is nothing.
#[inline(always)]
pub fn effect_of_kind(kind: u32) -> Effect
    ensures { result ≡ kind_effect kind }
{
    match kind {
        CREATE | CREATE_AT | TRUNCATE | WRITE => of(true, true, false, Role::Ordinary),
        OPEN_TRUNCATED | OPEN_INODE_TRUNCATED => of(true, true, false, Role::Ordinary),
        LINK | UNLINK | RENAME | MAKE_DIRECTORY | REMOVE_DIRECTORY => {
            of(true, false, false, Role::Ordinary)
        }
        LINK_AT | UNLINK_AT | RENAME_AT | MAKE_DIRECTORY_AT | REMOVE_DIRECTORY_AT => {
            of(true, false, false, Role::Ordinary)
        }
        SYNC_DIRECTORY | SYNC_DIRECTORY_AT => of(true, false, true, Role::Ordinary),
        SYNC | SYNC_DATA | SYNC_ALL => of(true, true, true, Role::Ordinary),
        SETTLE | COMMIT => of(false, false, true, Role::Ordinary),
        READ => of(false, true, false, Role::Ordinary),
        LIST | LIST_AT | FIND | FIND_AT | SIZE | INODE_OF | TREE => {
            of(false, false, false, Role::Looks)
        }
        CLOSE => of(false, false, false, Role::Closes),
        CRASH => of(false, true, false, Role::Restarts),
        _ => of(false, false, false, Role::Ordinary),
    }
}
