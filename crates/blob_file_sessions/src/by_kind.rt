// The call of a kind, numbers and paths.
ghost use Rattle.std.specs.Prelude.{◌≡◌, None, Some, option_map};
ghost use Rattle.blob_sessions.specs.Typed.{by_kind};
ghost use Rattle.blob_fs.specs.Acts.{act_of, path_act};
ghost use Rattle.blob_file_sessions.specs.Kinds.{call_of, descriptor_acts, directory_acts, how_in, path_acts, whole_acts};

use crate::call::FileCall;
use crate::kinds::{
    CLOSE, COMMIT, CRASH, CREATE, CREATE_AT, FIND, FIND_AT, INODE_OF, LINK, LINK_AT, LIST, LIST_AT,
    MAKE_DIRECTORY, MAKE_DIRECTORY_AT, OPEN, OPEN_INODE, OPEN_INODE_TRUNCATED, OPEN_TRUNCATED,
    REMOVE_DIRECTORY, REMOVE_DIRECTORY_AT, RENAME, RENAME_AT, SETTLE, SIZE, SYNC, SYNC_ALL,
    SYNC_DATA, SYNC_DIRECTORY, SYNC_DIRECTORY_AT, TREE, TRUNCATE, UNLINK, UNLINK_AT,
};
use blob_fs::call::{Call, LookUp, NumberCall, PathCall};
use blob_fs::{Descriptor, Rename};

/// Returns what a rename does if the new name is taken.
fn how_of(number: u64) -> Option<Rename>
    ensures { result ≡ how_in number }
{
    match number {
        0 => Some(Rename::Replace),
        1 => Some(Rename::NoReplace),
        2 => Some(Rename::Exchange),
        _ => None,
    }
}

/// Returns the call by paths of a kind.
fn path_call<'a>(asked: &FileCall, path: &'a [u8], to: &'a [u8]) -> Option<PathCall<'a>>
    ensures { option_map path_act result ≡ by_kind asked.now.kind (path_acts asked.now path.now to.now) }
{
    Some(match asked.kind {
        CREATE => PathCall::Create(path),
        OPEN => PathCall::Open(path),
        OPEN_TRUNCATED => PathCall::OpenTruncated(path),
        LINK => PathCall::Link { path, to },
        UNLINK => PathCall::Unlink(path),
        RENAME => {
            let how = how_of(asked.first)?;
            PathCall::Rename { path, to, how }
        }
        MAKE_DIRECTORY => PathCall::MakeDirectory(path),
        REMOVE_DIRECTORY => PathCall::RemoveDirectory(path),
        LIST => PathCall::List(path),
        SYNC_DIRECTORY => PathCall::SyncDirectory(path),
        FIND => PathCall::Find(path),
        _ => return None,
    })
}

/// Returns the call of a kind by the number of a directory and a name, or of an inode.
fn directory_call<'a>(asked: &FileCall, name: &'a [u8], to: &'a [u8]) -> Option<Call<'a>>
    ensures { option_map act_of result ≡ by_kind asked.now.kind (directory_acts asked.now name.now to.now) }
{
    let directory = asked.number;
    let call = match asked.kind {
        CREATE_AT => NumberCall::Create { directory, name },
        LINK_AT => NumberCall::Link {
            inode: asked.first,
            directory,
            name,
        },
        UNLINK_AT => NumberCall::Unlink { directory, name },
        RENAME_AT => {
            let how = how_of(asked.last)?;
            NumberCall::Rename {
                from: directory,
                old: name,
                to: asked.first,
                new: to,
                how,
            }
        }
        MAKE_DIRECTORY_AT => NumberCall::MakeDirectory { directory, name },
        REMOVE_DIRECTORY_AT => NumberCall::RemoveDirectory { directory, name },
        LIST_AT => return Some(Call::LookUp(LookUp::Names(directory))),
        SYNC_DIRECTORY_AT => NumberCall::SyncDirectory(directory),
        FIND_AT => return Some(Call::LookUp(LookUp::Find { directory, name })),
        OPEN_INODE => NumberCall::Open(asked.number),
        OPEN_INODE_TRUNCATED => NumberCall::OpenTruncated(asked.number),
        _ => return None,
    };
    Some(Call::ByNumber(call))
}

/// Returns the call of a kind by a descriptor.
fn descriptor_call(asked: &FileCall) -> Option<Call<'static>>
    ensures { option_map act_of result ≡ by_kind asked.now.kind (descriptor_acts asked.now) }
{
    let file = Descriptor::numbered(asked.number);
    let call = match asked.kind {
        CLOSE => NumberCall::Close(file),
        TRUNCATE => NumberCall::Truncate {
            file,
            length: asked.first,
        },
        SIZE => return Some(Call::LookUp(LookUp::Size(file))),
        SYNC => NumberCall::Sync(file),
        SYNC_DATA => NumberCall::SyncData(file),
        INODE_OF => return Some(Call::LookUp(LookUp::Inode(file))),
        _ => return None,
    };
    Some(Call::ByNumber(call))
}

/// Returns the call of a kind on the whole file system.
fn whole_call(kind: u32) -> Option<Call<'static>>
    ensures { option_map act_of result ≡ by_kind kind whole_acts }
{
    match kind {
        SYNC_ALL => Some(Call::ByNumber(NumberCall::SyncAll)),
        SETTLE => Some(Call::ByNumber(NumberCall::Settle)),
        CRASH => Some(Call::Crash),
        TREE => Some(Call::Tree),
        COMMIT => Some(Call::Commit),
        _ => None,
    }
}

/// Returns the call of a kind, its numbers, and paths or names. `None` if the kind is unknown or the number of a rename is above 2.
pub fn read_kind<'a>(asked: &FileCall, path: &'a [u8], to: &'a [u8]) -> Option<Call<'a>>
    ensures { option_map act_of result ≡ call_of asked.now path.now to.now }
{
    match asked.kind {
        0..16 => Some(Call::ByPath(path_call(asked, path, to)?)),
        16..32 => directory_call(asked, path, to),
        32..48 => descriptor_call(asked),
        kind => whole_call(kind),
    }
}
