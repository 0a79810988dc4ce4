//! Any call, and its reply.
ghost use Rattle.std.specs.Prelude.{◌≤◌, IfOk, IsSome, OnOk};
ghost use Rattle.blob_fs.specs.Acts.{act_of, look_act, number_act, path_act};
ghost use Rattle.blob_fs.specs.Files.{inode_opened};
ghost use Rattle.blob_fs.specs.Performs.{Performs, RepliesFound};
ghost use Rattle.blob_fs.specs.States.{KeepsState};

use crate::call::{Call, LookUp, NumberCall, PathCall};
use crate::error::FsError;
use crate::file_system::{Descriptor, FileSystem};
use crate::reply::{Reply, counted, crashed, done, inode, listed, opened, sized, walked};
use blob_directory::edit::Binding;
use rand_core::Rng;

/// Returns the reply of a look-up, with the size of what it found.
fn found<R: Rng + Drop>(fs: &FileSystem<R>, ended: Result<Binding, FsError>) -> Reply
    ensures { RepliesFound ended result }
{
    match ended {
        Ok(binding) => Reply::Found(binding, fs.size_of(binding.inode)),
        Err(error) => Reply::Refused(error),
    }
}

/// Makes a call by paths.
fn by_path<R: Rng + Drop>(fs: &mut FileSystem<R>, call: &PathCall<'_>) -> Reply
    ensures { Performs (path_act call.now) result fs.old fs.new }
{
    match *call {
        PathCall::Create(path) => opened(fs.create(path)),
        PathCall::Open(path) => opened(fs.open(path)),
        PathCall::OpenTruncated(path) => opened(fs.open_truncated(path)),
        PathCall::Link { path, to } => done(fs.link(path, to)),
        PathCall::Unlink(path) => done(fs.unlink(path)),
        PathCall::Rename { path, to, how } => done(fs.rename(path, to, how)),
        PathCall::MakeDirectory(path) => done(fs.make_directory(path)),
        PathCall::RemoveDirectory(path) => done(fs.remove_directory(path)),
        PathCall::List(path) => listed(fs.list(path)),
        PathCall::SyncDirectory(path) => done(fs.sync_directory(path)),
        PathCall::Find(path) => found(fs, fs.find(path)),
    }
}

/// Reads bytes of a file, and drops them. Returns how many. Without memory for them it is `Memory`.
fn read_some<R: Rng + Drop>(
    fs: &mut FileSystem<R>,
    file: Descriptor,
    offset: u64,
    len: usize,
) -> Result<usize, FsError>
    ensures keeps { KeepsState fs.old fs.new }
    ensures open { OnOk result (IsSome (inode_opened fs.old file)) }
    ensures count { IfOk result (λ n. n ≤ len) }
{
    let mut bytes = Vec::new(fs.alloc);
    bytes.resize(len, 0)?;
    fs.read(file, offset, bytes.as_mut_slice())
}

/// Makes a call by numbers.
pub(crate) fn by_number<R: Rng + Drop>(fs: &mut FileSystem<R>, call: &NumberCall<'_>) -> Reply
    ensures { Performs (number_act call.now) result fs.old fs.new }
{
    match *call {
        NumberCall::Create { directory, name } => opened(fs.create_at(directory, name)),
        NumberCall::MakeDirectory { directory, name } => {
            inode(fs.make_directory_at(directory, name))
        }
        NumberCall::Link {
            inode,
            directory,
            name,
        } => done(fs.link_at(inode, directory, name)),
        NumberCall::Unlink { directory, name } => done(fs.unlink_at(directory, name)),
        NumberCall::RemoveDirectory { directory, name } => {
            done(fs.remove_directory_at(directory, name))
        }
        NumberCall::Rename {
            from,
            old,
            to,
            new,
            how,
        } => done(fs.rename_at((from, old), (to, new), how)),
        NumberCall::Open(inode) => opened(fs.open_inode(inode)),
        NumberCall::OpenTruncated(inode) => opened(fs.open_inode_truncated(inode)),
        NumberCall::Close(file) => done(fs.close(file)),
        NumberCall::Read { file, offset, len } => counted(read_some(fs, file, offset, len)),
        NumberCall::Write {
            file,
            offset,
            bytes,
        } => done(fs.write(file, offset, bytes)),
        NumberCall::Truncate { file, length } => done(fs.truncate(file, length)),
        NumberCall::Sync(file) => done(fs.sync(file)),
        NumberCall::SyncData(file) => done(fs.sync_data(file)),
        NumberCall::SyncDirectory(directory) => done(fs.sync_directory_at(directory)),
        NumberCall::SyncAll => done(fs.sync_all()),
        NumberCall::Settle => done(fs.settle()),
    }
}

/// Looks something up.
fn look_up<R: Rng + Drop>(fs: &FileSystem<R>, call: &LookUp<'_>) -> Reply
    ensures { Performs (look_act call.now) result fs.now fs.now }
{
    match *call {
        LookUp::Names(directory) => listed(fs.list_at(directory)),
        LookUp::Find { directory, name } => found(fs, fs.look_up(directory, name)),
        LookUp::Size(file) => sized(fs.size(file)),
        LookUp::Inode(file) => inode(fs.inode_of(file)),
    }
}

impl<R: Rng + Drop> FileSystem<R> {
    /// Makes a call, and returns its reply.
    #[inline(always)]
    pub fn answer(&mut self, call: &Call<'_>) -> Reply
        ensures { Performs (act_of call.now) result self.old self.new }
    {
        match call {
            Call::ByPath(call) => by_path(self, call),
            Call::ByNumber(call) => by_number(self, call),
            Call::LookUp(call) => look_up(self, call),
            Call::Commit => done(self.commit()),
            Call::Crash => crashed(self.crash()),
            Call::Tree => walked(self.tree()),
        }
    }
}
