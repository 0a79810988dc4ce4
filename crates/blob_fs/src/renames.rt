//! Renames, in one step.
ghost use Rattle.std.specs.Prelude.{◌≡◌, ◌≢◌, MatchBool, None, OnOk, OnErr, Some};
ghost use Rattle.blob_fs.specs.Below.{IsNotBelow, StaysApart};
ghost use Rattle.blob_fs.specs.Calls.{Leaves, Makes, Renames, RenamesAt};
ghost use Rattle.blob_fs.specs.Files.{GrowsTold, NotesExchange, NotesMove, SameFiles, is_file, journaled_of, names_of};
ghost use Rattle.blob_fs.specs.States.{KeepsFixedAndOptions, KeepsState};
ghost use Rattle.blob_directory.specs.declared.edit.Kind.TheVariants.{Directory};
ghost use Rattle.blob_directory.specs.Names.{exchanges, moves};

use crate::error::FsError;
use crate::file_system::{FileSystem, ROOT};
use blob_directory::edit::{Binding, Edit, Kind};
use blob_directory::unsettled::About;
use rand_core::Rng;

/// What a rename does if the new name is taken.
#[derive(Clone, Copy, Debug, PartialEq, Eq)]
pub enum Rename {
    /// It replaces the file or the empty directory there.
    Replace,
    /// It is refused with `Exists`.
    NoReplace,
    /// The two names change places. Both have to be there.
    Exchange,
}

/// Returns whether both are of the same file or directory.
fn is_same(a: Binding, b: Binding) -> bool
    ensures { MatchBool result (a ≡ b) (a ≢ b) }
{
    a == b
}

fn is_file(kind: Kind) -> bool
    ensures { result ≡ is_file kind }
{
    match kind {
        Kind::File => true,
        Kind::Directory => false,
    }
}

impl<R: Rng + Drop> FileSystem<R> {
    /// Refuses to move a directory to a place below itself.
    fn check_not_below(&self, inode: u64, directory: u64) -> Result<(), FsError>
        ensures { OnOk result (IsNotBelow self.now inode directory) }
    {
        let mut at = directory;
        // Each directory is met once, since none is below itself.
        for _ in 0..self.directories.len() {
            if at == inode {
                return Err(FsError::Loop);
            }
            let Some(above) = self.directories.get(&at) else {
                return Ok(());
            };
            if *above == ROOT {
                return Ok(());
            }
            at = *above;
        }
        Ok(())
    }

    /// Refuses to move a directory into a directory below it.
    fn check_move(&self, moved: Binding, directory: u64) -> Result<(), FsError>
        ensures { OnOk result (moved.kind ≡ Directory → IsNotBelow self.now moved.inode directory) }
    {
        match moved.kind {
            Kind::File => Ok(()),
            Kind::Directory => self.check_not_below(moved.inode, directory),
        }
    }

    /// Refuses a replacement that isn't of a file by a file or of an empty directory by a directory.
    fn check_replaces(&self, was: Binding, by: Binding) -> Result<(), FsError> {
        match (was.kind, by.kind) {
            (Kind::File, Kind::Directory) => Err(FsError::NotDirectory),
            (Kind::Directory, Kind::File) => Err(FsError::IsDirectory),
            (Kind::File, Kind::File) => Ok(()),
            (Kind::Directory, Kind::Directory) => {
                if self.store.names().is_empty(was.inode)? {
                    Ok(())
                } else {
                    Err(FsError::NotEmpty)
                }
            }
        }
    }

    /// Moves a file or a directory to another name, in one step.
    ///
    /// If both names are of one file, nothing happens. If the profile flushes and a file replaces another one, a crash that keeps
    /// this leaves it at least as long as it is now.
    ///
    /// # Errors
    ///
    /// `NotFound`; `Exists` for `NoReplace`; `NotDirectory`, `IsDirectory` and `NotEmpty` of what is replaced; `Loop` if
    /// a directory would come below itself; `NotFound` and `NotDirectory` of the directories; those of `check_name`; `Memory`.
    #[tactic(auto, using(crate::proofs::Growing::grows_kept, crate::proofs::Growing::grows_made, crate::proofs::Growing::grows_from))]
    pub fn rename_at(
        &mut self,
        from: (u64, &[u8]),
        to: (u64, &[u8]),
        how: Rename,
    ) -> Result<(), FsError>
        ensures renamed { OnOk result (RenamesAt how from.entry.0 from.entry.1.now to.entry.0 to.entry.1.now self.old self.new) }
        ensures apart { OnOk result (StaysApart self.old from.entry.0 from.entry.1.now to.entry.0) }
        ensures refused { OnErr result (Leaves self.old self.new) }
        ensures grows { GrowsTold self.old self.new }
        ensures rest { KeepsFixedAndOptions self.old self.new }
    {
        self.begin_call()?;
        let old = self.entry_in(from.0, from.1)?;
        let new = self.entry_in(to.0, to.1)?;
        let moved = self.binding_of(&old)?;
        self.check_move(moved, to.0)?;
        let there = self.store.names().get(&new);
        match there {
            None => self.rename_free((old, from.0), (new, to.0), moved, how),
            Some(was) => self.rename_taken((old, from.0), (new, to.0), (moved, was), how),
        }
    }

    /// Renames to a name that is free.
    fn rename_free(
        &mut self,
        from: (Vec<u8>, u64),
        to: (Vec<u8>, u64),
        moved: Binding,
        how: Rename,
    ) -> Result<(), FsError>
        requires bound { names_of self.old from.0.items ≡ Some moved }
        requires free { names_of self.old to.0.items ≡ None }
        ensures renamed { OnOk result (Renames how from.1 to.1 from.0.items to.0.items self.old self.new) }
        ensures refused { OnErr result (Leaves self.old self.new) }
        ensures rest { KeepsFixedAndOptions self.old self.new }
    {
        match how {
            Rename::Exchange => Err(FsError::NotFound),
            Rename::Replace => self.move_name(from, to, moved),
            Rename::NoReplace => self.move_name(from, to, moved),
        }
    }

    /// Renames to a name that is taken.
    fn rename_taken(
        &mut self,
        from: (Vec<u8>, u64),
        to: (Vec<u8>, u64),
        bound: (Binding, Binding),
        how: Rename,
    ) -> Result<(), FsError>
        requires bound { names_of self.old from.0.items ≡ Some bound.0 }
        requires taken { names_of self.old to.0.items ≡ Some bound.1 }
        ensures renamed { OnOk result (Renames how from.1 to.1 from.0.items to.0.items self.old self.new) }
        ensures refused { OnErr result (Leaves self.old self.new) }
        ensures rest { KeepsFixedAndOptions self.old self.new }
    {
        let (moved, was) = bound;
        match how {
            Rename::NoReplace => Err(FsError::Exists),
            Rename::Replace => {
                if is_same(was, moved) {
                    return Ok(());
                }
                self.replace(from, to, moved, was)
            }
            Rename::Exchange => {
                if is_same(was, moved) {
                    return Ok(());
                }
                self.exchange(from, to, moved, was)
            }
        }
    }

    /// Records that a directory is in another one now.
    fn place(&mut self, binding: Binding, directory: u64)
        ensures files { SameFiles self.old self.new }
        ensures keeps { KeepsState self.old self.new }
        ensures store { journaled_of self.new ≡ journaled_of self.old }
    {
        if let Some(above) = self.directories.get_mut(&binding.inode) {
            *above = directory;
        }
    }

    fn move_name(
        &mut self,
        from: (Vec<u8>, u64),
        to: (Vec<u8>, u64),
        moved: Binding,
    ) -> Result<(), FsError>
        requires bound { names_of self.old from.0.items ≡ Some moved }
        ensures made { OnOk result (Makes (moves from.0.items to.0.items moved) self.old self.new) }
        ensures refused { OnErr result (Leaves self.old self.new) }
        ensures files { SameFiles self.old self.new }
        ensures rest { KeepsFixedAndOptions self.old self.new }
        ensures noted { OnOk result (NotesMove from.1 to.1 from.0.items to.0.items moved self.old self.new) }
    {
        let about = About {
            inode: moved.inode,
            other: None,
            directory: from.1,
            other_directory: Some(to.1),
            moves_file: is_file(moved.kind),
        };
        self.make(Edit::moving(from.0, to.0, moved), about)?;
        self.place(moved, to.1);
        Ok(())
    }

    fn replace(
        &mut self,
        from: (Vec<u8>, u64),
        to: (Vec<u8>, u64),
        moved: Binding,
        was: Binding,
    ) -> Result<(), FsError>
        requires bound { names_of self.old from.0.items ≡ Some moved }
        requires taken { names_of self.old to.0.items ≡ Some was }
        requires differ { was ≢ moved }
        ensures made { OnOk result (Makes (moves from.0.items to.0.items moved) self.old self.new) }
        ensures refused { OnErr result (Leaves self.old self.new) }
        ensures rest { KeepsFixedAndOptions self.old self.new }
        ensures noted { OnOk result (NotesMove from.1 to.1 from.0.items to.0.items moved self.old self.new) }
    {
        self.check_replaces(was, moved)?;
        self.reserve_flush(moved.inode)?;
        let edit = self.store.next_edit();
        self.move_name(from, to, moved)?;
        match was.kind {
            Kind::File => self.drop_link(was.inode),
            Kind::Directory => {
                self.directories.remove(&was.inode);
            }
        }
        self.note_flush(moved.inode, edit);
        Ok(())
    }

    fn exchange(
        &mut self,
        from: (Vec<u8>, u64),
        to: (Vec<u8>, u64),
        moved: Binding,
        was: Binding,
    ) -> Result<(), FsError>
        requires bound { names_of self.old from.0.items ≡ Some moved }
        requires taken { names_of self.old to.0.items ≡ Some was }
        requires differ { was ≢ moved }
        ensures made { OnOk result (Makes (exchanges from.0.items to.0.items moved was) self.old self.new) }
        ensures refused { OnErr result (Leaves self.old self.new) }
        ensures rest { KeepsFixedAndOptions self.old self.new }
        ensures apart { OnOk result (was.kind ≡ Directory → IsNotBelow self.old was.inode from.1) }
        ensures noted { OnOk result (NotesExchange from.1 to.1 from.0.items to.0.items moved was self.old self.new) }
    {
        self.check_move(was, from.1)?;
        let about = About {
            inode: moved.inode,
            other: Some(was.inode),
            directory: from.1,
            other_directory: Some(to.1),
            moves_file: false,
        };
        self.make(Edit::exchanging(from.0, to.0, moved, was), about)?;
        self.place(moved, to.1);
        self.place(was, from.1);
        Ok(())
    }
}
