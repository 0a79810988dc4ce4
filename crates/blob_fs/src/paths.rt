//! The calls by paths: names after slashes, from the root on.
ghost use Rattle.std.specs.Prelude.{◌≡◌, IfOk, OnErr, OnOk, Some};
ghost use Rattle.blob_directory.specs.Names.{directory_at, entry};
ghost use Rattle.blob_directory.specs.Paths.{IsPlace, LeadsTo};
ghost use Rattle.blob_fs.specs.declared.switches.Syncs.TheVariants.{Honest};
ghost use Rattle.blob_fs.specs.Calls.{Leaves, MaySettleIn};
ghost use Rattle.blob_fs.specs.Files.{KeepsNames, KeepsOptions, MayResizeSome, names_of, syncs_of};
ghost use Rattle.blob_fs.specs.Paths.{CreatesAt, FreesAt, IsBound, KeepsFixedBeside, LinksAt, Lists, MakesDirectoryAt, OpensPath, RenamesPath, SyncsPath};
ghost use Rattle.blob_fs.specs.States.{KeepsFixedAndOptions, KeepsState};

use crate::error::FsError;
use crate::file_system::{Descriptor, FileSystem, ROOT};
use crate::renames::Rename;
use blob_directory::edit::{Binding, Kind};
use blob_directory::path::first_name;
use rand_core::Rng;

impl<R: Rng + Drop> FileSystem<R> {
    /// Returns the number of a directory in a directory.
    fn directory_in(&self, directory: u64, name: &[u8]) -> Result<u64, FsError>
        ensures { IfOk result (λ d. names_of self.now (entry directory name.now) ≡ Some (directory_at d)) }
    {
        let found = self.look_up(directory, name)?;
        match found.kind {
            Kind::File => Err(FsError::NotDirectory),
            Kind::Directory => Ok(found.inode),
        }
    }

    /// Returns the number of the directory of a path. The empty path is the root's.
    ///
    /// # Errors
    ///
    /// `NotFound` and `NotDirectory` of a name on the path, those of `check_name`, `Memory`.
    pub fn directory_of(&self, path: &[u8]) -> Result<u64, FsError>
        ensures { IfOk result (λ d. LeadsTo (names_of self.now) path.now d) }
    {
        let mut directory = ROOT;
        let mut left = path;
        while let Some(next) = first_name(left) {
            directory = self.directory_in(directory, next.0)?;
            left = next.1;
        }
        Ok(directory)
    }

    /// Returns the directory and the last name of a path.
    fn place_of<'a>(&self, path: &'a [u8]) -> Result<(u64, &'a [u8]), FsError>
        ensures { IfOk result (λ r. IsPlace (names_of self.now) path.now r.0 r.1.now) }
    {
        let Some((mut name, mut left)) = first_name(path) else {
            return Err(FsError::InvalidName);
        };
        let mut directory = ROOT;
        while let Some(next) = first_name(left) {
            directory = self.directory_in(directory, name)?;
            name = next.0;
            left = next.1;
        }
        Ok((directory, name))
    }

    /// Returns what a path is bound to.
    ///
    /// # Errors
    ///
    /// Those of `directory_of`.
    pub fn find(&self, path: &[u8]) -> Result<Binding, FsError>
        ensures { IfOk result (λ b. IsBound (names_of self.now) path.now b) }
    {
        let (directory, name) = self.place_of(path)?;
        self.look_up(directory, name)
    }

    /// Makes an empty file and opens it. The errors are those of `directory_of` and of `create_at`.
    pub fn create(&mut self, path: &[u8]) -> Result<Descriptor, FsError>
        ensures made { OnOk result (CreatesAt path.now self.old self.new) }
        ensures refused { OnErr result (Leaves self.old self.new) }
        ensures rest { KeepsFixedAndOptions self.old self.new }
    {
        let (directory, name) = self.place_of(path)?;
        self.create_at(directory, name)
    }

    /// Opens a file that is there. The errors are those of `directory_of` and of `open_inode`.
    pub fn open(&mut self, path: &[u8]) -> Result<Descriptor, FsError>
        ensures opened { IfOk result (λ f. OpensPath path.now self.old f self.new) }
        ensures keeps { KeepsState self.old self.new }
    {
        self.begin_call()?;
        let found = self.find(path)?;
        self.open_inode(found.inode)
    }

    /// Opens a file that is there and makes it empty, as `open_inode_truncated`. The errors are those of `open` and of
    /// `truncate`.
    pub fn open_truncated(&mut self, path: &[u8]) -> Result<Descriptor, FsError>
        ensures names { KeepsNames self.old self.new }
        ensures told { MayResizeSome self.old self.new }
        ensures fixed { KeepsFixedBeside path.now self.old self.new }
        ensures options { KeepsOptions self.old self.new }
    {
        self.begin_call()?;
        let found = self.find(path)?;
        self.open_inode_truncated(found.inode)
    }

    /// Gives the file of a path a second path. The errors are those of `directory_of` and of `link_at`.
    pub fn link(&mut self, path: &[u8], to: &[u8]) -> Result<(), FsError>
        ensures made { OnOk result (LinksAt path.now to.now self.old self.new) }
        ensures refused { OnErr result (Leaves self.old self.new) }
        ensures rest { KeepsFixedAndOptions self.old self.new }
    {
        let found = self.find(path)?;
        let (directory, name) = self.place_of(to)?;
        self.link_at(found.inode, directory, name)
    }

    /// Removes a name of a file. The errors are those of `directory_of` and of `unlink_at`.
    pub fn unlink(&mut self, path: &[u8]) -> Result<(), FsError>
        ensures made { OnOk result (FreesAt path.now self.old self.new) }
        ensures refused { OnErr result (Leaves self.old self.new) }
        ensures rest { KeepsFixedAndOptions self.old self.new }
    {
        let (directory, name) = self.place_of(path)?;
        self.unlink_at(directory, name)
    }

    /// Moves a file or a directory. The errors are those of `directory_of` and of `rename_at`.
    pub fn rename(&mut self, path: &[u8], to: &[u8], how: Rename) -> Result<(), FsError>
        ensures renamed { OnOk result (RenamesPath how path.now to.now self.old self.new) }
        ensures refused { OnErr result (Leaves self.old self.new) }
        ensures rest { KeepsFixedAndOptions self.old self.new }
    {
        let from = self.place_of(path)?;
        let to = self.place_of(to)?;
        self.rename_at(from, to, how)
    }

    /// Makes an empty directory. The errors are those of `directory_of` and of `make_directory_at`.
    pub fn make_directory(&mut self, path: &[u8]) -> Result<(), FsError>
        ensures made { OnOk result (MakesDirectoryAt path.now self.old self.new) }
        ensures refused { OnErr result (Leaves self.old self.new) }
        ensures rest { KeepsFixedAndOptions self.old self.new }
    {
        let (directory, name) = self.place_of(path)?;
        self.make_directory_at(directory, name)?;
        Ok(())
    }

    /// Removes an empty directory. The errors are those of `directory_of` and of `remove_directory_at`.
    pub fn remove_directory(&mut self, path: &[u8]) -> Result<(), FsError>
        ensures made { OnOk result (FreesAt path.now self.old self.new) }
        ensures refused { OnErr result (Leaves self.old self.new) }
        ensures rest { KeepsFixedAndOptions self.old self.new }
    {
        let (directory, name) = self.place_of(path)?;
        self.remove_directory_at(directory, name)
    }

    /// Returns the names in a directory. The errors are those of `directory_of`.
    pub fn list(&self, path: &[u8]) -> Result<Vec<(Vec<u8>, Binding)>, FsError>
        ensures { IfOk result (λ found. Lists (names_of self.now) path.now found.items) }
    {
        let directory = self.directory_of(path)?;
        self.list_at(directory)
    }

    /// Settles the edits of a directory. The errors are those of `directory_of` and of `sync_directory_at`.
    pub fn sync_directory(&mut self, path: &[u8]) -> Result<(), FsError>
        ensures some { MaySettleIn self.old self.new }
        ensures settled { OnOk result (syncs_of self.old ≡ Honest → SyncsPath path.now self.old self.new) }
        ensures rest { KeepsFixedAndOptions self.old self.new }
    {
        let directory = self.directory_of(path)?;
        self.sync_directory_at(directory)
    }
}
