//! Names by directory: files are created, linked and unlinked, directories are made, removed and listed.
ghost use Rattle.std.specs.Prelude.{◌≡◌, ◌∷◌, [], false, None, Some, OnOk, OnErr, IfOk, IsSome, pred};
ghost use Rattle.blob_fs.specs.Files.{NotesBinding, NotesFreeing, about_name, file_of, fresh_inode, inode_opened, journaled_of, names_of, told_of};
ghost use Rattle.blob_fs.specs.Bytes.{file_in};
ghost use Rattle.blob_fs.specs.Named.{links_in};
ghost use Rattle.blob_fs.specs.States.{KeepsFixedAndOptions, KeepsState, KeepsStateBut};
ghost use Rattle.blob_fs.specs.Calls.{Leaves, Makes};
ghost use Rattle.blob_journal.specs.Bindings.{MayName};
ghost use Rattle.blob_journal.specs.Fixed.{IsOpen};
ghost use Rattle.blob_directory.specs.Counts.{NamedAtMost};
ghost use Rattle.blob_directory.specs.Names.{binds, directory_at, entry, file, frees};
ghost use Rattle.blob_directory.specs.Tables.{HasAll, HasOnly};

use crate::boxed_file::BoxedFile;
use crate::error::FsError;
use crate::file_system::{Descriptor, File, FileSystem, LINKS_MAX};
use blob_directory::edit::{Binding, Edit, Kind};
use blob_directory::unsettled::About;
use blob_journal::FileBlob;
use rand_core::Rng;

/// Returns what an edit of a name of an inode in a directory is about.
fn about(inode: u64, directory: u64) -> About
    ensures { result ≡ about_name inode directory }
{
    About::of_name(inode, directory)
}

impl<R: Rng + Drop> FileSystem<R> {
    /// Refuses a name that is taken.
    fn check_free(&self, entry: &[u8]) -> Result<(), FsError>
        ensures { OnOk result (names_of self.now entry.now ≡ None) }
    {
        if self.store.names().get(entry).is_some() {
            return Err(FsError::Exists);
        }
        Ok(())
    }

    /// Returns whether a file has a number. If the number is above all of them, it is compared with one alone.
    fn is_taken(&self, inode: u64) -> bool
        ensures { result ≡ false → file_in self.now inode ≡ None }
    {
        match self.files.last_key_value() {
            Some((last, _)) if *last < inode => false,
            _ => self.files.contains_key(&inode),
        }
    }

    /// Returns the next number of an inode, and the one after it.
    fn fresh_inode(&self) -> Result<(u64, u64), FsError>
        ensures number { IfOk result (λ r. r.0 ≡ fresh_inode self.now) }
        ensures new { OnOk result (file_in self.now (fresh_inode self.now) ≡ None) }
    {
        let inode = self.next_inode;
        // Never true: numbers rise. But no contract says so, and a file that took the number of another would replace it.
        if self.is_taken(inode) {
            return Err(FsError::NoSpace);
        }
        let next = inode.checked_add(1).ok_or(FsError::NoSpace)?;
        let count = self.files.len().saturating_sub(self.gone.len()) as u64;
        let count = count.saturating_add(self.directories.len() as u64);
        if count > self.options.max_files {
            return Err(FsError::NoSpace);
        }
        Ok((inode, next))
    }

    /// Makes an empty file and opens it.
    ///
    /// # Errors
    ///
    /// `Exists`, `NotFound` and `NotDirectory` of the directory, those of `check_name`, `NoSpace`, and those of the
    /// layer's open of a new blob.
    pub fn create_at(&mut self, directory: u64, name: &[u8]) -> Result<Descriptor, FsError>
        ensures made { OnOk result (Makes (binds directory name.now (file (fresh_inode self.old))) self.old self.new) }
        ensures free { OnOk result (names_of self.old (entry directory name.now) ≡ None) }
        ensures opened { IfOk result (λ f. inode_opened self.new f ≡ Some (fresh_inode self.old)) }
        ensures refused { OnErr result (Leaves self.old self.new) }
        ensures rest { KeepsFixedAndOptions self.old self.new }
        ensures noted { OnOk result (NotesBinding directory name.now (file (fresh_inode self.old)) self.old self.new) }
    {
        let inode = self.next_inode;
        self.begin_call()?;
        let entry = self.entry_in(directory, name)?;
        self.check_free(&entry)?;
        let (_, next) = self.fresh_inode()?;
        let blob = self.store.open_file(inode)?;
        let descriptor = self.open_new(inode, blob)?;
        let kind = Kind::File;
        let edit = Edit::one(entry, Some(Binding { inode, kind }));
        if let Err(error) = self.make(edit, about(inode, directory)) {
            self.opens.remove(&descriptor.number);
            self.remove_file(inode);
            return Err(error);
        }
        self.next_inode = self.next_inode.max(next);
        Ok(descriptor)
    }

    /// Adds a new file. The only error is out of memory.
    fn add_file(&mut self, inode: u64, blob: FileBlob) -> Result<(), FsError>
        requires opened { IsOpen (journaled_of self.old) inode blob }
        requires unnamed { ∥ NamedAtMost (names_of self.old) inode 0 ∥₁ }
        ensures links { OnOk result (links_in (file_in self.new inode) ≡ 1) }
        ensures keeps { KeepsStateBut inode self.old self.new }
        ensures store { journaled_of self.new ≡ journaled_of self.old }
    {
        let mut file = File::new(self.alloc, blob);
        file.sized = self.store.next_edit().saturating_add(1);
        let boxed = BoxedFile::new(self.alloc, file)?;
        self.files.insert(inode, boxed)?;
        Ok(())
    }

    /// Adds a new file and opens it.
    fn open_new(&mut self, inode: u64, blob: FileBlob) -> Result<Descriptor, FsError>
        requires opened { IsOpen (journaled_of self.old) inode blob }
        requires unnamed { ∥ NamedAtMost (names_of self.old) inode 0 ∥₁ }
        requires unfound { MayName (told_of self.old) inode → ⊥ }
        ensures opened { IfOk result (λ f. inode_opened self.new f ≡ Some inode) }
        ensures links { OnOk result (links_in (file_in self.new inode) ≡ 1) }
        ensures keeps { KeepsStateBut inode self.old self.new }
        ensures store { OnOk result (journaled_of self.new ≡ journaled_of self.old) }
    {
        self.add_file(inode, blob)?;
        match self.add_descriptor(inode) {
            Ok(descriptor) => Ok(descriptor),
            Err(error) => {
                self.remove_file(inode);
                Err(error)
            }
        }
    }

    /// Makes an empty directory and returns its number.
    ///
    /// # Errors
    ///
    /// `Exists`, `NotFound` and `NotDirectory` of the directory, those of `check_name`, `NoSpace`, `Memory`.
    pub fn make_directory_at(&mut self, directory: u64, name: &[u8]) -> Result<u64, FsError>
        ensures number { IfOk result (λ d. d ≡ fresh_inode self.old) }
        ensures made { IfOk result (λ d. Makes (binds directory name.now (directory_at d)) self.old self.new) }
        ensures free { OnOk result (names_of self.old (entry directory name.now) ≡ None) }
        ensures refused { OnErr result (Leaves self.old self.new) }
        ensures rest { KeepsFixedAndOptions self.old self.new }
        ensures noted { IfOk result (λ d. NotesBinding directory name.now (directory_at d) self.old self.new) }
    {
        let inode = self.next_inode;
        self.begin_call()?;
        let entry = self.entry_in(directory, name)?;
        self.check_free(&entry)?;
        let (_, next) = self.fresh_inode()?;
        self.directories.insert(inode, directory)?;
        let kind = Kind::Directory;
        let edit = Edit::one(entry, Some(Binding { inode, kind }));
        if let Err(error) = self.make(edit, about(inode, directory)) {
            self.directories.remove(&inode);
            return Err(error);
        }
        self.next_inode = self.next_inode.max(next);
        Ok(inode)
    }

    /// Gives a file one more name.
    ///
    /// # Errors
    ///
    /// `IsDirectory` and `NotFound` of the inode, `TooManyLinks` at 65,000 names, `Exists`, `NotFound` and `NotDirectory`
    /// of the directory, those of `check_name`, `Memory`.
    pub fn link_at(&mut self, inode: u64, directory: u64, name: &[u8]) -> Result<(), FsError>
        ensures made { OnOk result (Makes (binds directory name.now (file inode)) self.old self.new) }
        ensures free { OnOk result (names_of self.old (entry directory name.now) ≡ None) }
        ensures refused { OnErr result (Leaves self.old self.new) }
        ensures rest { KeepsFixedAndOptions self.old self.new }
        ensures noted { OnOk result (NotesBinding directory name.now (file inode) self.old self.new) }
    {
        self.begin_call()?;
        if self.directories.contains_key(&inode) {
            return Err(FsError::IsDirectory);
        }
        let links = match self.file(inode) {
            None => return Err(FsError::NotFound),
            Some(file) => file.links,
        };
        if links >= LINKS_MAX {
            return Err(FsError::TooManyLinks);
        }
        let entry = self.entry_in(directory, name)?;
        self.check_free(&entry)?;
        let kind = Kind::File;
        let edit = Edit::one(entry, Some(Binding { inode, kind }));
        self.set_links(inode, links + 1);
        if let Err(error) = self.make(edit, about(inode, directory)) {
            self.set_links(inode, links);
            return Err(error);
        }
        Ok(())
    }

    /// Sets the count of a file's names.
    fn set_links(&mut self, inode: u64, links: u32)
        requires fits { ∥ NamedAtMost (names_of self.old) inode links ∥₁ }
        ensures set { IsSome (file_of self.old inode) → links_in (file_in self.new inode) ≡ links }
        ensures keeps { KeepsState self.old self.new }
        ensures store { journaled_of self.new ≡ journaled_of self.old }
    {
        if let Some(file) = self.files.get_mut(&inode) {
            let file = file.as_mut();
            file.links = links;
        }
    }

    /// Counts one name of a file less. The name is removed already.
    fn drop_name(&mut self, inode: u64)
        requires fewer { ∥ NamedAtMost (names_of self.old) inode (pred (links_in (file_in self.old inode))) ∥₁ }
        ensures keeps { KeepsState self.old self.new }
        ensures store { journaled_of self.new ≡ journaled_of self.old }
    {
        if let Some(file) = self.files.get_mut(&inode) {
            let file = file.as_mut();
            file.links = file.links.saturating_sub(1);
        }
    }

    /// Takes one name off a file's count, and lets it go if that was the last one. An edit was made just before, so `gone` has
    /// capacity.
    pub(crate) fn drop_link(&mut self, inode: u64)
        requires fewer { ∥ NamedAtMost (names_of self.old) inode (pred (links_in (file_in self.old inode))) ∥₁ }
        ensures keeps { KeepsState self.old self.new }
        ensures store { journaled_of self.new ≡ journaled_of self.old }
    {
        self.drop_name(inode);
        self.let_go(inode);
    }

    /// Removes a name of a file. The file lives on while it has a name or is open.
    ///
    /// # Errors
    ///
    /// `NotFound`, `IsDirectory`, `NotFound` and `NotDirectory` of the directory, those of `check_name`, `Memory`.
    pub fn unlink_at(&mut self, directory: u64, name: &[u8]) -> Result<(), FsError>
        ensures made { OnOk result (Makes (frees directory name.now) self.old self.new) }
        ensures refused { OnErr result (Leaves self.old self.new) }
        ensures rest { KeepsFixedAndOptions self.old self.new }
        ensures noted { OnOk result (NotesFreeing directory name.now self.old self.new) }
    {
        self.begin_call()?;
        let entry = self.entry_in(directory, name)?;
        let was = self.binding_of(&entry)?;
        match was.kind {
            Kind::Directory => Err(FsError::IsDirectory),
            Kind::File => {
                self.make(Edit::one(entry, None), about(was.inode, directory))?;
                self.drop_link(was.inode);
                Ok(())
            }
        }
    }

    /// Removes an empty directory.
    ///
    /// # Errors
    ///
    /// `NotFound`, `NotDirectory`, `NotEmpty`, `NotFound` and `NotDirectory` of the directory that has it, those of
    /// `check_name`, `Memory`.
    pub fn remove_directory_at(&mut self, directory: u64, name: &[u8]) -> Result<(), FsError>
        ensures made { OnOk result (Makes (frees directory name.now) self.old self.new) }
        ensures refused { OnErr result (Leaves self.old self.new) }
        ensures rest { KeepsFixedAndOptions self.old self.new }
        ensures noted { OnOk result (NotesFreeing directory name.now self.old self.new) }
    {
        self.begin_call()?;
        let entry = self.entry_in(directory, name)?;
        let was = self.binding_of(&entry)?;
        if was.kind == Kind::File {
            return Err(FsError::NotDirectory);
        }
        if !self.store.names().is_empty(was.inode)? {
            return Err(FsError::NotEmpty);
        }
        self.make(Edit::one(entry, None), about(was.inode, directory))?;
        self.directories.remove(&was.inode);
        Ok(())
    }

    /// Returns what a name in a directory is bound to.
    ///
    /// # Errors
    ///
    /// `NotFound`, `NotDirectory`, those of `check_name`, `Memory`.
    pub fn look_up(&self, directory: u64, name: &[u8]) -> Result<Binding, FsError>
        ensures { IfOk result (λ b. names_of self.now (entry directory name.now) ≡ Some b) }
    {
        let entry = self.entry_in(directory, name)?;
        self.binding_of(&entry)
    }

    /// Returns the names in a directory with their bindings, in the order of their bytes.
    ///
    /// # Errors
    ///
    /// `NotFound`, `NotDirectory`, `Memory`.
    pub fn list_at(&self, directory: u64) -> Result<Vec<(Vec<u8>, Binding)>, FsError>
        ensures only { IfOk result (λ names. HasOnly (names_of self.now) directory names.items) }
        ensures all { IfOk result (λ names. HasAll (names_of self.now) directory names.items) }
    {
        if self.files.contains_key(&directory) {
            return Err(FsError::NotDirectory);
        }
        if !self.directories.contains_key(&directory) {
            return Err(FsError::NotFound);
        }
        Ok(self.store.names().names_in(directory)?)
    }
}
