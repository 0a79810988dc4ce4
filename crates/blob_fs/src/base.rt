//! What the calls share: their start, and an edit.
ghost use Rattle.std.specs.Prelude.{◌≡◌, [], None, Some, OnOk, OnErr, IfOk, option_copied};
ghost use Rattle.blob_fs.specs.Files.{LogsEdit, KeepsJournal, KeepsNames, KeepsTold, NotesEdit, SameDirectories, SameFiles, file_of, fresh_inode, journaled_of, kind_in, names_of, options_of, told_of};
ghost use Rattle.blob_fs.specs.Fixed.{KeepsFixed};
ghost use Rattle.blob_fs.specs.Named.{AllNamed};
ghost use Rattle.blob_fs.specs.Writes.{faults_of, rates_of};
ghost use Rattle.blob_fs.specs.States.{KeepsFixedAndOptions, KeepsState};
ghost use Rattle.blob_fs.specs.Calls.{Leaves, Makes};
ghost use Rattle.blob_journal.specs.Writes.{SameCrashes};
ghost use Rattle.blob_directory.specs.Names.{Same, edit_of, edited, entry};

use crate::error::FsError;
use crate::file_system::{File, FileSystem, Options, ROOT, Store};
use crate::path::check_name;
use blob_directory::edit::{Binding, Edit, Kind, entry_of};
use blob_directory::unsettled::About;
use blob_faulty::Config;
use blob_journal::Journaled;
use blob_journal::laws::bindings;
use rand_core::Rng;
use std::alloc::Global;
use std::collections::BTreeMap;

/// Returns a copy.
pub(crate) fn copy_of(config: &Config) -> Config
    ensures { result ≡ config.now }
{
    Config {
        open_rate: config.open_rate,
        read_rate: config.read_rate,
        write_rate: config.write_rate,
        sync_rate: config.sync_rate,
        resize_rate: config.resize_rate,
        remove_rate: config.remove_rate,
        scan_rate: config.scan_rate,
    }
}

impl<R: Rng + Drop> FileSystem<R> {
    /// Returns an empty file system over a new store, with faults drawn from the generator.
    ///
    /// # Errors
    ///
    /// `Memory` only.
    pub fn new(alloc: Global, rng: R, options: Options) -> Result<FileSystem<R>, FsError>
        ensures names { IfOk result (λ fs. Same (names_of fs) (λ _. None)) }
        ensures told { IfOk result (λ fs. told_of fs ≡ []) }
        ensures options { IfOk result (λ fs. options_of fs ≡ options) }
    {
        let store = Journaled::new(alloc, rng)?;
        let mut directories = BTreeMap::new(alloc);
        directories.insert(ROOT, ROOT)?;
        Ok(FileSystem {
            alloc,
            store,
            options,
            directories,
            files: BTreeMap::new(alloc),
            opens: BTreeMap::new(alloc),
            next_inode: ROOT + 1,
            next_open: 0,
            gone: Vec::new(alloc),
            used: 0,
            is_down: false,
            kept: None,
        })
    }

    /// Returns the fault wrapper below.
    pub fn store(&self) -> &Store<R> {
        self.store.store()
    }

    /// Returns the options.
    pub fn options(&self) -> &Options
        ensures { result.now ≡ options_of self.now }
    {
        &self.options
    }

    /// Replaces the options. A write or an edit that is pending keeps the mode and the rate of its issue.
    pub fn set_options(&mut self, options: Options)
        ensures set { options_of self.new ≡ options }
        ensures names { KeepsNames self.old self.new }
        ensures told { KeepsTold self.old self.new }
        ensures fixed { KeepsFixed self.old self.new }
    {
        self.options = options;
    }

    /// Refuses calls after a recovery that failed, and lets the wrapper draw the faults of files.
    pub(crate) fn begin_call(&mut self) -> Result<(), FsError>
        ensures keeps { KeepsState self.old self.new }
        ensures journal { OnOk result (KeepsJournal self.old self.new) }
        ensures crashes { OnOk result (SameCrashes (journaled_of self.old) (journaled_of self.new)) }
        ensures files { SameFiles self.old self.new }
        ensures number { fresh_inode self.new ≡ fresh_inode self.old }
        ensures rates { OnOk result (rates_of self.new ≡ faults_of self.old) }
        ensures directories { SameDirectories self.old self.new }
    {
        if self.is_down {
            return Err(FsError::Crashed);
        }
        let faults = copy_of(&self.options.faults);
        self.store.set_config(faults);
        Ok(())
    }

    /// Lets the wrapper draw no faults until the next call begins.
    pub(crate) fn draw_nothing(&mut self)
        ensures { KeepsState self.old self.new }
    {
        self.store.set_config(Config::default());
    }

    /// Returns the entry of a name in a directory.
    pub(crate) fn entry_in(&self, directory: u64, name: &[u8]) -> Result<Vec<u8>, FsError>
        ensures { IfOk result (λ e. e.items ≡ entry directory name.now) }
    {
        check_name(name)?;
        if !self.directories.contains_key(&directory) {
            return Err(if self.files.contains_key(&directory) {
                FsError::NotDirectory
            } else {
                FsError::NotFound
            });
        }
        Ok(entry_of(self.alloc, directory, name)?)
    }

    /// Makes an edit: it is in the journal, unsynced, and the names are changed. No file may have more names than links then.
    ///
    /// # Errors
    ///
    /// Those of the journal. No name has changed.
    pub(crate) fn make(&mut self, edit: Edit, about: About) -> Result<(), FsError>
        requires fits { ∥ AllNamed (edited (names_of self.old) (edit_of edit)) self.old.files ∥₁ }
        ensures made { OnOk result (Makes (edit_of edit) self.old self.new) }
        ensures refused { OnErr result (Leaves self.old self.new) }
        ensures files { SameFiles self.old self.new }
        ensures rest { KeepsFixedAndOptions self.old self.new }
        ensures noted { OnOk result (NotesEdit (edit_of edit) about self.old self.new) }
        ensures logged { OnOk result (LogsEdit (edit_of edit) self.old self.new) }
    {
        bindings();
        self.gone.reserve(1)?;
        self.store.make(edit, about, self.options.edit_rate)?;
        Ok(())
    }

    /// Returns what a name in a directory is bound to.
    pub(crate) fn binding_of(&self, entry: &[u8]) -> Result<Binding, FsError>
        ensures { IfOk result (λ b. names_of self.now entry.now ≡ Some b) }
    {
        self.store.names().get(entry).ok_or(FsError::NotFound)
    }

    /// Returns the kind of an inode, if it is one.
    pub fn kind_of(&self, inode: u64) -> Option<Kind>
        ensures { result ≡ kind_in self.now inode }
    {
        if self.directories.contains_key(&inode) {
            Some(Kind::Directory)
        } else if self.file(inode).is_some() {
            Some(Kind::File)
        } else {
            None
        }
    }

    /// Returns a file that isn't gone.
    pub(crate) fn file(&self, inode: u64) -> Option<&File>
        ensures { option_copied result ≡ file_of self.now inode }
    {
        match self.files.get(&inode) {
            Some(file) if !file.as_ref().is_gone => Some(file.as_ref()),
            _ => None,
        }
    }
}
