//! Syncs of files and of directories.
ghost use Rattle.std.specs.Prelude.{◌≡◌, ◌<◌, IfOk, OnOk};
ghost use Rattle.blob_fs.specs.declared.switches.Syncs.TheVariants.{Honest};
ghost use Rattle.blob_fs.specs.Fixed.{FixesAll, FixesFile, FixesInode, KeepsSeen, ListsFiles};
ghost use Rattle.blob_fs.specs.Files.{KeepsJournal, KeepsNames, SettlesEdits, SyncsAll, SyncsData, SyncsDirectory, SyncsFile, SyncsMoved, TellsAndSettles, fresh_inode, journaled_of, syncs_of};
ghost use Rattle.blob_fs.specs.Noted.{IsUncut};
ghost use Rattle.blob_fs.specs.States.{KeepsFixedAndOptions, KeepsState};
ghost use Rattle.blob_fs.specs.Calls.{MaySettle, MaySettleIn};
ghost use Rattle.blob_journal.specs.Moves.{BindsMoved, TellsAgain};

use crate::error::FsError;
use crate::file_system::{Descriptor, FileSystem};
use crate::switches::{FailedSync, Syncs};
use blob_base::Error;
use blob_directory::profile::Settles;
use blob_directory::unsettled::Synced;
use blob_journal::laws::{bindings, settling};
use rand_core::Rng;

impl<R: Rng + Drop> FileSystem<R> {
    /// Settles the edits that a sync settles by the profile.
    fn settle_by(&mut self, settles: Settles, synced: Synced) -> Result<(), FsError>
        ensures some { MaySettle self.old self.new }
        ensures settled { OnOk result (SettlesEdits settles synced self.old self.new) }
        ensures rest { KeepsFixedAndOptions self.old self.new }
    {
        settling::<R>();
        bindings();
        self.store.settle(settles, synced)?;
        self.remove_gone();
        Ok(())
    }

    /// Records the new name of each file that moved into a directory as an edit of its own.
    fn bind_moved(&mut self, directory: u64) -> Result<(), FsError>
        ensures names { KeepsNames self.old self.new }
        ensures told { TellsAgain (journaled_of self.old) (journaled_of self.new) }
        ensures bound { OnOk result (BindsMoved directory (journaled_of self.old) (journaled_of self.new)) }
        ensures rest { KeepsFixedAndOptions self.old self.new }
    {
        bindings();
        self.store.bind_moved(directory, self.options.edit_rate)?;
        Ok(())
    }

    /// Settles the edits that a sync of a directory settles by `Settles::Names`.
    fn settle_moved(&mut self, directory: u64) -> Result<(), FsError>
        ensures names { KeepsNames self.old self.new }
        ensures some { TellsAndSettles self.old self.new }
        ensures settled { OnOk result (SyncsMoved self.old directory self.new) }
        ensures rest { KeepsFixedAndOptions self.old self.new }
    {
        self.bind_moved(directory)?;
        self.settle_by(Settles::Names, Synced::Directory(directory))?;
        Ok(())
    }

    /// Settles the edits that a sync of a directory settles by the profile.
    fn settle_directory(&mut self, directory: u64) -> Result<(), FsError>
        ensures some { MaySettleIn self.old self.new }
        ensures settled { OnOk result (SyncsDirectory self.old directory self.new) }
        ensures rest { KeepsFixedAndOptions self.old self.new }
    {
        let settles = self.options.profile.settles;
        if settles == Settles::Names {
            self.settle_moved(directory)?;
            return Ok(());
        }
        self.settle_by(settles, Synced::Directory(directory))?;
        Ok(())
    }

    /// Syncs an inode's bytes. Returns the number of the next edit after its size last changed.
    fn sync_bytes(&mut self, inode: u64) -> Result<u64, FsError>
        ensures keeps { KeepsState self.old self.new }
        ensures journal { OnOk result (KeepsJournal self.old self.new) }
        ensures fixes { OnOk result (FixesInode inode self.old self.new) }
        ensures seen { OnOk result (KeepsSeen self.old self.new) }
        ensures uncut { OnOk result (IsUncut self.new inode) }
    {
        if inode >= self.next_inode {
            return Err(FsError::Stale);
        }
        let Some(file) = self.files.get_mut(&inode) else {
            return Err(FsError::Stale);
        };
        let file = file.as_mut();
        let sized = file.sized;
        if let Err(error) = self.store.sync_file(&mut file.blob) {
            return Err(self.fail_sync(inode, error));
        }
        file.synced = file.blob.size();
        file.truncations.clear();
        Ok(sized)
    }

    /// Returns the error of a sync of a file's bytes that failed. If the options say so, the bytes are dropped.
    fn fail_sync(&mut self, inode: u64, error: Error) -> FsError
        ensures { KeepsState self.old self.new }
    {
        if self.options.failed_sync == FailedSync::Drops && matches!(error, Error::Injected) {
            if let Err(error) = self.drop_unsynced(inode) {
                return error;
            }
        }
        FsError::Store(error)
    }

    /// Makes a file's bytes and size durable, and settles the edits that the profile says.
    ///
    /// # Errors
    ///
    /// `Stale`, `Injected` of the layer's sync, `Memory`. The names and bytes that the calls see stay. Some of the edits may be
    /// settled. After `Injected` with `FailedSync::Drops`, what was unsynced is dropped.
    #[tactic(auto, using(crate::proofs::Settling::settles_kept, crate::proofs::Settling::settles_then, crate::proofs::Settling::settles_from))]
    pub fn sync(&mut self, file: Descriptor) -> Result<(), FsError>
        ensures some { MaySettle self.old self.new }
        ensures settled { OnOk result (syncs_of self.old ≡ Honest → SyncsFile self.old file self.new) }
        ensures rest { KeepsFixedAndOptions self.old self.new }
        ensures fixes { OnOk result (syncs_of self.old ≡ Honest → FixesFile self.old file self.new) }
    {
        settling::<R>();
        self.begin_call()?;
        let inode = self.inode_of(file)?;
        if self.options.syncs == Syncs::Lie {
            return Ok(());
        }
        let settles = self.options.profile.settles;
        let sized = self.sync_bytes(inode)?;
        self.settle_by(settles, Synced::File { inode, sized })?;
        Ok(())
    }

    /// Makes a file's bytes and size durable. Settles the edits of a `sync`. With `Settles::UpToLastOrSize` it settles only those up to the
    /// file's creation, its last truncation or its last growth.
    ///
    /// # Errors
    ///
    /// Those of `sync`.
    #[tactic(auto, using(crate::proofs::Settling::settles_kept, crate::proofs::Settling::settles_then, crate::proofs::Settling::settles_from))]
    pub fn sync_data(&mut self, file: Descriptor) -> Result<(), FsError>
        ensures some { MaySettle self.old self.new }
        ensures settled { OnOk result (syncs_of self.old ≡ Honest → SyncsData self.old file self.new) }
        ensures rest { KeepsFixedAndOptions self.old self.new }
        ensures fixes { OnOk result (syncs_of self.old ≡ Honest → FixesFile self.old file self.new) }
    {
        settling::<R>();
        self.begin_call()?;
        let inode = self.inode_of(file)?;
        if self.options.syncs == Syncs::Lie {
            return Ok(());
        }
        let settles = self.options.profile.settles;
        let sized = self.sync_bytes(inode)?;
        self.settle_by(settles, Synced::Data { inode, sized })?;
        Ok(())
    }

    /// Settles the edits of a directory's names, and more if the profile says so. With `Settles::Names` the new name of a file that moved
    /// into the directory is settled, and the removal of its old name isn't. Makes no draw.
    ///
    /// # Errors
    ///
    /// `NotDirectory`, `NotFound`, `Memory`. Some of the edits may be settled.
    #[tactic(auto, using(crate::proofs::Settling::settles_kept, crate::proofs::Settling::settles_then, crate::proofs::Settling::settles_from))]
    pub fn sync_directory_at(&mut self, directory: u64) -> Result<(), FsError>
        ensures some { MaySettleIn self.old self.new }
        ensures settled { OnOk result (syncs_of self.old ≡ Honest → SyncsDirectory self.old directory self.new) }
        ensures rest { KeepsFixedAndOptions self.old self.new }
    {
        settling::<R>();
        self.begin_call()?;
        if self.files.contains_key(&directory) {
            return Err(FsError::NotDirectory);
        }
        if !self.directories.contains_key(&directory) {
            return Err(FsError::NotFound);
        }
        if self.options.syncs == Syncs::Lie {
            return Ok(());
        }
        self.settle_directory(directory)?;
        Ok(())
    }

    /// Settles all edits.
    pub(crate) fn settle_names(&mut self) -> Result<(), FsError>
        ensures some { MaySettle self.old self.new }
        ensures settled { OnOk result (SyncsAll self.old self.new) }
        ensures rest { KeepsFixedAndOptions self.old self.new }
    {
        self.settle_by(Settles::All, Synced::Directory(0))
    }

    /// Makes the bytes of all files and all names durable.
    ///
    /// # Errors
    ///
    /// `Injected` of the layer's syncs, `Memory`. What was done until then stays.
    #[tactic(auto, using(crate::proofs::Settling::settles_kept, crate::proofs::Settling::settles_then, crate::proofs::Settling::settles_from))]
    pub fn sync_all(&mut self) -> Result<(), FsError>
        ensures some { MaySettle self.old self.new }
        ensures settled { OnOk result (syncs_of self.old ≡ Honest → SyncsAll self.old self.new) }
        ensures rest { KeepsFixedAndOptions self.old self.new }
        ensures fixes { OnOk result (syncs_of self.old ≡ Honest → FixesAll self.old self.new) }
    {
        settling::<R>();
        self.begin_call()?;
        if self.options.syncs == Syncs::Lie {
            return Ok(());
        }
        let inodes = self.inodes()?;
        for inode in &inodes {
            self.sync_bytes(*inode)?;
        }
        self.settle_names()?;
        Ok(())
    }

    /// Returns the number of each file that isn't gone.
    fn inodes(&self) -> Result<Vec<u64>, FsError>
        ensures { IfOk result (λ inodes. ListsFiles self.now inodes.items) }
    {
        let mut inodes = Vec::new(self.alloc);
        for (inode, file) in &self.files {
            if !file.as_ref().is_gone {
                inodes.push(*inode)?;
            }
        }
        Ok(inodes)
    }

    /// Makes the bytes of all files and all names durable, and draws nothing: the state before a test. Bytes that a failed sync
    /// dropped are gone, and syncs that lie don't matter here.
    ///
    /// # Errors
    ///
    /// `Memory`. What was done until then stays.
    #[tactic(auto, using(crate::proofs::Settling::settles_kept, crate::proofs::Settling::settles_then, crate::proofs::Settling::settles_from))]
    pub fn settle(&mut self) -> Result<(), FsError>
        ensures some { MaySettle self.old self.new }
        ensures settled { OnOk result (SyncsAll self.old self.new) }
        ensures rest { KeepsFixedAndOptions self.old self.new }
        ensures fixes { OnOk result (FixesAll self.old self.new) }
    {
        settling::<R>();
        self.begin_call()?;
        let inodes = self.inodes()?;
        self.store.set_config(blob_faulty::Config::default());
        for inode in &inodes {
            self.sync_bytes(*inode)?;
            self.show_blob(*inode);
        }
        self.settle_names()
    }
}
