//! What a rename over a name leaves of the file that moves, if the profile flushes.
ghost use Rattle.std.specs.Prelude.{◌≡◌};
ghost use Rattle.blob_fs.specs.Files.{journaled_of};
ghost use Rattle.blob_fs.specs.States.{KeepsState};
ghost use Rattle.blob_journal.specs.Settling.{KeepsUnsettled};

use crate::error::FsError;
use crate::file_system::FileSystem;
use crate::switches::Syncs;
use crate::truncation::Truncation;
use rand_core::Rng;

impl<R: Rng + Drop> FileSystem<R> {
    /// Reserves capacity for the note of a flush. The only error is `Memory`.
    pub(crate) fn reserve_flush(&mut self, inode: u64) -> Result<(), FsError>
        ensures unsettled { KeepsUnsettled (journaled_of self.old) (journaled_of self.new) }
        ensures keeps { KeepsState self.old self.new }
    {
        let Some(found) = self.files.get_mut(&inode) else {
            return Ok(());
        };
        let found = found.as_mut();
        found.truncations.reserve(1)?;
        Ok(())
    }

    /// Returns whether a rename of a file over a name flushes it: the profile says so, and the file is longer than at its last sync, or
    /// was truncated since. Syncs that lie flush nothing.
    fn is_flushed(&self, inode: u64) -> bool {
        if !self.options.profile.flushes || self.options.syncs == Syncs::Lie {
            return false;
        }
        match self.files.get(&inode) {
            None => false,
            Some(file) => {
                let file = file.as_ref();
                file.blob.size() > file.synced || !file.truncations.is_empty()
            }
        }
    }

    /// Notes that this edit flushes a file, if one does: a crash that keeps the edit leaves the file at least as long as calls see it
    /// now. There is capacity for the note; without it the edit would flush nothing.
    pub(crate) fn note_flush(&mut self, inode: u64, edit: u64)
        ensures store { journaled_of self.new ≡ journaled_of self.old }
        ensures keeps { KeepsState self.old self.new }
    {
        if !self.is_flushed(inode) {
            return;
        }
        let next_write = self.store.next_write();
        let Some(found) = self.files.get_mut(&inode) else {
            return;
        };
        let found = found.as_mut();
        if found.truncations.reserve(1).is_err() {
            return;
        }
        let length = found.blob.size();
        found.truncations.push_reserved(Truncation {
            edit,
            length,
            next_write,
        });
    }
}
