//! Files that no name and no descriptor refers to.
ghost use Rattle.std.specs.Prelude.{◌≡◌, take, true};
ghost use Rattle.blob_directory.specs.Counts.{NamedAtMost};
ghost use Rattle.blob_fs.specs.States.{KeepsState};
ghost use Rattle.blob_fs.specs.Files.{IsGoneBy, KeepsJournal, journaled_of, names_of, told_of};
ghost use Rattle.blob_journal.specs.Bindings.{MayName};
ghost use Rattle.blob_directory.specs.Settled.{AreSettled};

use crate::file_system::FileSystem;
use blob_faulty::Config;
use blob_journal::laws::{bindings, settling};
use rand_core::Rng;

/// A file that was deleted. A crash that loses an edit from before that may find it again.
#[derive(Clone, Copy)]
pub(crate) struct Gone {
    inode: u64,
    /// How many edits the journal had when it went.
    edits: u64,
}

impl<R: Rng + Drop> FileSystem<R> {
    /// Lets a file go if no name and no descriptor refers to it: its bytes don't count any more. `gone` has capacity.
    pub(crate) fn let_go(&mut self, inode: u64)
        ensures keeps { KeepsState self.old self.new }
        ensures store { journaled_of self.new ≡ journaled_of self.old }
    {
        bindings();
        let edits = self.store.told_edits();
        let Some(file) = self.files.get_mut(&inode) else {
            return;
        };
        let file = file.as_mut();
        if file.links > 0 || file.opens > 0 || file.is_gone {
            return;
        }
        let size = file.size();
        file.is_gone = true;
        file.gone_at = edits;
        let _ = self.gone.push(Gone { inode, edits });
        self.count(size, 0);
    }

    /// Returns whether a file went while the journal had at most this many edits.
    fn is_gone_by(&self, inode: u64, edits: u64) -> bool
        ensures { result ≡ true → IsGoneBy self.now inode edits }
    {
        match self.files.get(&inode) {
            None => false,
            Some(file) => {
                let file = file.as_ref();
                file.is_gone && file.gone_at <= edits
            }
        }
    }

    /// Removes a file and its blob if it went while the journal had at most this many edits. These are settled.
    fn remove_settled(&mut self, inode: u64, settled: u64)
        requires settled { AreSettled (take settled (told_of self.old)) }
        ensures keeps { KeepsState self.old self.new }
        ensures journal { KeepsJournal self.old self.new }
    {
        bindings();
        if self.is_gone_by(inode, settled) {
            self.remove_file(inode);
        }
    }

    /// Removes the files that are gone, if all edits from before that are settled. Makes no draw.
    pub(crate) fn remove_gone(&mut self)
        ensures keeps { KeepsState self.old self.new }
        ensures journal { KeepsJournal self.old self.new }
    {
        settling::<R>();
        let settled = self.store.settled_edits();
        if let Some(first) = self.gone.first() {
            if first.edits > settled {
                return;
            }
        }
        for i in 0..self.gone.len() {
            let Some(gone) = self.gone.get(i).copied() else {
                break;
            };
            if gone.edits > settled {
                break;
            }
            self.remove_settled(gone.inode, settled);
        }
        self.gone.retain(|gone| gone.edits > settled);
    }

    /// Removes a file that has no name, and that no crash finds a name of, and its blob. If memory is refused, the blob stays until
    /// the next crash.
    pub(crate) fn remove_file(&mut self, inode: u64)
        requires unnamed { ∥ NamedAtMost (names_of self.old) inode 0 ∥₁ }
        requires unfound { MayName (told_of self.old) inode → ⊥ }
        ensures keeps { KeepsState self.old self.new }
        ensures journal { KeepsJournal self.old self.new }
    {
        settling::<R>();
        self.store.set_config(Config::default());
        self.files.remove(&inode);
        let _ = self.store.remove_file(inode);
    }
}
