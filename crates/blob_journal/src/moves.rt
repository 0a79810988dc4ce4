//! The new names of files that moved to another directory, as edits of their own.
ghost use Rattle.std.specs.Prelude.{◌≡◌, ◌≢◌, MatchBool, OnOk, option_map};
ghost use Rattle.blob_journal.specs.Moves.{view_name};

use crate::journaled::Journaled;
use blob_base::{Error, Probability};
use blob_directory::edit::{Binding, Edit};
use blob_directory::unsettled::About;
use rand_core::Rng;

/// Returns whether both are of the same file or directory.
fn is_same(a: Binding, b: Binding) -> bool
    ensures { MatchBool result (a ≡ b) (a ≢ b) }
{
    a == b
}

impl<R: Rng + Drop> Journaled<R> {
    ghost use Rattle.blob_journal.specs.Moves.{AddsName, BindsMoved, BindsMovedAt, TellsAgain};
    ghost use Rattle.blob_journal.specs.Unchanged.{KeepsNames};

    /// Records a name as an edit of its own, in a directory, if calls see it bound so.
    fn add_name(
        &mut self,
        name: Option<(Vec<u8>, Binding)>,
        inode: u64,
        directory: u64,
        rate: Probability,
    ) -> Result<(), Error>
        ensures names { KeepsNames self.old self.new }
        ensures told { TellsAgain self.old self.new }
        ensures added { OnOk result (AddsName (option_map view_name name) inode directory self.old self.new) }
    {
        let Some((entry, to)) = name else {
            return Ok(());
        };
        let Some(bound) = self.names.get(&entry) else {
            return Ok(());
        };
        if !is_same(bound, to) {
            return Ok(());
        }
        let about = About::of_name(inode, directory);
        self.add_edit(Edit::one(entry, Some(to)), about, rate, false)?;
        Ok(())
    }

    /// Records the new name of one edit, as `bind_moved` does of each.
    fn bind_one(&mut self, at: usize, directory: u64, rate: Probability) -> Result<(), Error>
        ensures names { KeepsNames self.old self.new }
        ensures told { TellsAgain self.old self.new }
        ensures bound { OnOk result (BindsMovedAt at directory self.old self.new) }
    {
        let Some(edit) = self.unsettled.as_slice().get(at) else {
            return Ok(());
        };
        if !edit.about.moved_into(directory) {
            return Ok(());
        }
        let inode = edit.about.inode;
        let name = edit.edit.new_name(self.alloc)?;
        self.add_name(name, inode, directory, rate)
    }

    /// Records the new name of each file that moved into a directory as an edit of its own, which a sync of the directory settles: it doesn't
    /// settle the removal of the old name. Does so once for each move that nothing settled, and not if calls see something else there by
    /// now. No name changes. Draws nothing.
    ///
    /// # Errors
    ///
    /// Those of `make`. Some of these edits may be recorded.
    pub fn bind_moved(&mut self, directory: u64, rate: Probability) -> Result<(), Error>
        ensures names { KeepsNames self.old self.new }
        ensures told { TellsAgain self.old self.new }
        ensures bound { OnOk result (BindsMoved directory self.old self.new) }
    {
        if !self.unsettled.concerns(directory)? {
            return Ok(());
        }
        for at in 0..self.unsettled.as_slice().len() {
            self.bind_one(at, directory, rate)?;
        }
        self.unsettled.note_bound(directory);
        Ok(())
    }
}
