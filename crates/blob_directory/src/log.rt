//! The names that the log of the syncs has.
ghost use Rattle.std.specs.Prelude.{◌≡◌, if◌then◌else◌, None, true, IfOk, OnOk};
ghost use Rattle.blob_directory.specs.Logs.{frees_any, logged, logged_after};
ghost use Rattle.blob_directory.specs.Names.{Same, edit_of, edited};
ghost use Rattle.blob_directory.specs.Tables.{HasRoomFor};

use crate::edit::Edit;
use crate::profile::Settles;
use crate::table::Table;
use crate::unsettled::Unsettled;
use std::alloc::{AllocError, Global};

/// The names that syncs by `Settles::Names` have settled since the last commit of all edits.
#[derive(Drop)]
pub struct Log {
    alloc: Global,
    names: Table,
}

impl Log {
    /// Returns a log without names. Doesn't allocate.
    pub fn new(alloc: Global) -> Log
        ensures { Same (logged result) (λ _. None) }
    {
        Log {
            alloc,
            names: Table::new(alloc),
        }
    }

    /// Returns a copy. The only error is out of memory.
    pub fn copy(&self) -> Result<Log, AllocError>
        ensures { IfOk result (λ copy. logged copy ≡ logged self.now) }
    {
        Ok(Log {
            alloc: self.alloc,
            names: self.names.copy()?,
        })
    }

    /// Returns whether the log follows an edit, since it has a name that the edit frees, and makes room for it then. Fails only if
    /// memory runs out. No name changes.
    pub fn prepare(&mut self, edit: &Edit) -> Result<bool, AllocError>
        ensures same { Same (logged self.old) (logged self.new) }
        ensures follows { IfOk result (λ follows. follows ≡ frees_any (logged self.old) (edit_of edit.now)) }
        ensures room { IfOk result (λ follows. follows ≡ true → HasRoomFor self.new.names (edit_of edit.now)) }
    {
        if !self.names.frees_any(edit) {
            return Ok(false);
        }
        self.names.prepare(edit)?;
        Ok(true)
    }

    /// Applies an edit for which `prepare` has returned this.
    pub fn follow(&mut self, edit: &Edit, follows: bool)
        ensures { (follows ≡ true → HasRoomFor self.old.names (edit_of edit.now)) → Same (logged self.new) (if follows then edited (logged self.old) (edit_of edit.now) else logged self.old) }
    {
        if follows {
            self.names.apply(edit);
        }
    }

    /// Notes a sync that settles the marked edits: by `Settles::Names` the log has their names from then on, by another rule it is
    /// empty. Fails only if memory runs out, and then has some of them.
    pub fn note(&mut self, settles: Settles, edits: &[Unsettled]) -> Result<(), AllocError>
        ensures { OnOk result (Same (logged self.new) (logged_after settles edits.now (logged self.old))) }
    {
        if settles != Settles::Names {
            self.names = Table::new(self.alloc);
            return Ok(());
        }
        for edit in edits {
            if edit.is_wanted {
                self.names.make(&edit.edit)?;
            }
        }
        Ok(())
    }
}
