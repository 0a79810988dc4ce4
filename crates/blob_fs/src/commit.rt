//! A commit of all edits to a new journal, without a crash.
ghost use Rattle.std.specs.Prelude.{◌⊎◌, OnErr, OnOk};
ghost use Rattle.blob_fs.specs.Files.{Commits, GivesTold, KeepsTold, SameNames, SettlesSome};
ghost use Rattle.blob_fs.specs.States.{KeepsFixedAndOptions};

use crate::error::FsError;
use crate::file_system::FileSystem;
use blob_journal::laws::{bindings, settling};
use rand_core::Rng;

impl<R: Rng + Drop> FileSystem<R> {
    /// Settles all edits, and begins the journal anew: it then has the names alone, so it is as short as after a crash. The bytes of
    /// files stay as they are, synced or not. It is honest also if syncs lie. Makes no draw.
    ///
    /// # Errors
    ///
    /// `Memory`, `OffsetOverflow`, `GenerationsExhausted`. Some of the edits may be settled. No name has changed.
    #[tactic(auto, using(crate::proofs::Settling::settles_kept, crate::proofs::Settling::settles_then, crate::proofs::Settling::settles_from))]
    pub fn commit(&mut self) -> Result<(), FsError>
        ensures names { SameNames self.old self.new }
        ensures committed { OnOk result (Commits self.old self.new) }
        ensures some { OnErr result (SettlesSome self.old self.new) }
        ensures rest { KeepsFixedAndOptions self.old self.new }
    {
        settling::<R>();
        self.begin_call()?;
        self.settle_names()?;
        self.begin_journal()?;
        Ok(())
    }

    /// Begins the journal anew, if nothing is unsettled.
    fn begin_journal(&mut self) -> Result<(), FsError>
        ensures names { SameNames self.old self.new }
        ensures told { OnOk result (KeepsTold self.old self.new ⊎ GivesTold self.new) }
        ensures untold { OnErr result (KeepsTold self.old self.new) }
        ensures rest { KeepsFixedAndOptions self.old self.new }
    {
        bindings();
        self.store.begin_anew()?;
        Ok(())
    }
}
