//! The crash of the store.
ghost use Rattle.std.specs.Prelude.{◌≡◌, ℕ, IfOk, OnErr, OnOk};

use crate::journaled::Journaled;
use blob_base::Error;
use blob_faulty::Selections;
use blob_faulty::laws::leaves;
use rand_core::Rng;

impl<R: Rng + Drop> Journaled<R> {
    ghost use Rattle.blob_faulty.specs.Crashes.{CrashDraws};
    ghost use Rattle.blob_journal.specs.Blobs.{crashed_file, current_file};
    ghost use Rattle.blob_journal.specs.Currents.{Represents};
    ghost use Rattle.blob_header.specs.Refusals.{IsMemory};
    ghost use Rattle.blob_journal.specs.Fixed.{KeepsOpen};
    ghost use Rattle.blob_journal.specs.Journals.{CrashKeeps, GivesNames, store_of};
    ghost use Rattle.blob_journal.specs.Settling.{CrashKeepsEdits};
    ghost use Rattle.blob_journal.specs.Unchanged.{KeepsNamesAndEdits};

    /// Crashes the store. The draws decide which unsynced bytes and which unsettled edits are kept. Handles keep their live
    /// bytes, and calls see the same names, until a recovery.
    ///
    /// # Errors
    ///
    /// `Memory`. Nothing has changed except the generator.
    pub fn crash(&mut self) -> Result<Selections, Error>
        ensures rows { IfOk result (CrashDraws R.stream (store_of self.old) (store_of self.new)) }
        ensures kept { IfOk result (λ rows. CrashKeeps self.old rows self.new) }
        ensures files { OnOk result (Represents (store_of self.new)) }
        ensures gives { OnOk result (GivesNames self.old → GivesNames self.new) }
        ensures keeps { KeepsNamesAndEdits self.old self.new }
        ensures bytes { IfOk result (λ rows. (i : ℕ) → current_file self.new i ≡ crashed_file self.old rows i) }
        ensures edits { IfOk result (λ rows. CrashKeepsEdits self.old rows self.new) }
        ensures still { KeepsOpen self.old self.new }
        ensures errors { OnErr result (IsMemory result) }
    {
        leaves::crashed::<R>();
        leaves::same_bytes::<blob_memory::Storage, R>();
        let rows = self.store.crash()?;
        Ok(rows)
    }
}
