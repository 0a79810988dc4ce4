//! The crash, and the recovery after it.
ghost use Rattle.std.specs.Prelude.{◌≡◌, ℕ, IfOk, OnErr, OnOk, unwrap_or};
ghost use Rattle.blob_fs.specs.Bytes.{FindsBytes, FindsEdits, FindsKnown, HasNoOrphan};
ghost use Rattle.blob_fs.specs.Draws.{DrawsCrash};
ghost use Rattle.blob_fs.specs.Errors.{IsLimited, IsExhaustedError, OnlyMemoryRefuses};
ghost use Rattle.blob_fs.specs.Fixed.{FindsFixed, FixesFound};
ghost use Rattle.blob_fs.specs.Files.{FindsKept, FindsTold, GivesNames, GivesTold, IsRecovered, KeepsEdits, KeepsOptions, SameNames};
ghost use Rattle.blob_fs.specs.Places.{FindsPlaces};

use crate::error::FsError;
use crate::file_system::FileSystem;
use crate::places::find_places;
use crate::truncation::Kept;
use crate::truncations::numbers_of;
use blob_base::Error;
use blob_directory::laws::found;
use blob_faulty::Selections;
use blob_journal::laws::{blobs, fixed};
use rand_core::Rng;
use std::alloc::AllocError;

/// Where a pending write was.
#[derive(Clone, Copy, Debug, PartialEq, Eq)]
pub struct Place {
    /// The file's inode. `None`: an edit in the journal.
    pub inode: Option<u64>,
    /// The offset in bytes in the file or in the journal.
    pub offset: u64,
}

/// What a crash kept.
#[derive(Drop)]
pub struct Crash {
    /// The rows of the layer's crash: of each pending write, which bytes were kept.
    pub rows: Selections,
    /// Of each row, where the write was.
    pub places: Vec<Place>,
    /// Of each edit that nothing had settled, in order, whether it was kept.
    pub edits: Vec<bool>,
}

/// Returns what the last crash kept, if its recovery failed, otherwise what this one kept.
fn used<'a>(before: &'a Option<Kept>, own: &'a Kept) -> &'a Kept
    ensures { result.now ≡ unwrap_or before.now own.now }
{
    match before {
        None => own,
        Some(kept) => kept,
    }
}

/// Returns what a crash returns for an error of its recovery. `OffsetOverflow` says that the end of a file or of the journal has no
/// number of 64 bits. No memory holds so much, so this is `Memory`.
fn refusal(error: FsError) -> FsError
    ensures { (next : ℕ) → IsLimited next error → IsExhaustedError next result }
{
    match error {
        FsError::Store(Error::OffsetOverflow) => FsError::Store(Error::Memory(AllocError)),
        error => error,
    }
}

impl<R: Rng + Drop> FileSystem<R> {
    /// Crashes and recovers. The draws decide which unsynced bytes and which unsettled edits are kept. Then all is durable, and
    /// every descriptor is stale. A file that a name reaches has the bytes that the layer's crash leaves of it, with the
    /// truncations that were kept, cut as the profile says: each byte that a sync fixed, and that no later call reached, is still
    /// there. Each byte that is found is fixed from then on. A file that no name reaches is deleted. Another crash straight after it
    /// finds the same names. Of each row, the place is that of the one pending write with its number.
    ///
    /// # Errors
    ///
    /// `Memory`, also if the end of a file or of the journal has no number of 64 bits; `GenerationsExhausted` if the store has given
    /// all 2^64 - 1 numbers of blobs. If the layer's crash failed, nothing has changed. If the recovery did, all other calls return
    /// `Crashed` until a crash returns Ok, which applies truncations by the writes that this one kept.
    pub fn crash(&mut self) -> Result<Crash, FsError>
        ensures drawn { IfOk result (λ crash. DrawsCrash R.stream self.old crash.rows) }
        ensures found { IfOk result (λ crash. FindsKept self.old crash.rows self.new) }
        ensures gives { OnOk result (GivesNames self.new) }
        ensures recovered { OnOk result (IsRecovered self.new) }
        ensures again { OnOk result (IsRecovered self.old → SameNames self.old self.new) }
        ensures refused { OnErr result (KeepsEdits self.old self.new) }
        ensures kept { OnOk result (FindsTold self.old self.new) }
        ensures told { OnOk result (GivesTold self.new) }
        ensures bytes { IfOk result (λ crash. FindsBytes self.old crash self.new) }
        ensures known { OnOk result (FindsKnown self.old self.new) }
        ensures edits { IfOk result (λ crash. FindsEdits self.old crash) }
        ensures orphans { OnOk result (HasNoOrphan self.new) }
        ensures fixed { OnOk result (FindsFixed self.old self.new) }
        ensures fixes { OnOk result (FixesFound self.old self.new) }
        ensures errors { OnlyMemoryRefuses self.new result }
        ensures places { IfOk result (λ crash. FindsPlaces self.old crash.rows crash.places.items) }
        ensures options { KeepsOptions self.old self.new }
    {
        found();
        blobs::<R>();
        fixed::<R>();
        let numbers = numbers_of(self.alloc, self.store.unsettled())?;
        let pending = self.pending_places()?;
        let mut places = Vec::with_capacity(self.alloc, pending.len())?;
        let rows = self.store.crash()?;
        find_places(&rows, &pending, &mut places);
        self.is_down = true;
        let own = Kept { rows, places };
        let before = self.kept.take();
        let edits = match self.recover(used(&before, &own), &numbers) {
            Ok(edits) => edits,
            Err(error) => {
                self.kept = Some(before.unwrap_or(own));
                return Err(refusal(error));
            }
        };
        self.is_down = false;
        let Kept { rows, places } = own;
        Ok(Crash {
            rows,
            places,
            edits,
        })
    }
}
