//! Names with their journal, over a store.
ghost use Rattle.std.specs.Prelude.{◌≡◌, ◌≤◌, true, codes};
ghost use Rattle.std.specs.Int.{w64, to_be_bytes};
ghost use Rattle.blob_model.specs.Directory.{is_current};
ghost use Rattle.blob_memory.specs.Store.{directory, place};
ghost use Rattle.blob_faulty.specs.Wrapper.{inner_of, inside};
ghost use Rattle.blob_directory.specs.UnsettledEdits.{edits_listed};
ghost use Rattle.blob_journal.specs.Found.{IsKept};
ghost use Rattle.blob_journal.specs.Limits.{AcceptsOpens};

use crate::journal::Journal;
use crate::store::Store;
use blob_directory::log::Log;
use blob_directory::table::Table;
use blob_directory::unsettled_edits::UnsettledEdits;
use std::alloc::Global;

/// The names that calls see, the journal of their edits, and the store that has it beside the blobs of files.
#[derive(Drop)]
pub struct Journaled<R> {
    pub(crate) alloc: Global,
    pub(crate) store: Store<R>,
    pub(crate) journal: Journal,
    pub(crate) names: Table,
    pub(crate) unsettled: UnsettledEdits,
    /// The names that the syncs since the last commit have settled.
    pub(crate) log: Log,
    /// The number of the next edit, counted from the start.
    pub(crate) next_edit: u64,
    /// Above the number of each blob of a file that was opened.
    pub(crate) opened: u64,
    // the journal's blob is the current one of its name
    ghost partition: { (place (inside journal.blob)).partition ≡ codes "j" },
    ghost name: { (place (inside journal.blob)).name ≡ to_be_bytes w64 journal.generation },
    ghost current: { is_current (directory (inner_of store)) (place (inside journal.blob)) ≡ true },
    // a later journal's blob has a greater number, so there are no more generations than numbers
    ghost numbered: { journal.generation ≤ (place (inside journal.blob)).number },
    // the numbers up to there were given in this store
    ghost given: { opened ≤ (directory (inner_of store)).next },
    // an open accepts each file, and none has the last number
    ghost accepted: { AcceptsOpens (directory (inner_of store)) },
    // of the journal's blob no more may be found than its records, each whole or lost, the settled ones always;
    // each listed edit has a record of its own, in order, and each edit that nothing settled is listed
    ghost kept: { ∥ IsKept store journal (edits_listed unsettled) ∥₁ },
}
