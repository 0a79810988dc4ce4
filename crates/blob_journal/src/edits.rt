//! Edits of the names, each in the journal, and the syncs that settle them.
ghost use Rattle.std.specs.Prelude.{◌≡◌, None, [], IfOk, OnOk, OnErr, length, take};
ghost use Rattle.blob_memory.specs.Store.{place};
ghost use Rattle.blob_model.specs.Rates.{sample};
ghost use Rattle.blob_faulty.specs.Wrapper.{config_of, inside, next_write_of};
ghost use Rattle.blob_directory.specs.Names.{Same, edit_of, resizes};
ghost use Rattle.blob_directory.specs.Settled.{AreSettled};
ghost use Rattle.blob_directory.specs.Syncs.{of_truncation};
ghost use Rattle.blob_journal.specs.Draws.{EndsWithEdit};
ghost use Rattle.blob_journal.specs.Found.{IsKept, WritesJournal};
ghost use Rattle.blob_journal.specs.Keeping.{told_by};
ghost use Rattle.blob_journal.specs.Settling.{Changes, all_settled};
ghost use Rattle.blob_journal.specs.Told.{Grows, is_marked_in, settled_in};

use crate::journal::Journal;
use crate::journaled::Journaled;
use crate::store::Store;
use blob_base::{Error, Probability};
use blob_directory::edit::{Edit, truncation_of};
use blob_directory::laws as directory;
use blob_directory::log::Log;
use blob_directory::profile::Settles;
use blob_directory::table::Table;
use blob_directory::unsettled::{About, Synced, Unsettled};
use blob_directory::unsettled_edits::UnsettledEdits;
use blob_faulty::Config;
use blob_packed::laws::records;
use rand_core::Rng;
use std::alloc::Global;

/// Makes the records of the edits that are marked durable. Those before an error stay.
fn settle_marked<R: Rng>(
    alloc: Global,
    store: &mut Store<R>,
    journal: &mut Journal,
    edits: &[Unsettled],
) -> Result<(), Error>
    ensures writes { WritesJournal store.old journal.old store.new journal.new }
    ensures records { journal.new.records ≡ journal.old.records }
    ensures settled { OnOk result (Changes store.old store.new (place (inside journal.old.blob)) (all_settled edits.now)) }
    ensures kept { IsKept store.old journal.old edits.now → IsKept store.new journal.new edits.now }
    ensures told { OnOk result (IsKept store.old journal.old edits.now → told_by journal.new ≡ settled_in (is_marked_in edits.now) 0 (told_by journal.old)) }
    ensures grows { IsKept store.old journal.old edits.now → Grows (told_by journal.old) (told_by journal.new) }
{
    records();
    for edit in edits {
        if edit.is_wanted {
            journal.settle(alloc, store, edit)?;
        }
    }
    Ok(())
}

impl<R: Rng + Drop> Journaled<R> {
    ghost use Rattle.blob_journal.specs.Fixed.{KeepsOpen};
    ghost use Rattle.blob_journal.specs.Settling.{AddsUnsettled, NotesEdit, SettlesEdits, unsettled_of};
    ghost use Rattle.blob_journal.specs.Journals.{store_of};
    ghost use Rattle.blob_journal.specs.Logs.{Follows, MarksLast, NotesSync, logged_in};
    ghost use Rattle.blob_journal.specs.Keeping.{Edits, KeepsTable, KeepsTold, SameBindings, SettlesSome, generator_in, names_in, table_in, told_in, with_generator};
    ghost use Rattle.blob_journal.specs.Unchanged.{KeepsContents, KeepsNamesAndEdits, KeepsNames, TellsEdit};

    /// Returns no names over a new store, with faults drawn from the generator.
    ///
    /// # Errors
    ///
    /// `Memory` only.
    pub fn new(alloc: Global, rng: R) -> Result<Journaled<R>, Error>
        ensures names { IfOk result (λ j. Same (names_in j) (λ _. None)) }
        ensures told { IfOk result (λ j. told_in j ≡ []) }
        ensures log { IfOk result (λ j. Same (logged_in j) (λ _. None)) }
    {
        records();
        let memory = blob_memory::Storage::new(alloc);
        let mut store = blob_faulty::Storage::new(alloc, memory, rng, Config::default());
        let (journal, _) = Journal::open(alloc, &mut store, 0)?;
        Ok(Journaled {
            alloc,
            store,
            journal,
            names: Table::new(alloc),
            unsettled: UnsettledEdits::new(alloc),
            log: Log::new(alloc),
            next_edit: 0,
            opened: 0,
        })
    }

    /// Returns the fault wrapper.
    pub fn store(&self) -> &Store<R>
        ensures { result.now ≡ store_of self.now }
    {
        &self.store
    }

    /// Returns the generator that the draws come from.
    pub fn rng(&self) -> &R
        ensures { result.now ≡ generator_in self.now }
    {
        self.store.rng()
    }

    /// Replaces the generator, and returns the one before. The next draw is the first one from `rng`.
    pub fn replace_rng(&mut self, rng: R) -> R
        ensures before { result ≡ generator_in self.old }
        ensures set { self.new ≡ with_generator self.old rng }
        ensures contents { KeepsContents self.old self.new }
    {
        self.store.replace_rng(rng)
    }

    /// Draws a rate once, as a call on a file does, and returns whether it is true. Nothing else changes.
    pub fn draw(&mut self, rate: Probability) -> bool
        ensures drawn { (result, R.stream (generator_in self.new)) ≡ sample rate (R.stream (generator_in self.old)) }
        ensures set { self.new ≡ with_generator self.old (generator_in self.new) }
        ensures contents { KeepsContents self.old self.new }
    {
        self.store.draw(rate)
    }

    /// Replaces the fault rates of calls on files. What is pending keeps the mode and the rate of its issue.
    pub fn set_config(&mut self, config: Config)
        ensures set { config_of (store_of self.new) ≡ config }
        ensures contents { KeepsContents self.old self.new }
    {
        self.store.set_config(config);
    }

    /// Returns the names that calls see.
    pub fn names(&self) -> &Table
        ensures { result.now ≡ table_in self.now }
    {
        &self.names
    }

    /// Returns the edits that nothing settled, in the order of their calls.
    pub fn unsettled(&self) -> &[Unsettled]
        ensures { result.now ≡ unsettled_of self.now }
    {
        self.unsettled.as_slice()
    }

    /// Returns how many edits the journal has.
    pub fn told_edits(&self) -> u64
        ensures { result ≡ length (told_in self.now) }
    {
        records();
        self.journal.records
    }

    /// Returns how many edits come before the first one of `unsettled`, or how many there are if it has none. They are settled.
    pub fn settled_edits(&self) -> u64
        ensures { AreSettled (take result (told_in self.now)) }
    {
        match self.unsettled.as_slice().first() {
            None => self.journal.records,
            Some(edit) => edit.record,
        }
    }

    /// Returns the number of the next edit, counted from the start.
    pub fn next_edit(&self) -> u64 {
        self.next_edit
    }

    /// Returns the number of the next write that the store records, of a file or of an edit. Each one since then has this
    /// number or a greater one.
    pub fn next_write(&self) -> u64
        ensures { result ≡ next_write_of (store_of self.now) }
    {
        self.store.next_write()
    }

    /// Adds an edit to the journal, unsynced, in a record of its own, and to those that nothing settled, with whether the log follows
    /// it. Changes no name. Returns the edit's number.
    ///
    /// # Errors
    ///
    /// Those of `make`. No edit was added, and none is settled.
    pub(crate) fn add_edit(
        &mut self,
        edit: Edit,
        about: About,
        rate: Probability,
        is_followed: bool,
    ) -> Result<u64, Error>
        ensures noted { IfOk result (λ number. AddsUnsettled (edit_of edit) about number self.old self.new) }
        ensures marked { OnOk result (MarksLast is_followed self.old self.new) }
        ensures tells { OnOk result (TellsEdit (edit_of edit) rate self.old self.new) }
        ensures ends { OnOk result (∥ EndsWithEdit (edit_of edit) rate self.new ∥₁) }
        ensures refused { OnErr result (KeepsNamesAndEdits self.old self.new) }
        ensures names { KeepsNames self.old self.new }
    {
        directory::records();
        records();
        if !edit.fits() {
            return Err(Error::OffsetOverflow);
        }
        self.unsettled.reserve()?;
        let number = self.next_edit;
        let Some(next) = number.checked_add(1) else {
            return Err(Error::OffsetOverflow);
        };
        let (record, offset) = self.journal.add(self.alloc, &mut self.store, &edit, rate)?;
        self.next_edit = next;
        self.unsettled.push_reserved(Unsettled {
            edit,
            record,
            offset,
            number,
            about,
            is_wanted: false,
            is_seen: false,
            is_followed,
        });
        Ok(number)
    }

    /// Makes an edit: it is in the journal, unsynced, in a record of its own that a crash keeps whole, by this rate, or loses. The
    /// names are changed. Draws nothing.
    ///
    /// # Errors
    ///
    /// `Memory`, `GenerationsExhausted`, `OffsetOverflow` if no number is left or the edit is too long for a record. No name has
    /// changed.
    pub fn make(&mut self, edit: Edit, about: About, rate: Probability) -> Result<(), Error>
        ensures made { OnOk result (Edits (edit_of edit) self.old self.new) }
        ensures noted { OnOk result (NotesEdit (edit_of edit) about rate self.old self.new) }
        ensures tells { OnOk result (TellsEdit (edit_of edit) rate self.old self.new) }
        ensures refused { OnErr result (SameBindings self.old self.new) }
        ensures untold { OnErr result (KeepsTold self.old self.new) }
        ensures followed { OnOk result (Follows (edit_of edit) self.old self.new) }
        ensures log { OnErr result (Same (logged_in self.old) (logged_in self.new)) }
        ensures still { KeepsOpen self.old self.new }
    {
        self.names.prepare(&edit)?;
        let is_followed = self.log.prepare(&edit)?;
        self.add_edit(edit, about, rate, is_followed)?;
        let Some(added) = self.unsettled.as_slice().last() else {
            return Ok(());
        };
        self.names.apply(&added.edit);
        self.log.follow(&added.edit, is_followed);
        Ok(())
    }

    /// Records the edit of a truncation of a file: it is in the journal, unsynced, in a record of its own that a crash keeps
    /// whole, by this rate, or loses. Returns the edit's number. No name changes. Draws nothing.
    ///
    /// # Errors
    ///
    /// Those of `make`. No edit was recorded.
    pub fn record_truncation(&mut self, inode: u64, rate: Probability) -> Result<u64, Error>
        ensures noted { IfOk result (λ n. AddsUnsettled (resizes inode) (of_truncation inode) n self.old self.new) }
        ensures tells { OnOk result (TellsEdit (resizes inode) rate self.old self.new) }
        ensures ends { OnOk result (∥ EndsWithEdit (resizes inode) rate self.new ∥₁) }
        ensures refused { OnErr result (KeepsNamesAndEdits self.old self.new) }
        ensures names { KeepsNames self.old self.new }
    {
        let edit = truncation_of(self.alloc, inode)?;
        self.add_edit(edit, About::of_truncation(inode), rate, false)
    }

    /// Settles the edits that a sync settles, and notes that it left the others unsettled. Draws nothing.
    ///
    /// # Errors
    ///
    /// `Memory`, `OffsetOverflow`. Some of the edits may be settled.
    pub fn settle(&mut self, settles: Settles, synced: Synced) -> Result<(), Error>
        ensures names { KeepsTable self.old self.new }
        ensures settled { OnOk result (SettlesEdits settles synced self.old self.new) }
        ensures some { SettlesSome self.old self.new }
        ensures log { OnOk result (NotesSync settles synced self.old self.new) }
        ensures still { KeepsOpen self.old self.new }
    {
        records();
        if !self.unsettled.want(settles, synced)? {
            self.log.note(settles, &[])?;
            return Ok(());
        }
        let edits = self.unsettled.as_slice();
        self.log.note(settles, edits)?;
        settle_marked(self.alloc, &mut self.store, &mut self.journal, edits)?;
        self.unsettled.drop_wanted();
        Ok(())
    }
}
