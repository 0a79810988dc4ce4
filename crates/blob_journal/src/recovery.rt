//! The recovery: names from the journal, and a new journal.
ghost use Rattle.std.specs.Prelude.{◌≡◌, ◌≤◌, ◌+◌, ◌⊎◌, [], None, codes, IfOk, OnOk, OnErr};
ghost use Rattle.std.specs.Int.{w64, to_be_bytes};
ghost use Rattle.blob_directory.specs.Checkpoints.{FitsJournal};
ghost use Rattle.blob_directory.specs.Counts.{CountsNames};
ghost use Rattle.blob_directory.specs.Names.{Same};
ghost use Rattle.blob_directory.specs.Tables.{bound};
ghost use Rattle.blob_directory.specs.Trees.{Finds, HasLinks, HasNamedLinks};
ghost use Rattle.blob_faulty.specs.Wrapper.{inner_of, inside};
ghost use Rattle.blob_journal.specs.Currents.{IsEmpty, IsGiven, KeepsFiles, Represents};
ghost use Rattle.blob_journal.specs.Found.{bytes_in};
ghost use Rattle.blob_journal.specs.Incarnations.{KeepsIncarnationsOf, KeepsPartition};
ghost use Rattle.blob_journal.specs.Limits.{FailsAtLimits, OpensQuietly};
ghost use Rattle.blob_journal.specs.Stores.{KeepsStoreBut};
ghost use Rattle.blob_memory.specs.Store.{directory, place};

use crate::files::number_of;
use crate::journal::Journal;
use crate::journaled::Journaled;
use crate::store::{JOURNALS, Store, discard, remove};
use blob_base::Error;
use blob_directory::checkpoint::checkpoint;
use blob_directory::log::Log;
use blob_directory::profile::Keeps;
use blob_directory::tree::{Tree, kept_names, reached};
use blob_faulty::Config;
use blob_faulty::laws::leaves;
use blob_packed::laws::records;
use rand_core::Rng;
use std::alloc::{AllocError, Global};
use std::collections::BTreeMap;

/// Begins the journal of a generation, empty, with nothing pending. A blob that has its name is removed before.
fn next_journal<R: Rng>(
    alloc: Global,
    store: &mut Store<R>,
    generation: u64,
) -> Result<Journal, Error>
    ensures partition { IfOk result (λ j. (place (inside j.blob)).partition ≡ codes "j") }
    ensures name { IfOk result (λ j. (place (inside j.blob)).name ≡ to_be_bytes w64 generation) }
    ensures generation { IfOk result (λ j. j.generation ≡ generation) }
    ensures empty { IfOk result (λ j. IsEmpty store.new (place (inside j.blob))) }
    ensures live { IfOk result (λ j. bytes_in j ≡ []) }
    ensures numbered { IfOk result (λ j. (directory (inner_of store.old)).next ≤ (place (inside j.blob)).number) }
    ensures given { IfOk result (λ j. IsGiven store.new (place (inside j.blob))) }
    ensures keeps { KeepsStoreBut (codes "j") (to_be_bytes w64 generation) store.old store.new }
    ensures blobs { OnOk result (KeepsPartition (codes "f") store.old store.new) }
    ensures incarnations { KeepsIncarnationsOf (codes "f") store.old store.new }
    ensures errors { OpensQuietly store.old → FailsAtLimits store.new result }
{
    leaves::same_bytes::<blob_memory::Storage, R>();
    let name = generation.to_be_bytes();
    discard(store, JOURNALS, &name)?;
    let (journal, _) = Journal::open(alloc, store, generation)?;
    let _ = store.admit(JOURNALS, &name);
    Ok(journal)
}

impl<R: Rng + Drop> Journaled<R> {
    ghost use Rattle.blob_journal.specs.Blobs.{SameFiles};
    ghost use Rattle.blob_journal.specs.Errors.{IsFaultless};
    ghost use Rattle.blob_journal.specs.Fixed.{KeepsOpen};
    ghost use Rattle.blob_journal.specs.Logs.{logged_in};
    ghost use Rattle.blob_journal.specs.Journals.{FindsNames, GivesNames, store_of};
    ghost use Rattle.blob_journal.specs.Settling.{FindsEdits, counted, unsettled_of};
    ghost use Rattle.blob_journal.specs.Keeping.{FindsTold, GivesTold, KeepsTold, SameBindings, names_in, table_in};
    ghost use Rattle.blob_journal.specs.Unchanged.{KeepsNamesAndEdits};

    /// Returns the names that the journal gives and the root reaches, and of each edit that nothing settled, in order, whether
    /// the journal has its record and it counts. Calls still see the names of before. From here on the store draws nothing.
    ///
    /// # Errors
    ///
    /// `Memory`; `OffsetOverflow` if the end of the journal has no number of 64 bits.
    pub fn find_names(&mut self, keeps: Keeps) -> Result<(Tree, Vec<bool>), Error>
        ensures found { IfOk result (λ r. FindsNames self.old keeps (bound r.0.names)) }
        ensures fits { IfOk result (λ r. FitsJournal r.0) }
        ensures again { IfOk result (λ r. GivesNames self.old → Finds (bound r.0.names) (names_in self.old)) }
        ensures keeps { KeepsNamesAndEdits self.old self.new }
        ensures files { KeepsFiles (store_of self.old) (store_of self.new) }
        ensures kept { IfOk result (λ r. FindsTold self.old keeps (bound r.0.names)) }
        ensures links { IfOk result (λ r. HasLinks r.0) }
        ensures edits { IfOk result (λ r. FindsEdits self.old keeps r.1.items) }
        ensures named { IfOk result (λ r. HasNamedLinks r.0) }
        ensures counts { IfOk result (λ r. CountsNames r.0) }
        ensures same { OnOk result (SameFiles self.old self.new) }
        ensures still { KeepsOpen self.old self.new }
        ensures faultless { IsFaultless self.new }
        ensures errors { FailsAtLimits (store_of self.new) result }
    {
        records();
        self.store.set_config(Config::default());
        let generation = self.journal.generation;
        let (_, bytes) = Journal::open(self.alloc, &mut self.store, generation)?;
        let (names, kept) = kept_names(self.alloc, &bytes, keeps, self.unsettled.as_slice())?;
        let edits = self.kept_edits(&kept)?;
        let tree = reached(self.alloc, &names)?;
        Ok((tree, edits))
    }

    /// Returns of each edit that nothing settled whether its record counts. Fails only if memory runs out.
    fn kept_edits(&self, kept: &[bool]) -> Result<Vec<bool>, AllocError>
        ensures { IfOk result (λ edits. edits.items ≡ counted kept.now (unsettled_of self.now)) }
    {
        let mut edits = Vec::new(self.alloc);
        for edit in self.unsettled.as_slice() {
            let is_kept = kept.get(edit.record as usize).copied().unwrap_or(false);
            edits.push(is_kept)?;
        }
        Ok(edits)
    }

    /// Returns the number of the next generation. There is one: a generation is at most the number of its blob, and no blob has
    /// the last number.
    fn next_generation(&self) -> u64
        ensures { result ≡ self.now.journal.generation + 1 }
    {
        let number = number_of::<R>(&self.journal.blob);
        prove!(number < u64::MAX);
        self.journal.generation + 1
    }

    /// Makes these names those that calls see, in a new journal that settles them. The old journal goes once the new one is
    /// durable. Returns each directory with the one that has it. The store must draw nothing (`find_names`).
    ///
    /// # Errors
    ///
    /// `Memory`; `OffsetOverflow` if the end of the new journal has no number of 64 bits; `GenerationsExhausted` if the store has
    /// given all of its numbers. Calls see the names of before, and the old journal is there.
    pub fn renew(&mut self, tree: Tree) -> Result<BTreeMap<u64, u64>, Error>
        ensures done { OnOk result (table_in self.new ≡ tree.names) }
        ensures gives { OnOk result (FitsJournal tree → Represents (store_of self.old) → GivesNames self.new) }
        ensures told { OnOk result (FitsJournal tree → GivesTold self.new) }
        ensures refused { OnErr result (KeepsNamesAndEdits self.old self.new) }
        ensures same { OnOk result (SameFiles self.old self.new) }
        ensures still { KeepsOpen self.old self.new }
        ensures log { OnOk result (Same (logged_in self.new) (λ _. None)) }
        ensures errors { IsFaultless self.old → FailsAtLimits (store_of self.new) result }
    {
        records();
        let old = self.journal.generation;
        let generation = self.next_generation();
        let (bytes, count) = checkpoint(self.alloc, &tree)?;
        let mut journal = next_journal(self.alloc, &mut self.store, generation)?;
        journal.begin(&mut self.store, &bytes, count)?;
        let Tree {
            names,
            directories,
            ..
        } = tree;
        self.journal = journal;
        self.names = names;
        self.unsettled.clear();
        self.log = Log::new(self.alloc);
        let old_name = old.to_be_bytes();
        let _ = remove(&mut self.store, JOURNALS, &old_name);
        Ok(directories)
    }

    /// Begins the journal anew if nothing is unsettled: a new one settles the names that calls see, and the old one goes once that is
    /// durable. Otherwise the journal stays. Files stay as they are. From here on the store draws nothing.
    ///
    /// # Errors
    ///
    /// Those of `renew`. The old journal is there.
    pub fn begin_anew(&mut self) -> Result<(), Error>
        ensures names { SameBindings self.old self.new }
        ensures told { OnOk result (KeepsTold self.old self.new ⊎ GivesTold self.new) }
        ensures untold { OnErr result (KeepsTold self.old self.new) }
        ensures still { KeepsOpen self.old self.new }
    {
        if !self.unsettled.as_slice().is_empty() {
            return Ok(());
        }
        let (tree, _) = self.find_names(Keeps::Any)?;
        // Always true: each name that calls see is in the journal, and the root reaches it. But no contract says so.
        if !tree.names.is_same(&self.names) {
            return Ok(());
        }
        self.renew(tree)?;
        Ok(())
    }
}
