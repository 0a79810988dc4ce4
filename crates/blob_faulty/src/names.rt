//! Opens, removals, scans and finished syncs of the wrapper.
ghost use Rattle.std.specs.Prelude.{◌≡◌, None, OnOk, OnErr, option_copied};
ghost use Rattle.blob_base.specs.Handles.{outcome_of, marker_of};
ghost use Rattle.blob_base.specs.StoreChanges.{DropsBytes, DropsNames, SameFiles};
ghost use Rattle.blob_header.specs.Refusals.{error_of};
ghost use Rattle.blob_draws.specs.Answers.{injected_or};
ghost use Rattle.blob_draws.specs.Faults.{draw};
ghost use Rattle.blob_pending.specs.Lists.{SameLists};
ghost use Rattle.blob_faulty.specs.Names.{EndsLists, EndsNamed, OpenLeaves, MayRemove, MayRemoveNamed, Removes, RemovesNamed, RemovesNames, RemovesBytes, RemovesFiles, ScanLeaves, FinishLeaves, SameStore, Steps};
ghost use Rattle.blob_faulty.specs.Wrapper.{inner_of, rng_of, config_of, inside, size_of};

use crate::blob::Blob;
use crate::retired::Retired;
use crate::storage::Storage;
use blob_base::{BlobVersion, Error, Handle};
use blob_draws::faults::draws;
use blob_pending::lists::Lists;
use rand_core::Rng;
use std::ops::RangeInclusive;

/// Removes a partition from a store, and retires the lists of the incarnations that this ends.
fn remove_partition<S: blob_base::Storage>(
    inner: &mut S,
    lists: &mut Lists<S>,
    partition: &str,
) -> Result<(), Error>
    ensures allowed { S.allows_remove inner.old partition.now None (error_of result) }
    ensures leaves { S.leaves_remove inner.old partition.now None (error_of result) inner.new }
    ensures directory { OnOk result (DropsNames S.Durable inner.old inner.new partition.now None) }
    ensures durable { OnOk result (DropsBytes S.Durable inner.old inner.new partition.now None) }
    ensures err { OnErr result (SameFiles S.Durable inner.old inner.new) }
    ensures retired { OnOk result (EndsLists S.Durable inner.old partition.now None lists.old lists.new) }
    ensures kept { OnErr result (SameLists S.place lists.old.all.lists.items lists.new.all.lists.items) }
{
    let ending = lists.find_partition(inner, partition);
    inner.remove(partition, None)?;
    lists.retire_partition(ending);
    Ok(())
}

/// Removes a blob from a store, or with no name the partition, and retires the lists of the incarnations that this ends.
fn remove_listed<S: blob_base::Storage>(
    inner: &mut S,
    lists: &mut Lists<S>,
    partition: &str,
    name: Option<&[u8]>,
) -> Result<(), Error>
    ensures allowed { S.allows_remove inner.old partition.now (option_copied name.entry) (error_of result) }
    ensures leaves { S.leaves_remove inner.old partition.now (option_copied name.entry) (error_of result) inner.new }
    ensures directory { OnOk result (DropsNames S.Durable inner.old inner.new partition.now (option_copied name.entry)) }
    ensures durable { OnOk result (DropsBytes S.Durable inner.old inner.new partition.now (option_copied name.entry)) }
    ensures err { OnErr result (SameFiles S.Durable inner.old inner.new) }
    ensures retired { OnOk result (EndsNamed S.Durable inner.old partition.now name.entry lists.old lists.new) }
    ensures kept { OnErr result (SameLists S.place lists.old.all.lists.items lists.new.all.lists.items) }
{
    let Some(name) = name else {
        return remove_partition(inner, lists, partition);
    };
    let list = lists.find_name(inner, partition, name);
    inner.remove(partition, Some(name))?;
    lists.retire_found(list);
    Ok(())
}

impl<S: blob_base::Storage, R: Rng> Storage<S, R> {
    /// Draws the remove rate, then removes the blob, or with no name the whole partition, and retires the pending lists of the
    /// incarnations that this ends. Lists of incarnations that ended earlier stay, and change no byte. The trait's `remove` is
    /// this call without its `Retired`.
    ///
    /// # Errors
    ///
    /// `Injected`; then those of the inner store: over memory `PartitionNameInvalid`, `PartitionMissing`, `BlobMissing`, or
    /// `Memory` for their texts. Nothing is removed or retired.
    pub fn remove_retired(&mut self, partition: &str, name: Option<&[u8]>) -> Result<Retired, Error>
        ensures allowed { MayRemoveNamed R.stream S.allows_remove self.old partition.now name.entry (error_of result) }
        ensures leaves { RemovesNamed S.Durable R.stream S.leaves_remove self.old partition.now name.entry result self.new }
        ensures directory { OnOk result (RemovesNames S.Durable self.old self.new partition.now (option_copied name.entry)) }
        ensures durable { OnOk result (RemovesBytes S.Durable self.old self.new partition.now (option_copied name.entry)) }
        ensures err { OnErr result (SameStore S.Durable self.old self.new) }
        ensures files { OnOk result (RemovesFiles S.Durable self.old self.new partition.now (option_copied name.entry)) }
        ensures same_files { OnErr result (Steps S.place S.directory S.durable self.old self.new (λ files. files)) }
    {
        if draws(self.config.remove_rate, &mut self.rng) {
            return Err(Error::Injected);
        }
        remove_listed(&mut self.inner, &mut self.lists, partition, name)?;
        Ok(Retired { _private: () })
    }
}

impl<S: blob_base::Storage, R: Rng> blob_base::Storage for Storage<S, R> {
    type Blob = Blob<S::Blob>;

    ghost allows_open = { λ s p n first last. injected_or (draw (config_of s).open_rate (R.stream (rng_of s))).0 (S.allows_open (inner_of s) p n first last) };

    ghost allows_remove = { MayRemove R.stream S.allows_remove };

    ghost allows_scan = { λ s p. injected_or (draw (config_of s).scan_rate (R.stream (rng_of s))).0 (S.allows_scan (inner_of s) p) };

    ghost leaves_open = { λ before p n first last answer after. OpenLeaves S.place R.stream (S.leaves_open (inner_of before) p n first last answer) before after };

    ghost leaves_remove = { Removes S.Durable R.stream S.leaves_remove };

    ghost leaves_scan = { λ before p answer after. ScanLeaves S.Durable R.stream (S.leaves_scan (inner_of before) p answer) before after };

    ghost leaves_finish = { λ before marker after. FinishLeaves S.place marker before after };

    ghost keeps_size = { λ blob size. (size_of blob ≡ size) × S.keeps_size (inside blob) size };

    /// Opens a blob in the inner store, after one draw of the open rate. The handle's size is the returned size. No kept byte of
    /// any blob is lost (`laws::keeps::accepted_opens`).
    ///
    /// This does not discard pending writes: a later crash may still apply them over what the handle read. It does not prevent a
    /// second handle either. Over a memory store, call `admit` after it to discard them, or use `open_versioned_admitted`, which
    /// does both, or `open_exclusive`, which also allows one handle per name only.
    ///
    /// # Errors
    ///
    /// `Injected`; then those of the inner store: over memory `PartitionNameInvalid`, `BlobCorrupt`, `BlobVersionMismatch`,
    /// `GenerationsExhausted`, or `Memory`.
    fn open_versioned(
        &mut self,
        partition: &str,
        name: &[u8],
        versions: RangeInclusive<BlobVersion>,
    ) -> Result<(Blob<S::Blob>, u64, BlobVersion), Error> {
        if draws(self.config.open_rate, &mut self.rng) {
            return Err(Error::Injected);
        }
        let (inner, size, version) = self.inner.open_versioned(partition, name, versions)?;
        let list = 0;
        Ok((Blob { inner, size, list }, size, version))
    }

    /// Removes a blob or a partition as `remove_retired`.
    ///
    /// # Errors
    ///
    /// Those of `remove_retired`.
    fn remove(&mut self, partition: &str, name: Option<&[u8]>) -> Result<(), Error> {
        self.remove_retired(partition, name)?;
        Ok(())
    }

    /// Draws the scan rate, then lists the names in the inner store. Records nothing.
    ///
    /// # Errors
    ///
    /// `Injected`; then those of the inner store: over memory `PartitionNameInvalid`, `PartitionMissing`, or `Memory`.
    fn scan(&mut self, partition: &str) -> Result<Vec<Vec<u8>>, Error> {
        if draws(self.config.scan_rate, &mut self.rng) {
            return Err(Error::Injected);
        }
        self.inner.scan(partition)
    }

    /// Completes a started sync and returns its outcome, with no error of its own. Drops the sync's marker and every pending
    /// entry of the same incarnation before it. If the marker no longer exists (after a crash, a later sync, `admit` or a
    /// removal), nothing changes. Makes no draw.
    fn finish(&mut self, handle: Handle) -> Result<(), Error>
        ensures outcome { result ≡ outcome_of handle }
        ensures leaves { FinishLeaves S.place (marker_of handle) self.old self.new }
        ensures files { Steps S.place S.directory S.durable self.old self.new (λ files. files) }
    {
        if let Some(marker) = handle.marker() {
            self.lists.finish(marker);
        }
        handle.into_outcome()
    }
}
