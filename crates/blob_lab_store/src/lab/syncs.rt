//! The started syncs of a laboratory by number: from 0, in the order of their starts. Numbers aren't reused, but the slot of a sync that
//! was finished is dropped.
ghost use Rattle.std.specs.Prelude.{◌≡◌, ◌++◌, ◌∷◌, [], Some, None, OnOk, OnErr, IfOk, IfSome, IfNone, length, map, set, option_map};
ghost use Rattle.blob_header.specs.Refusals.{IsMemory};
ghost use Rattle.blob_lab_model.specs.Answers.{kept_at};
ghost use Rattle.blob_lab_store.specs.Tables.{started_by, syncs_of, HasSyncRoom, KeepsMarker};

use crate::slots::Slots;
use blob_base::{Error, Handle};
use blob_header::error_copy::copied_error;
use std::alloc::Global;

/// Returns a copy of a started sync, with its marker unless it failed: a failed one has none. The only error is `Memory`.
fn copied_sync(alloc: Global, started: &Handle) -> Result<Handle, Error>
    ensures sync { IfOk result (λ copy. started_by copy ≡ started_by started.now) }
    ensures marker { IfOk result (λ copy. KeepsMarker started.now copy) }
    ensures memory { OnErr result (IsMemory result) }
{
    match started.outcome() {
        Err(e) => Ok(Handle::ready(Err(copied_error(alloc, e)?))),
        Ok(()) => match started.marker() {
            Some(marker) => Ok(Handle::marked(marker)),
            None => Ok(Handle::ready(Ok(()))),
        },
    }
}

/// Returns a copy of a slot. The only error is `Memory`.
fn copied_slot(alloc: Global, slot: &Option<Handle>) -> Result<Option<Handle>, Error>
    ensures sync { IfOk result (λ copy. option_map started_by copy ≡ option_map started_by slot.now) }
    ensures memory { OnErr result (IsMemory result) }
{
    match slot {
        None => Ok(None),
        Some(started) => Ok(Some(copied_sync(alloc, started)?)),
    }
}

/// A table of started syncs.
#[derive(Drop)]
pub(crate) struct Syncs {
    pub(crate) slots: Slots<Handle>,
}

impl Syncs {
    pub(crate) fn new(alloc: Global) -> Syncs
        ensures { syncs_of result ≡ [] }
    {
        Syncs {
            slots: Slots::new(alloc),
        }
    }

    /// Reserves capacity and a number for one more. The only error is `Memory`.
    pub(crate) fn reserve(&mut self) -> Result<(), Error>
        ensures syncs { syncs_of self.new ≡ syncs_of self.old }
        ensures room { OnOk result (HasSyncRoom self.new) }
        ensures memory { OnErr result (IsMemory result) }
    {
        self.slots.reserve()?;
        Ok(())
    }

    /// Adds one and returns its number. The table has capacity for it.
    pub(crate) fn add(&mut self, handle: Handle) -> usize
        requires { HasSyncRoom self.old }
        ensures number { result ≡ length (syncs_of self.old) }
        ensures syncs { syncs_of self.new ≡ syncs_of self.old ++ Some (started_by handle) ∷ [] }
    {
        self.slots.add(handle)
    }

    /// Takes one out of its slot.
    pub(crate) fn take(&mut self, number: usize) -> Option<Handle>
        ensures sync { option_map started_by result ≡ kept_at (syncs_of self.old) number }
        ensures taken { IfSome result (λ s. syncs_of self.new ≡ set (syncs_of self.old) number None) }
        ensures none { IfNone result (syncs_of self.new ≡ syncs_of self.old) }
    {
        self.slots.take(number)
    }

    /// Drops all of them.
    pub(crate) fn drop_all(&mut self)
        ensures { syncs_of self.new ≡ map (λ slot. None) (syncs_of self.old) }
    {
        self.slots.clear();
    }

    /// Returns a copy of the table, for a fork of the wrapper. The only error is `Memory`.
    pub(crate) fn copy(&self) -> Result<Syncs, Error>
        ensures syncs { IfOk result (λ copy. syncs_of copy ≡ syncs_of self.now) }
        ensures memory { OnErr result (IsMemory result) }
    {
        let numbers = self.slots.numbers()?;
        let alloc = *numbers.allocator();
        let mut values = Vec::with_capacity(alloc, self.slots.values.len())?;
        for slot in &self.slots.values {
            let copy = copied_slot(alloc, slot)?;
            values.push(copy)?;
        }
        Ok(Syncs {
            slots: self.slots.with_values(numbers, values),
        })
    }
}
