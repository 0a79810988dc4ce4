//! The handles of a laboratory by number: from 0, in the order of accepted opens. Numbers aren't reused, but a closed handle's slot is
//! dropped.
ghost use Rattle.std.specs.Prelude.{◌≡◌, ◌<◌, ◌++◌, ◌∷◌, [], Some, None, OnOk, OnErr, IfOk, IfSome, IfNone, length, set, option_map, option_copied};
ghost use Rattle.blob_header.specs.Refusals.{IsMemory};
ghost use Rattle.blob_lab_model.specs.Steps.{close_registration};
ghost use Rattle.blob_lab_model.specs.Answers.{kept_at};
ghost use Rattle.blob_opens.specs.Opens.{names_of, registration_of, store_handle};
ghost use Rattle.blob_lab_store.specs.Slots.{IsAt};
ghost use Rattle.blob_lab_store.specs.Tables.{as_held, handles_of, HasFreeSlot};

use crate::slots::Slots;
use blob_base::Error;
use blob_opens::Opens;
use blob_opens::open::{self, Registration};
use std::alloc::{AllocError, Global};

/// The wrapper's handles.
pub(crate) type WrapperBlob = blob_faulty::Blob<blob_memory::Blob>;

/// An open handle, with the registration of its open if that is exclusive. `close` ends both.
pub(crate) struct Handle {
    pub(crate) blob: WrapperBlob,
    pub(crate) registration: Option<Registration>,
}

impl Handle {
    /// Returns the handle of an exclusive open, taken apart.
    pub(crate) fn exclusive(blob: open::Blob<WrapperBlob>) -> Handle
        ensures blob { result.blob ≡ store_handle blob }
        ensures registration { result.registration ≡ Some (registration_of blob) }
    {
        let (blob, registration) = blob.into_parts();
        Handle {
            blob,
            registration: Some(registration),
        }
    }

    /// Returns a handle of a non-exclusive open.
    pub(crate) fn loose(blob: WrapperBlob) -> Handle
        ensures blob { result.blob ≡ blob }
        ensures registration { result.registration ≡ None }
    {
        Handle {
            blob,
            registration: None,
        }
    }

    /// Returns a copy, for a fork of the wrapper and a copy of the registry. The only error is out of memory.
    fn copy(&self) -> Result<Handle, AllocError>
        ensures { IfOk result (λ copy. as_held copy ≡ as_held self.now) }
    {
        let blob = self.blob.copy()?;
        let registration = match &self.registration {
            None => None,
            Some(registration) => Some(registration.copy()?),
        };
        Ok(Handle { blob, registration })
    }

    /// Closes it and its exclusive open, if it has one.
    pub(crate) fn close(self, opens: &mut Opens)
        ensures { names_of opens.new ≡ close_registration (names_of opens.old) self.registration }
    {
        let Handle {
            blob: _,
            registration,
        } = self;
        if let Some(registration) = registration {
            opens.release(registration);
        }
    }
}

/// Returns a copy of a slot. The only error is out of memory.
fn copied_slot(slot: &Option<Handle>) -> Result<Option<Handle>, AllocError>
    ensures { IfOk result (λ copy. option_map as_held copy ≡ option_map as_held slot.now) }
{
    match slot {
        None => Ok(None),
        Some(handle) => Ok(Some(handle.copy()?)),
    }
}

/// Closes the handles of these slots.
fn close_values(mut values: Vec<Option<Handle>>, opens: &mut Opens) {
    while let Some(slot) = values.pop() {
        if let Some(handle) = slot {
            handle.close(opens);
        }
    }
    values.destroy_empty();
}

/// A table of handles.
pub(crate) struct Handles {
    pub(crate) slots: Slots<Handle>,
}

impl Handles {
    pub(crate) fn new(alloc: Global) -> Handles
        ensures { handles_of result ≡ [] }
    {
        Handles {
            slots: Slots::new(alloc),
        }
    }

    /// Reserves capacity and a number for one more handle. The only error is `Memory`.
    #[inline(always)]
    pub(crate) fn reserve(&mut self) -> Result<(), Error>
        ensures handles { handles_of self.new ≡ handles_of self.old }
        ensures room { OnOk result (HasFreeSlot self.new) }
        ensures memory { OnErr result (IsMemory result) }
    {
        self.slots.reserve()?;
        Ok(())
    }

    /// Adds a handle and returns its number. The table has capacity for it.
    #[inline(always)]
    pub(crate) fn add(&mut self, handle: Handle) -> usize
        requires { HasFreeSlot self.old }
        ensures number { result ≡ length (handles_of self.old) }
        ensures handles { handles_of self.new ≡ handles_of self.old ++ Some (as_held handle) ∷ [] }
    {
        self.slots.add(handle)
    }

    #[inline(always)]
    pub(crate) fn get(&self, number: usize) -> Option<&Handle>
        ensures { option_map as_held (option_copied result) ≡ kept_at (handles_of self.now) number }
    {
        self.slots.get(number)
    }

    /// Returns the index of a handle's slot, which may be empty. `None` if there is no such slot.
    #[inline(always)]
    pub(crate) fn index(&self, number: usize) -> Option<usize>
        ensures some { IfSome result (λ i. IsAt self.now.slots number i) }
        ensures none { IfNone result (kept_at (handles_of self.now) number ≡ None) }
    {
        self.slots.index(number)
    }

    /// Takes a handle out of its slot.
    pub(crate) fn take(&mut self, number: usize) -> Option<Handle>
        ensures handle { option_map as_held result ≡ kept_at (handles_of self.old) number }
        ensures there { IfSome result (λ h. number < length (handles_of self.new)) }
        ensures taken { IfSome result (λ h. handles_of self.new ≡ set (handles_of self.old) number None) }
        ensures empty { IfSome result (λ h. kept_at (handles_of self.new) number ≡ None) }
        ensures none { IfNone result (handles_of self.new ≡ handles_of self.old) }
    {
        self.slots.take(number)
    }

    /// Returns a copy of the table, for a fork of the wrapper. `opens` is a copy of the registry. The only error is `Memory`. The
    /// handles that were copied before it are then closed in `opens`.
    pub(crate) fn copy(&self, opens: &mut Opens) -> Result<Handles, Error>
        ensures handles { IfOk result (λ copy. handles_of copy ≡ handles_of self.now) }
        ensures names { OnOk result (names_of opens.new ≡ names_of opens.old) }
        ensures memory { OnErr result (IsMemory result) }
    {
        let numbers = self.slots.numbers()?;
        let mut values = Vec::with_capacity(*numbers.allocator(), self.slots.values.len())?;
        for slot in &self.slots.values {
            match copied_slot(slot) {
                Ok(copy) => values.push(copy).unwrap(),
                Err(e) => {
                    close_values(values, opens);
                    return Err(Error::Memory(e));
                }
            }
        }
        Ok(Handles {
            slots: self.slots.with_values(numbers, values),
        })
    }

    /// Closes all of them.
    pub(crate) fn close_all(self, opens: &mut Opens) {
        let Handles { slots } = self;
        close_values(slots.into_values(), opens);
    }
}
