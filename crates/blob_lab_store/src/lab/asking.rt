// Calls through a handle, and the end of a started sync.
ghost use Rattle.std.specs.Prelude.{◌≡◌, ◌≢◌, Some};
ghost use Rattle.std.specs.Bool.{OnTrue, OnFalse};
ghost use Rattle.blob_base.specs.Options.{is_sync};
ghost use Rattle.blob_header.specs.Refusals.{Memory, error_of};
ghost use Rattle.blob_script.specs.Acts.{Read, Write, Resize, Size, Sync, StartSync, Through, Finish};
ghost use Rattle.blob_lab_store.specs.LabStands.{HandleStartsSync, Performs};

use crate::lab::handles::Handle;
use crate::lab::syncs::Syncs;
use crate::lab::{Lab, Wrapper};
use blob_base::laws::overlays::runs_are_choices;
use blob_base::{Blob, Error, ReadOptions, Storage, WriteOptions};
use blob_script::Reply;
use std::alloc::AllocError;

/// Returns whether the error is `Memory`.
fn is_memory(outcome: &Result<(), Error>) -> bool
    ensures is { OnTrue result (error_of outcome.now ≡ Some Memory) }
    ensures not { OnFalse result (error_of outcome.now ≢ Some Memory) }
{
    match outcome {
        Err(Error::Memory(_)) => true,
        _ => false,
    }
}

impl Handle {
    /// Starts a sync. It takes a number, even if it fails, unless the error is `Memory`.
    fn start_sync(&mut self, wrapper: &mut Wrapper, syncs: &mut Syncs) -> Reply
        ensures { HandleStartsSync wrapper.old self.old syncs.old result wrapper.new self.new syncs.new }
    {
        if let Err(e) = syncs.reserve() {
            return Reply::Failed(e);
        }
        let started = self.blob.start_sync(wrapper);
        if is_memory(started.outcome()) {
            return Reply::Failed(Error::Memory(AllocError));
        }
        Reply::Started(syncs.add(started))
    }
}

// A handle stays in its slot during a call: it is large to move.
impl Lab {
    /// Reads `len` bytes through a handle: `Call::Read` without the call as data. Returns `Bytes`, `NoHandle` or `Failed`.
    #[inline(always)]
    pub fn read(&mut self, number: usize, offset: u64, len: usize) -> Reply
        ensures { Performs self.old (Through number (Read offset len)) result self.new }
    {
        let Some(handle) = self.handles.get(number) else {
            return Reply::NoHandle;
        };
        match handle
            .blob
            .read_at(&mut self.wrapper, offset, len, ReadOptions::default())
        {
            Ok(bytes) => Reply::Bytes(bytes.coalesce()),
            Err(e) => Reply::Failed(e),
        }
    }

    /// Writes bytes through a handle, as a SYNC write if `sync` is set: `Call::Write` without a copy of its bytes. Returns `Done`,
    /// `NoHandle` or `Failed`.
    #[inline(always)]
    pub fn write(&mut self, number: usize, offset: u64, bytes: &[u8], sync: bool) -> Reply
        ensures { Performs self.old (Through number (Write offset bytes.now sync)) result self.new }
    {
        let Some(i) = self.handles.index(number) else {
            return Reply::NoHandle;
        };
        let Some(Handle { blob, .. }) = &mut self.handles.slots.values[i] else {
            return Reply::NoHandle;
        };
        let options = if sync {
            WriteOptions::SYNC
        } else {
            WriteOptions::default()
        };
        runs_are_choices();
        match blob.write_from(&mut self.wrapper, offset, bytes, options) {
            Ok(()) => Reply::Done,
            Err(e) => Reply::Failed(e),
        }
    }

    /// Makes the call `Call::Resize`.
    pub fn resize(&mut self, number: usize, len: u64) -> Reply
        ensures { Performs self.old (Through number (Resize len)) result self.new }
    {
        let Some(i) = self.handles.index(number) else {
            return Reply::NoHandle;
        };
        let Some(Handle { blob, .. }) = &mut self.handles.slots.values[i] else {
            return Reply::NoHandle;
        };
        match blob.resize(&mut self.wrapper, len) {
            Ok(()) => Reply::Done,
            Err(e) => Reply::Failed(e),
        }
    }

    /// Makes the call `Call::Size`. Makes no draw.
    pub fn size(&self, number: usize) -> Reply
        ensures { Performs self.now (Through number Size) result self.now }
    {
        match self.handles.get(number) {
            Some(handle) => Reply::Size(handle.blob.size()),
            None => Reply::NoHandle,
        }
    }

    /// Makes the call `Call::Sync`.
    pub fn sync(&mut self, number: usize) -> Reply
        ensures { Performs self.old (Through number Sync) result self.new }
    {
        let Some(i) = self.handles.index(number) else {
            return Reply::NoHandle;
        };
        let Some(Handle { blob, .. }) = &mut self.handles.slots.values[i] else {
            return Reply::NoHandle;
        };
        match blob.sync(&mut self.wrapper) {
            Ok(()) => Reply::Done,
            Err(e) => Reply::Failed(e),
        }
    }

    /// Makes the call `Call::StartSync`.
    pub fn start_sync(&mut self, number: usize) -> Reply
        ensures { Performs self.old (Through number StartSync) result self.new }
    {
        let Some(i) = self.handles.index(number) else {
            return Reply::NoHandle;
        };
        match &mut self.handles.slots.values[i] {
            Some(handle) => handle.start_sync(&mut self.wrapper, &mut self.syncs),
            None => Reply::NoHandle,
        }
    }

    /// Makes the call `Call::Finish`: completes a started sync and returns its outcome. Makes no draw.
    pub fn finish(&mut self, number: usize) -> Reply
        ensures { Performs self.old (Finish number) result self.new }
    {
        let Some(started) = self.syncs.take(number) else {
            return Reply::NoHandle;
        };
        match self.wrapper.finish(started) {
            Ok(()) => Reply::Done,
            Err(e) => Reply::Failed(e),
        }
    }
}
