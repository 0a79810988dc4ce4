//! A sync that fails and drops what was unsynced: what reads return after it.
ghost use Rattle.std.specs.Prelude.{◌≡◌, ◌≤◌, ◌+◌, None, OnOk, drop, length, take};
ghost use Rattle.blob_fs.specs.States.{KeepsState};
ghost use Rattle.blob_fs.specs.Files.{SameLinks, SameOpens, journaled_of};
ghost use Rattle.blob_fs.specs.Fixed.{KeepsSeen};
ghost use Rattle.blob_fs.specs.Named.{links_of};
ghost use Rattle.blob_fs.specs.Noted.{ShowsSize};
ghost use Rattle.blob_fs.specs.Open.{SameContent};
ghost use Rattle.blob_fs.specs.Reads.{ReadsFrom};
ghost use Rattle.blob_fs.specs.Tracked.{freed_of};
ghost use Rattle.blob_journal.specs.Fixed.{KeepsOpen};
ghost use Rattle.blob_journal.specs.Unchanged.{KeepsNamesAndEdits};

use crate::error::FsError;
use crate::file_system::{File, FileSystem};
use blob_base::Error;
use blob_faulty::Config;
use blob_journal::Journaled;
use rand_core::Rng;
use std::alloc::{AllocError, Global};

/// Copies bytes from an offset on, as many as there are and as the buffer takes.
fn copy_from(bytes: &[u8], offset: u64, buf: &mut [u8])
    ensures { offset + length buf.old ≤ length bytes.now → buf.new ≡ take (length buf.old) (drop offset bytes.now) }
{
    let start = (offset as usize).min(bytes.len());
    let end = start.saturating_add(buf.len()).min(bytes.len());
    let part = &bytes[start..end];
    buf[..part.len()].copy_from_slice(part);
}

impl File {
    /// Returns a copy of the bytes that reads return.
    fn shown_bytes<R: Rng + Drop>(
        &self,
        alloc: Global,
        store: &mut Journaled<R>,
    ) -> Result<Vec<u8>, Error>
        ensures keeps { KeepsNamesAndEdits store.old store.new }
        ensures still { KeepsOpen store.old store.new }
    {
        let mut bytes = Vec::new(alloc);
        bytes.resize(self.size() as usize, 0)?;
        let buf = bytes.as_mut_slice();
        self.read_into(store, 0, buf)?;
        Ok(bytes)
    }

    /// Reads bytes from an offset on, as many as the buffer takes. Draws as the layer's read.
    pub(crate) fn read_into<R: Rng + Drop>(
        &self,
        store: &mut Journaled<R>,
        offset: u64,
        buf: &mut [u8],
    ) -> Result<(), Error>
        ensures read { OnOk result (ReadsFrom store.old self.now offset (length buf.old) buf.new) }
        ensures keeps { KeepsNamesAndEdits store.old store.new }
        ensures still { KeepsOpen store.old store.new }
    {
        let Some(shown) = &self.shown else {
            return store.read_file(&self.blob, offset, buf);
        };
        store.read_file(&self.blob, 0, &mut [])?;
        copy_from(shown, offset, buf);
        Ok(())
    }

    /// Reserves capacity for what a call shows up to a position.
    pub(crate) fn reserve_shown(&mut self, end: u64) -> Result<(), AllocError>
        ensures content { SameContent self.old self.new }
        ensures shown { self.old.shown ≡ None → self.new.shown ≡ None }
        ensures links { links_of self.new ≡ links_of self.old }
        ensures gone { freed_of self.new ≡ freed_of self.old }
    {
        if let Some(shown) = &mut self.shown {
            let more = end.saturating_sub(shown.len() as u64);
            shown.reserve(more as usize)?;
        }
        Ok(())
    }

    /// Shows a write that returned Ok. There is capacity for it.
    pub(crate) fn show_write(&mut self, offset: u64, bytes: &[u8])
        ensures content { SameContent self.old self.new }
        ensures shown { self.old.shown ≡ None → self.new.shown ≡ None }
        ensures links { links_of self.new ≡ links_of self.old }
        ensures gone { freed_of self.new ≡ freed_of self.old }
    {
        let Some(shown) = &mut self.shown else {
            return;
        };
        let start = offset as usize;
        let end = start.saturating_add(bytes.len());
        if !bytes.is_empty() && end > shown.len() {
            let _ = shown.resize(end, 0);
        }
        for (i, byte) in bytes.iter().enumerate() {
            let at = start.saturating_add(i);
            if at < shown.len() {
                shown[at] = *byte;
            }
        }
    }

    /// Shows a truncation that returned Ok. There is capacity for it; if that failed, reads would return the blob's bytes.
    pub(crate) fn show_size(&mut self, length: u64)
        ensures content { ShowsSize length self.old self.new }
        ensures links { links_of self.new ≡ links_of self.old }
        ensures gone { freed_of self.new ≡ freed_of self.old }
    {
        let Some(shown) = &mut self.shown else {
            return;
        };
        if shown.resize(length as usize, 0).is_err() {
            self.shown = None;
        }
    }
}

impl<R: Rng + Drop> FileSystem<R> {
    /// Drops a file's unsynced bytes: its handle is opened again, and its pending writes are discarded. Reads return what they
    /// did. Makes no draw.
    ///
    /// # Errors
    ///
    /// `Memory`. The bytes are unsynced as before.
    pub(crate) fn drop_unsynced(&mut self, inode: u64) -> Result<(), FsError>
        ensures { KeepsState self.old self.new }
    {
        self.store.set_config(Config::default());
        let Some(file) = self.files.get_mut(&inode) else {
            return Ok(());
        };
        let file = file.as_mut();
        let shown = file.shown_bytes(self.alloc, &mut self.store)?;
        file.blob = self.store.reopen_file(inode)?;
        file.shown = Some(shown);
        file.truncations.clear();
        Ok(())
    }

    /// Lets reads return the blob's bytes again.
    pub(crate) fn show_blob(&mut self, inode: u64)
        ensures opens { SameOpens self.old self.new }
        ensures links { SameLinks self.old self.new }
        ensures store { journaled_of self.new ≡ journaled_of self.old }
        ensures keeps { KeepsState self.old self.new }
        ensures seen { KeepsSeen self.old self.new }
    {
        let Some(file) = self.files.get_mut(&inode) else {
            return;
        };
        let file = file.as_mut();
        let size = file.size();
        file.shown = None;
        let now = file.size();
        self.count(size, now);
    }
}
