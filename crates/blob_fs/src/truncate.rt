//! Truncations of open files.
ghost use Rattle.std.specs.Prelude.{◌≡◌, ◌<◌, OnOk};
ghost use Rattle.blob_fs.specs.Fixed.{KeepsFixed, KeepsSpared};
ghost use Rattle.blob_fs.specs.Named.{links_of};
ghost use Rattle.blob_fs.specs.Noted.{HasSize, NotesTruncation, ShowsSize};
ghost use Rattle.blob_fs.specs.Files.{KeepsNames, KeepsOptions, KeepsTold, MayTruncate};
ghost use Rattle.blob_fs.specs.Tracked.{freed_of};

use crate::error::FsError;
use crate::file_system::{Descriptor, File, FileSystem};
use crate::truncation::Truncation;
use crate::writes::{PAGE, cut_page, zeroing};
use crate::zeros::Zeros;
use blob_base::Error;
use blob_journal::laws::bindings;
use rand_core::Rng;

impl File {
    /// Shows a truncation, by the number of its edit. Returns the size. There is capacity for it.
    fn end_truncate(&mut self, length: u64, edit: u64) -> u64
        ensures content { ShowsSize length self.old self.new }
        ensures links { links_of self.new ≡ links_of self.old }
        ensures gone { freed_of self.new ≡ freed_of self.old }
    {
        self.sized = edit.saturating_add(1);
        self.show_size(length);
        self.size()
    }
}

impl<R: Rng + Drop> FileSystem<R> {
    /// Returns the zeros that a truncation from a size to a length writes: up to the end of the page, or of the file. The only error is
    /// `Memory`.
    fn page_zeros(&self, size: u64, length: u64) -> Result<Zeros, FsError> {
        let within = length % PAGE;
        if !self.options.profile.pages || within == 0 {
            return Ok(Zeros::none());
        }
        let end = length.saturating_add(PAGE - within).min(size);
        let zeros = Zeros::between(self.alloc, length, end)?;
        Ok(zeros)
    }

    /// Truncates a file to a length, or extends it by zeros, unsynced. This is an edit: a crash keeps or loses it whole, by the rate
    /// and in the order of edits, and a sync of the file settles it. If the file has this length already, nothing changes.
    ///
    /// If the profile says so, zeros are written up to the end of the page that is cut. A crash keeps of them what it keeps of writes.
    ///
    /// # Errors
    ///
    /// `Stale`; `NoSpace` beyond the limit of bytes; those of the journal; `Memory`. The bytes are unchanged. After `Memory` the edit
    /// may be recorded, without an effect on names, and the bytes from the length to the end of its page may be zeros. `Injected` by the failure rate of the layer's resizes: the bytes are
    /// unchanged or, by the partial rate, the file is truncated to a length above the requested one.
    pub fn truncate(&mut self, file: Descriptor, length: u64) -> Result<(), FsError>
        ensures names { KeepsNames self.old self.new }
        ensures told { MayTruncate file self.old self.new }
        ensures noted { OnOk result (NotesTruncation file length self.old self.new) }
        ensures size { OnOk result (HasSize self.new file length) }
        ensures fixed { KeepsSpared file (λ at. at < length) self.old self.new }
        ensures options { KeepsOptions self.old self.new }
    {
        bindings();
        self.begin_call()?;
        let inode = self.inode_of(file)?;
        let size = self.size(file)?;
        self.check_room(size, length)?;
        let (reached, is_failed) = self.draw_truncation(size, length)?;
        if length == size && !is_failed {
            return Ok(());
        }
        let zeros = self.page_zeros(size, reached)?;
        let rate = self.options.edit_rate;
        let Some(found) = self.files.get_mut(&inode) else {
            return Err(FsError::Stale);
        };
        let found = found.as_mut();
        found.reserve_shown(reached)?;
        found.truncations.reserve(1)?;
        let edit = self.store.record_truncation(inode, rate)?;
        self.store.set_config(zeroing(&self.options.faults));
        cut_page(&mut found.blob, &mut self.store, reached, zeros.as_slice())?;
        let next_write = self.store.next_write();
        found.truncations.push_reserved(Truncation {
            edit,
            length: reached,
            next_write,
        });
        let now = found.end_truncate(reached, edit);
        self.count(size, now);
        if is_failed {
            return Err(Error::Injected.into());
        }
        Ok(())
    }
}
