//! Open files: their bytes and sizes.
ghost use Rattle.std.specs.Prelude.{◌≡◌, ◌≤◌, ◌+◌, [], false, length, max, true, IfOk, IsSome, None, Some, OnOk};
ghost use Rattle.blob_fs.specs.declared.switches.FailedWrite.TheVariants.{ByMode};
ghost use Rattle.blob_fs.specs.Writes.{RecordsWrite, failed_write_of, leaves_zeros, profile_of, writes_zeros};
ghost use Rattle.blob_fs.specs.Fixed.{KeepsFixedBut, KeepsSpared};
ghost use Rattle.blob_fs.specs.Noted.{KeepsCuts, HasSize, IsEnd, size_in, size_read};
ghost use Rattle.blob_fs.specs.Named.{links_of};
ghost use Rattle.blob_fs.specs.Open.{SameContent};
ghost use Rattle.blob_fs.specs.Reads.{AreZeros, Reads, ShowsWrite};
ghost use Rattle.blob_fs.specs.Tracked.{freed_of};
ghost use Rattle.blob_journal.specs.Fixed.{IsBeside};
ghost use Rattle.blob_fs.specs.Files.{KeepsNames, KeepsOptions, KeepsTold, MayResize, SameFiles, SameLinks, SameOpens, fresh_inode, inode_opened, journaled_of};
ghost use Rattle.blob_fs.specs.States.{KeepsState};

use crate::error::FsError;
use crate::file_system::{Descriptor, File, FileSystem};
use crate::writes::{chosen, write_grown, zeros_end};
use crate::zeros::Zeros;
use blob_base::Error;
use blob_directory::edit::Kind;
use blob_journal::FileBlob;
use rand_core::Rng;
use std::alloc::{AllocError, Global};

/// Where a file ends.
#[derive(Clone, Copy)]
struct Extent {
    /// The size that calls see.
    size: u64,
    /// The end of its blob.
    end: u64,
    /// Whether it has a truncation that no sync made durable.
    is_cut: bool,
}

impl File {
    /// Returns a new file, which has one name and is not open.
    pub(crate) fn new(alloc: Global, blob: FileBlob) -> File
        ensures blob { result.blob ≡ blob }
        ensures truncations { result.truncations.items ≡ [] }
        ensures there { result.is_gone ≡ false }
        ensures links { result.links ≡ 1 }
        ensures shown { result.shown ≡ None }
    {
        File {
            blob,
            links: 1,
            opens: 0,
            synced: 0,
            found: 0,
            sized: 0,
            truncations: Vec::new(alloc),
            shown: None,
            is_gone: false,
            gone_at: 0,
        }
    }

    /// Shows a write before this edit, if it returned Ok. Returns the size. There is capacity for it.
    fn end_write(&mut self, is_ok: bool, offset: u64, bytes: &[u8], before: u64, edit: u64) -> u64
        ensures content { SameContent self.old self.new }
        ensures shown { self.old.shown ≡ None → self.new.shown ≡ None }
        ensures links { links_of self.new ≡ links_of self.old }
        ensures gone { freed_of self.new ≡ freed_of self.old }
    {
        if is_ok {
            self.show_write(offset, bytes);
        }
        let now = self.size();
        if now > before {
            self.sized = edit;
        }
        now
    }

    /// Returns the size that calls see.
    pub(crate) fn size(&self) -> u64
        ensures { result ≡ size_read self.now }
    {
        match &self.shown {
            None => self.blob.size(),
            Some(bytes) => bytes.len() as u64,
        }
    }

    /// Returns whether no name and no descriptor refers to the file.
    fn is_unused(&self) -> bool {
        self.links == 0 && self.opens == 0
    }
}

impl<R: Rng + Drop> FileSystem<R> {
    /// Opens a file by its number. If a failed sync dropped bytes of it, reads don't return them any more.
    ///
    /// # Errors
    ///
    /// `IsDirectory`, `NotFound`, `NoSpace` if no number of a descriptor is left, `Memory`.
    pub fn open_inode(&mut self, inode: u64) -> Result<Descriptor, FsError>
        ensures opened { IfOk result (λ file. inode_opened self.new file ≡ Some inode) }
        ensures links { SameLinks self.old self.new }
        ensures keeps { KeepsState self.old self.new }
        ensures store { journaled_of self.new ≡ journaled_of self.old }
    {
        if self.directories.contains_key(&inode) {
            return Err(FsError::IsDirectory);
        }
        if self.file(inode).is_none() {
            return Err(FsError::NotFound);
        }
        self.add_descriptor(inode)
    }

    /// Adds a descriptor of a file.
    ///
    /// # Errors
    ///
    /// `NoSpace` if no number of a descriptor is left, `Memory`.
    pub(crate) fn add_descriptor(&mut self, inode: u64) -> Result<Descriptor, FsError>
        ensures opened { IfOk result (λ file. inode_opened self.new file ≡ Some inode) }
        ensures links { SameLinks self.old self.new }
        ensures keeps { KeepsState self.old self.new }
        ensures store { journaled_of self.new ≡ journaled_of self.old }
    {
        let number = self.next_open;
        let Some(next) = number.checked_add(1) else {
            return Err(FsError::NoSpace);
        };
        self.opens.insert(number, inode)?;
        self.next_open = next;
        self.add_open(inode);
        Ok(Descriptor { number })
    }

    /// Counts one more descriptor of a file, and lets reads return the blob's bytes again.
    fn add_open(&mut self, inode: u64)
        ensures opens { SameOpens self.old self.new }
        ensures links { SameLinks self.old self.new }
        ensures keeps { KeepsState self.old self.new }
        ensures store { journaled_of self.new ≡ journaled_of self.old }
    {
        let Some(file) = self.files.get_mut(&inode) else {
            return;
        };
        let file = file.as_mut();
        file.opens = file.opens.saturating_add(1);
        let size = file.size();
        file.shown = None;
        let now = file.size();
        self.count(size, now);
    }

    /// Counts one descriptor of a file less. Returns whether no name and no descriptor refers to it any more.
    fn drop_open(&mut self, inode: u64) -> bool
        ensures { KeepsState self.old self.new }
    {
        let Some(file) = self.files.get_mut(&inode) else {
            return false;
        };
        let file = file.as_mut();
        file.opens = file.opens.saturating_sub(1);
        file.is_unused()
    }

    /// Opens a file by its number and makes it empty. If that fails, the file isn't open. The errors are those of `open_inode` and
    /// of `truncate`.
    pub fn open_inode_truncated(&mut self, inode: u64) -> Result<Descriptor, FsError>
        ensures names { KeepsNames self.old self.new }
        ensures told { MayResize inode self.old self.new }
        ensures fixed { KeepsFixedBut inode self.old self.new }
        ensures options { KeepsOptions self.old self.new }
    {
        self.begin_call()?;
        let file = self.open_inode(inode)?;
        if let Err(error) = self.truncate(file, 0) {
            self.close(file)?;
            return Err(error);
        }
        Ok(file)
    }

    /// Returns the number of an open file's inode.
    ///
    /// # Errors
    ///
    /// `Stale`.
    pub fn inode_of(&self, file: Descriptor) -> Result<u64, FsError>
        ensures { IfOk result (λ inode. inode_opened self.now file ≡ Some inode) }
    {
        match self.opens.get(&file.number) {
            None => Err(FsError::Stale),
            Some(inode) => Ok(*inode),
        }
    }

    /// Closes a file. Its bytes stay as they are, synced or not. Those of a file without a name stop to count when its last
    /// descriptor closes, and its blob is removed once all edits from before that are settled.
    ///
    /// # Errors
    ///
    /// `Stale`, `Memory`. The file is still open.
    pub fn close(&mut self, file: Descriptor) -> Result<(), FsError>
        ensures keeps { KeepsState self.old self.new }
        ensures open { OnOk result (IsSome (inode_opened self.old file)) }
    {
        self.begin_call()?;
        let inode = self.inode_of(file)?;
        self.gone.reserve(1)?;
        self.opens.remove(&file.number);
        if self.drop_open(inode) {
            self.let_go(inode);
        }
        self.remove_gone();
        Ok(())
    }

    /// Returns an open file's size in bytes.
    ///
    /// # Errors
    ///
    /// `Stale`.
    pub fn size(&self, file: Descriptor) -> Result<u64, FsError>
        ensures { IfOk result (λ size. HasSize self.now file size) }
    {
        let inode = self.inode_of(file)?;
        match self.files.get(&inode) {
            None => Err(FsError::Stale),
            Some(found) => Ok(found.as_ref().size()),
        }
    }

    /// Returns a file's size in bytes by its inode, 0 for a directory and for a number of none.
    pub fn size_of(&self, inode: u64) -> u64
        ensures { result ≡ size_in self.now inode }
    {
        match self.file(inode) {
            None => 0,
            Some(file) => file.size(),
        }
    }

    /// Reads the bytes from an offset on, as many as there are and as the buffer takes. Returns how many.
    ///
    /// # Errors
    ///
    /// `Stale`, and `Injected` of the layer's read.
    #[inline(always)]
    pub fn read(&mut self, file: Descriptor, offset: u64, buf: &mut [u8]) -> Result<usize, FsError>
        ensures read { IfOk result (λ n. Reads self.old file offset (length buf.old) n buf.new) }
        ensures keeps { KeepsState self.old self.new }
        ensures open { OnOk result (IsSome (inode_opened self.old file)) }
        ensures count { IfOk result (λ n. n ≤ length buf.old) }
    {
        self.begin_call()?;
        let inode = self.inode_of(file)?;
        let Some(found) = self.files.get(&inode) else {
            return Err(FsError::Stale);
        };
        let found = found.as_ref();
        let left = found.size().saturating_sub(offset);
        let count = (buf.len() as u64).min(left) as usize;
        if count == 0 {
            return Ok(0);
        }
        let part = &mut buf[..count];
        found.read_into(&mut self.store, offset, part)?;
        Ok(count)
    }

    /// Refuses a file that would be too long.
    pub(crate) fn check_room(&self, size: u64, end: u64) -> Result<(), FsError> {
        let more = end.saturating_sub(size);
        if more > 0 && self.used.saturating_add(more) > self.options.max_bytes {
            return Err(FsError::NoSpace);
        }
        Ok(())
    }

    /// Counts a file that had one size and has another.
    pub(crate) fn count(&mut self, size: u64, now: u64)
        ensures store { journaled_of self.new ≡ journaled_of self.old }
        ensures files { SameFiles self.old self.new }
        ensures number { fresh_inode self.new ≡ fresh_inode self.old }
        ensures keeps { KeepsState self.old self.new }
    {
        self.used = self.used.saturating_sub(size).saturating_add(now);
    }

    /// Returns whether a crash may keep a part of the unsynced writes.
    fn keeps_writes(&self) -> bool {
        match self.options.faults.write_rate {
            Some(writes) => !writes.retention_rate.is_zero(),
            None => false,
        }
    }

    /// Returns where the file of a number ends, or `Stale` if there is none.
    fn extent_of(&self, inode: u64) -> Result<Extent, FsError>
        ensures { IfOk result (λ extent. IsEnd self.now inode extent.end) }
    {
        let Some(found) = self.files.get(&inode) else {
            return Err(FsError::Stale);
        };
        let found = found.as_ref();
        Ok(Extent {
            size: found.size(),
            end: found.blob.size(),
            is_cut: !found.truncations.is_empty(),
        })
    }

    /// Returns the zeros that a write from an offset up to an end first writes, from the end of the file's blob on. The only error is
    /// `Memory`.
    fn zeros_from(&self, from: u64, offset: u64, end: u64) -> Result<Zeros, AllocError>
        ensures none { IfOk result (λ zeros. leaves_zeros (profile_of self.now) from offset end ≡ false → length zeros ≡ 0) }
        ensures zeros { IfOk result (λ zeros. AreZeros zeros) }
        ensures within { IfOk result (λ zeros. from + length zeros ≤ max from (max offset end)) }
    {
        if !self.keeps_writes() {
            return Ok(Zeros::none());
        }
        let to = zeros_end(&self.options.profile, from, offset, end);
        Zeros::between(self.alloc, from, to)
    }

    /// Writes bytes at an offset, unsynced.
    ///
    /// # Errors
    ///
    /// `Stale`; `NoSpace` beyond the limit of bytes; those of the layer's write, which may leave a part of it. While the file has a
    /// truncation that no sync made durable, a write that fails leaves nothing.
    ///
    /// If the profile says so, a write that makes the file longer first writes zeros from its end on, of which a crash keeps what it
    /// keeps of writes (docs/FILES.md).
    pub fn write(&mut self, file: Descriptor, offset: u64, bytes: &[u8]) -> Result<(), FsError>
        ensures shows { OnOk result (failed_write_of self.old ≡ ByMode → ShowsWrite file offset bytes.now self.old self.new) }
        ensures names { KeepsNames self.old self.new }
        ensures told { KeepsTold self.old self.new }
        ensures recorded { OnOk result (failed_write_of self.old ≡ ByMode → writes_zeros self.old file offset (length bytes.now) ≡ false
            → RecordsWrite file offset bytes.now self.old self.new) }
        ensures fixed { KeepsSpared file (IsBeside offset (length bytes.now)) self.old self.new }
        ensures cuts { KeepsCuts self.old self.new }
        ensures options { KeepsOptions self.old self.new }
        ensures open { OnOk result (IsSome (inode_opened self.old file)) }
    {
        self.begin_call()?;
        let inode = self.inode_of(file)?;
        let extent = self.extent_of(inode)?;
        let end = offset.saturating_add(bytes.len() as u64);
        self.check_room(extent.size, end)?;
        let zeros = self.zeros_from(extent.end, offset, end)?;
        let Some((how, is_zeroed)) = self.draw_growth(extent.is_cut, zeros.is_empty()) else {
            return Err(Error::Injected.into());
        };
        let zeros = chosen(is_zeroed, zeros.as_slice());
        let next_edit = self.store.next_edit();
        let Some(found) = self.files.get_mut(&inode) else {
            return Err(FsError::Stale);
        };
        let found = found.as_mut();
        found.reserve_shown(end)?;
        let written = write_grown(
            &mut found.blob,
            &mut self.store,
            how,
            &self.options.faults,
            (extent.end, zeros),
            (offset, bytes),
        );
        let now = found.end_write(written.is_ok(), offset, bytes, extent.size, next_edit);
        self.count(extent.size, now);
        match written {
            Ok(()) => Ok(()),
            Err(error) => Err(error.into()),
        }
    }

    /// Returns what an open file's inode is: always a file.
    pub fn open_kind(&self, file: Descriptor) -> Result<Kind, FsError> {
        let inode = self.inode_of(file)?;
        self.kind_of(inode).ok_or(FsError::Stale)
    }
}
