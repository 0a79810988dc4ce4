//! The blobs of files, beside the journal. Each call says, whatever it returns, which open files stay open, and which of their
//! bytes that no crash changes stay so.
ghost use Rattle.std.specs.Prelude.{◌≡◌, ◌≢◌, ◌<◌, ◌≤◌, ◌-◌, ◌^◌, IfOk, OnErr, OnOk, length};
ghost use Rattle.blob_memory.specs.Store.{place};
ghost use Rattle.blob_memory.specs.Contents.{items_of};
ghost use Rattle.blob_faulty.specs.Wrapper.{inside, size_of};

use crate::journaled::Journaled;
use crate::store::{FILES, FileBlob, Handle, Store, open, read_all, remove, reopen};
use blob_base::{Blob, Durable, Error, WriteOptions};
use blob_faulty::laws::current_handles::{found, sizes};
use blob_faulty::laws::leaves;
use blob_faulty::laws::outcomes::recorded;
use rand_core::Rng;

impl FileBlob {
    /// Returns its size in bytes, as calls see it.
    pub fn size(&self) -> u64
        ensures { result ≡ size_of self.now.blob }
    {
        self.blob.size()
    }
}

/// Returns the number of a blob's incarnation.
pub(crate) fn number_of<R: Rng>(blob: &Handle) -> u64
    ensures { result ≡ (place (inside blob.now)).number }
{
    Store::<R>::number_of(<Handle as Blob<Store<R>>>::origin_ref(blob))
}

impl<R: Rng + Drop> Journaled<R> {
    ghost use Rattle.blob_journal.specs.Blobs.{ChangesFile, FixesFile, OpensFile, ReadsFile, ResizesFile, SameFiles, SameFilesBut, SyncsFile, WritesFile, bytes_of};
    ghost use Rattle.blob_journal.specs.Currents.{IsGiven, KeepsFiles};
    ghost use Rattle.blob_journal.specs.Errors.{FailsAtLimits, IsFaultless, IsReady, TracksSize};
    ghost use Rattle.blob_journal.specs.Fixed.{ChangesOpen, FixesOpen, IsBeside, KeepsOpen, KeepsOpenBut, ReopensFile};
    ghost use Rattle.blob_journal.specs.Journals.{GivesNames, HasFile, durable_file, store_of};
    ghost use Rattle.blob_journal.specs.Keeping.{NotesOpened};
    ghost use Rattle.blob_journal.specs.Settling.{KeepsJournal};
    ghost use Rattle.blob_journal.specs.Unchanged.{KeepsContents, KeepsNamesAndEdits, UsesEach, UsesFile};
    ghost use Rattle.blob_journal.specs.Writes.{RecordsWrite};

    /// Opens the blob of a file's number. A missing one is created, empty.
    ///
    /// # Errors
    ///
    /// Those of the layer's open. If no fault rate is set: `Memory`, and `GenerationsExhausted` if the store has given all of its
    /// numbers.
    pub fn open_file(&mut self, inode: u64) -> Result<FileBlob, Error>
        ensures keeps { KeepsNamesAndEdits self.old self.new }
        ensures files { KeepsFiles (store_of self.old) (store_of self.new) }
        ensures given { IfOk result (λ file. HasFile self.new file) }
        ensures opened { IfOk result (λ file. OpensFile self.old inode self.new file) }
        ensures others { OnOk result (SameFilesBut inode self.old self.new) }
        ensures still { KeepsOpen self.old self.new }
        ensures reopened { IfOk result (λ file. ReopensFile self.old inode self.new file) }
        ensures ready { IsFaultless self.old → IfOk result (IsReady self.new) }
        ensures errors { IsFaultless self.old → FailsAtLimits (store_of self.new) result }
    {
        let (blob, _) = open(&mut self.store, FILES, &inode.to_le_bytes())?;
        self.note(&blob);
        Ok(FileBlob { blob })
    }

    /// Opens the blob of a file's number again, and discards what is pending of it: its bytes are the durable ones.
    ///
    /// # Errors
    ///
    /// Those of the layer's open. Nothing is discarded.
    pub fn reopen_file(&mut self, inode: u64) -> Result<FileBlob, Error>
        ensures keeps { KeepsNamesAndEdits self.old self.new }
        ensures still { KeepsOpen self.old self.new }
        ensures reopened { IfOk result (λ file. ReopensFile self.old inode self.new file) }
    {
        let blob = reopen(&mut self.store, FILES, &inode.to_le_bytes())?;
        self.note(&blob);
        Ok(FileBlob { blob })
    }

    /// Returns the number of the incarnation of a file's blob, which the pending list of its writes has too.
    pub fn number_of_file(&self, file: &FileBlob) -> u64
        ensures { result ≡ (place (inside file.now.blob)).number }
    {
        number_of::<R>(&file.blob)
    }

    /// Counts a blob that was opened.
    fn note(&mut self, blob: &Handle)
        requires { IsGiven (store_of self.old) (place (inside blob.now)) }
        ensures noted { NotesOpened self.old self.new }
        ensures known { (place (inside blob.now)).number ≢ 2 ^ 64 - 1 → (place (inside blob.now)).number < self.new.opened }
    {
        self.opened = self.opened.max(number_of::<R>(blob).saturating_add(1));
    }

    /// Refuses a blob with a number that this store hasn't given.
    fn check(&self, file: &FileBlob) -> Result<(), Error>
        ensures given { OnOk result (HasFile self.now file.now) }
        ensures refused { OnErr result (self.now.opened ≤ (place (inside file.now.blob)).number) }
    {
        if number_of::<R>(&file.blob) >= self.opened {
            return Err(Error::Closed);
        }
        Ok(())
    }

    /// Removes the blob of a file's number.
    ///
    /// # Errors
    ///
    /// Those of the layer's removal. Nothing has changed.
    pub fn remove_file(&mut self, inode: u64) -> Result<(), Error>
        ensures keeps { KeepsNamesAndEdits self.old self.new }
        ensures gives { GivesNames self.old → GivesNames self.new }
        ensures journal { KeepsJournal self.old self.new }
        ensures others { SameFilesBut inode self.old self.new }
        ensures still { KeepsOpenBut inode self.old self.new }
    {
        remove(&mut self.store, FILES, &inode.to_le_bytes())
    }

    /// Returns all bytes of a file, as calls see them.
    ///
    /// # Errors
    ///
    /// Those of the layer's read, and `Memory`. If no fault rate is set and its size is that of its bytes: `Memory`, and
    /// `OffsetOverflow` if the end of its blob has no number of 64 bits.
    pub fn read_whole(&mut self, file: &FileBlob) -> Result<Vec<u8>, Error>
        ensures files { KeepsFiles (store_of self.old) (store_of self.new) }
        ensures bytes { IfOk result (λ bytes. bytes.items ≡ bytes_of file.now) }
        ensures same { OnOk result (SameFiles self.old self.new) }
        ensures still { KeepsOpen self.old self.new }
        ensures uses { UsesEach self.old self.new }
        ensures errors { IsFaultless self.old → TracksSize file.now → FailsAtLimits (store_of self.new) result }
    {
        let size = file.size();
        read_all(self.alloc, &mut self.store, &file.blob, size)
    }

    /// Returns the durable bytes of a file's number, to which a crash applies what it keeps of the pending calls. `None` if
    /// there is no such file.
    ///
    /// # Errors
    ///
    /// `Memory`.
    pub fn durable_file(&self, inode: u64) -> Result<Option<Vec<u8>>, Error>
        ensures { IfOk result (λ bytes. items_of bytes ≡ durable_file self.now inode) }
    {
        self.store.inner().logical_blob(FILES, &inode.to_le_bytes())
    }

    /// Reads the bytes of a file from an offset on, as many as the buffer takes.
    ///
    /// # Errors
    ///
    /// Those of the layer's read. The buffer is unchanged.
    pub fn read_file(&mut self, file: &FileBlob, offset: u64, buf: &mut [u8]) -> Result<(), Error>
        ensures read { OnOk result (ReadsFile file.now offset (length buf.old) buf.new) }
        ensures refused { OnErr result (buf.new ≡ buf.old) }
        ensures contents { KeepsContents self.old self.new }
    {
        leaves::same_bytes::<blob_memory::Storage, R>();
        file.blob.read_into(&mut self.store, offset, buf)
    }

    /// Writes bytes of a file at an offset, unsynced.
    ///
    /// # Errors
    ///
    /// `Closed` for a blob whose number this store hasn't given. Those of the layer's write, which may leave a part of it.
    pub fn write_file(
        &mut self,
        file: &mut FileBlob,
        offset: u64,
        bytes: &[u8],
    ) -> Result<(), Error>
        ensures uses { UsesFile file.old self.old file.new self.new }
        ensures written { OnOk result (WritesFile offset bytes.now self.old file.old self.new file.new) }
        ensures same { OnOk result (SameFiles self.old self.new) }
        ensures recorded { OnOk result (RecordsWrite offset bytes.now self.old file.old self.new file.new) }
        ensures still { ChangesOpen (IsBeside offset (length bytes.now)) self.old file.old self.new file.new }
        ensures errors { IsReady self.old file.old → FailsAtLimits (store_of self.new) result }
    {
        self.check(file)?;
        leaves::other_blobs::<blob_memory::Storage, R>();
        leaves::written::<blob_memory::Storage, R>();
        recorded::<blob_memory::Storage, R>();
        found::<R>();
        sizes();
        let options = WriteOptions::default();
        file.blob
            .write_from(&mut self.store, offset, bytes, options)
    }

    /// Truncates a file to a length, or extends it by zeros, unsynced.
    ///
    /// # Errors
    ///
    /// `Closed` for a blob whose number this store hasn't given. Those of the layer's resize, which may leave a part of it.
    pub fn resize_file(&mut self, file: &mut FileBlob, length: u64) -> Result<(), Error>
        ensures uses { UsesFile file.old self.old file.new self.new }
        ensures resized { OnOk result (ResizesFile length self.old file.old self.new file.new) }
        ensures same { OnOk result (SameFiles self.old self.new) }
        ensures still { ChangesOpen (λ at. at < length) self.old file.old self.new file.new }
        ensures errors { IsReady self.old file.old → FailsAtLimits (store_of self.new) result }
    {
        self.check(file)?;
        leaves::other_blobs::<blob_memory::Storage, R>();
        leaves::resized::<blob_memory::Storage, R>();
        sizes();
        file.blob.resize(&mut self.store, length)
    }

    /// Makes the bytes and the size of a file durable.
    ///
    /// # Errors
    ///
    /// `Closed` for a blob whose number this store hasn't given. Those of the layer's sync. Nothing is durable that was not.
    pub fn sync_file(&mut self, file: &mut FileBlob) -> Result<(), Error>
        ensures journal { KeepsJournal self.old self.new }
        ensures uses { UsesFile file.old self.old file.new self.new }
        ensures synced { OnOk result (SyncsFile self.old file.old self.new file.new) }
        ensures others { OnOk result (ChangesFile self.old file.old self.new) }
        ensures fixed { OnOk result (FixesFile self.old file.old self.new) }
        ensures still { ChangesOpen (λ at. Unit) self.old file.old self.new file.new }
        ensures fixes { OnOk result (FixesOpen self.old file.old self.new file.new) }
        ensures errors { IsReady self.old file.old → FailsAtLimits (store_of self.new) result }
    {
        self.check(file)?;
        leaves::other_blobs::<blob_memory::Storage, R>();
        leaves::same_bytes::<blob_memory::Storage, R>();
        leaves::synced::<blob_memory::Storage, R>();
        file.blob.sync(&mut self.store)?;
        Ok(())
    }
}
