// The storage traits and their laws.
ghost use Rattle.std.specs.Prelude.{◌≡◌, ◌≢◌, ◌⊎◌, ◌+◌, ◌≤◌, ◌<◌, ◌^◌, ◌↔◌, ℕ, List, [], Bool, true, false, Option, Some, None, is_some, IsSome, option_map, IsTrue, OnOk, OnErr, IfOk, length, take, drop, option_copied};
ghost use Rattle.std.specs.Range.{range_inclusive_exhausted};
ghost use Rattle.blob_model.specs.Bytes.{resize};
ghost use Rattle.blob_model.specs.Directory.{Directory, current, is_current};
ghost use Rattle.blob_model.specs.Durable.{Durable};
ghost use Rattle.blob_model.specs.Files.{is_removed_by};
ghost use Rattle.blob_model.specs.Live.{live_written};
ghost use Rattle.blob_base.specs.Names.{ListsNames, HasNumbers};
ghost use Rattle.blob_base.specs.HandleCalls.{AllowsNoMoreReserves, AllowsNoMoreWrites, HandleCall, Read, Resize, Sync, StartSync, Reserve};
ghost use Rattle.blob_base.specs.Handles.{outcome_of, outcome_error, marker_of, HasSynced};
ghost use Rattle.blob_base.specs.Options.{is_sync, IsSync};
ghost use Rattle.blob_base.specs.Writes.{WritesLive, write_call};
ghost use Rattle.blob_model.specs.Places.{Place, same_place};
ghost use Rattle.blob_header.specs.Refusals.{Refusal, error_of, Memory, Injected, OffsetOverflow, IsMemory};
ghost use Rattle.blob_header.specs.Versions.{lower, upper};

use crate::{Handle, IoBufs, IoBufsMut, ReadOptions, WriteOptions};
use blob_header::{BlobVersion, DEFAULT_BLOB_VERSION, Error};
use std::alloc::AllocError;
use std::ops::RangeInclusive;

/// Durable bytes by incarnation. An incarnation is one life of a name: from the open that creates or accepts its blob
/// until its removal or until the store is rebuilt.
pub trait Durable {
    /// Identifies the incarnation that a handle was opened on.
    type Origin: Eq + Drop;

    // the incarnation of an origin
    ghost place: { Self.Origin → Place };

    // partitions, names, and the state of each name's file
    ghost directory: { Self → Directory };

    // the durable logical bytes of each current incarnation
    ghost durable: { Self → Durable };

    /// Returns whether the incarnation is its name's current one. A handle on any other is stale. Doesn't allocate.
    fn is_current(&self, origin: &Self::Origin) -> bool
        ensures { result ≡ is_current (directory self.now) (place origin.now) };

    /// Returns whether the incarnation is current and a removal of the name ends it, or without a name a removal of the
    /// partition. Doesn't allocate.
    fn is_removed(&self, origin: &Self::Origin, partition: &str, name: Option<&[u8]>) -> bool
        ensures { result ≡ is_removed_by (directory self.now) partition.now (option_copied name.entry) (place origin.now) };

    /// Returns the number of an incarnation. Doesn't allocate.
    fn number_of(origin: &Self::Origin) -> u64
        ensures { result ≡ (place origin.now).number };

    /// Returns the number of the name's current incarnation, if it has one. Doesn't allocate.
    fn current_number(&self, partition: &str, name: &[u8]) -> Option<u64>
        ensures { result ≡ option_map (λ o. o.number) (current (directory self.now) partition.now name.now) };

    /// Returns the numbers of the partition's current incarnations. The only error is out of memory.
    fn current_numbers(&self, partition: &str) -> Result<Vec<u64>, AllocError>
        ensures { IfOk result (λ numbers. HasNumbers (directory self.now) partition.now numbers.items) };

    // equal origins identify one incarnation, and an incarnation has one origin
    ghost same_origins: { (a b : Self.Origin) → Self.Origin.eq a b ≡ same_place (place a) (place b) };

    ghost one_origin: { (a b : Self.Origin) → place a ≡ place b → a ≡ b };

    // exactly the current incarnations have durable bytes
    ghost currents: { (s : Self) (o : Place) → is_some (durable s o) ≡ is_current (directory s) o };

    // the number of a current incarnation isn't reused
    ghost given: { (s : Self) (o : Place) → is_current (directory s) o ≡ true → o.number < (directory s).next };
}

/// A handle on a blob of a store. Each call borrows the store.
///
/// A handle has live bytes of its own, which its reads see: a copy of the durable bytes at the open. Offsets, lengths
/// and sizes are logical, in bytes: they exclude the blob's header. A handle is stale once its incarnation isn't
/// current any more. No call of a stale handle changes a durable byte.
///
/// Pass the store that opened the handle, or one that was rebuilt from it. In any other store the handle refers to the
/// incarnation with its name and number, if one exists. The types don't rule this out: a SYNC write may then return Ok
/// and change that store.
///
/// Any call may return `Memory` instead of another result; it then changes nothing except a wrapper's generator. A
/// wrapper adds `Injected`, after which a write or a resize may be applied in part, and the errors in its own docs.
/// docs/BEHAVIOUR.md lists the errors of each implementation in the order of their checks, with what each leaves.
pub trait Blob<S: Durable> {
    ghost use Rattle.blob_base.specs.StoreChanges.{IsCurrentIn, IsStaleIn, Publishes, ReservesRoom, SameDurable, OverlaysIfSync};

    // the bytes that a read sees
    ghost live: { Self → List ℕ };

    // the incarnation that it was opened on
    ghost place: { Self → Place };

    // up to this logical end it can be written without allocating
    ghost room: { Self → S → ℕ };

    // up to this logical end its live bytes can be written without allocating, by a stale handle too
    ghost live_room: { Self → ℕ };

    // true of a store that injects nothing: it keeps reserved capacity, and a failed call changes no durable byte
    ghost is_direct: { Bool };

    // the possible results of a call, by the values at entry: an error, or None for Ok
    ghost allows_read: { Self → S → ℕ → ℕ → Option Refusal → Type 0 };

    ghost allows_read_buf: { Self → S → ℕ → ℕ → Option Refusal → Type 0 };

    ghost allows_write: { Self → S → ℕ → List ℕ → Bool → Option Refusal → Type 0 };

    ghost allows_resize: { Self → S → ℕ → Option Refusal → Type 0 };

    ghost allows_sync: { Self → S → Option Refusal → Type 0 };

    ghost allows_start_sync: { Self → S → Option Refusal → Type 0 };

    ghost allows_reserve: { Self → S → ℕ → Option Refusal → Type 0 };

    // what a call leaves apart from files, by handle and store at entry, its result, and both afterwards
    ghost leaves: { HandleCall → Self → S → Option Refusal → Self → S → Type 0 };

    /// Reads exactly `len` live bytes at the logical `offset`, by a stale handle too. An empty read returns Ok if
    /// `offset` isn't past the end of the live bytes.
    ///
    /// # Errors
    ///
    /// `OffsetOverflow` if the range's end, plus the header, overflows 64 bits; `BlobInsufficientLength` if the range
    /// ends after the live bytes; `Memory` if the buffer can't be allocated. Nothing changes.
    fn read_at(
        &self,
        store: &mut S,
        offset: u64,
        len: usize,
        options: ReadOptions,
    ) -> Result<IoBufsMut, Error>
        ensures allowed { allows_read self.now store.old offset len (error_of result) }
        ensures leaves { leaves (Read offset len) self.now store.old (error_of result) self.now store.new }
        ensures within { OnOk result (offset + len ≤ length (live self.now)) }
        ensures bytes { IfOk result (λ read. read.bytes ≡ take len (drop offset (live self.now))) }
        ensures directory { S.directory store.new ≡ S.directory store.old }
        ensures durable { S.durable store.new ≡ S.durable store.old };

    /// Reads exactly `len` live bytes at the logical `offset` into `buf`, and replaces its contents. Its capacity must
    /// be at least `len`, and doesn't shrink.
    ///
    /// # Errors
    ///
    /// `OffsetOverflow` and `BlobInsufficientLength`, as `read_at`. Drops `buf` and changes nothing.
    fn read_at_buf(
        &self,
        store: &mut S,
        offset: u64,
        len: usize,
        buf: IoBufsMut,
        options: ReadOptions,
    ) -> Result<IoBufsMut, Error>
        requires { len ≤ buf.capacity }
        ensures allowed { allows_read_buf self.now store.old offset len (error_of result) }
        ensures leaves { leaves (Read offset len) self.now store.old (error_of result) self.now store.new }
        ensures within { OnOk result (offset + len ≤ length (live self.now)) }
        ensures bytes { IfOk result (λ read. read.bytes ≡ take len (drop offset (live self.now))) }
        ensures buffer { IfOk result (λ read. buf.capacity ≤ read.capacity) }
        ensures directory { S.directory store.new ≡ S.directory store.old }
        ensures durable { S.durable store.new ≡ S.durable store.old };

    /// Writes at the logical `offset`: to the live bytes, and with `WriteOptions::SYNC` immediately to the durable
    /// bytes too. A gap after the end is filled with zeros.
    ///
    /// A plain write changes no durable byte. If it is empty and past the end, it extends the live bytes with zeros up
    /// to `offset`. It returns Ok on a stale handle too. A SYNC write makes its own range durable and no other byte. If
    /// it is empty, it returns Ok and changes nothing, on a stale handle too. No write releases capacity, regardless of
    /// its result.
    ///
    /// # Errors
    ///
    /// - `OffsetOverflow` if the range's end, plus the header, overflows 64 bits. Nothing changes.
    /// - `BlobMissing` if a SYNC write isn't empty and the handle is stale. Only the live bytes change.
    /// - `Memory`. Nothing changes.
    ///
    /// A wrapper may also return `Injected`, `WriteFailed` and `GenerationsExhausted`.
    fn write_at(
        &mut self,
        store: &mut S,
        offset: u64,
        bytes: IoBufs,
        options: WriteOptions,
    ) -> Result<(), Error>
        ensures allowed { allows_write self.old store.old offset bytes (is_sync options) (error_of result) }
        ensures leaves { leaves (write_call offset bytes options) self.old store.old (error_of result) self.new store.new }
        ensures live { OnOk result (live self.new ≡ live_written (is_sync options) (live self.old) offset bytes) }
        ensures synced { OnOk result (OverlaysIfSync S.Durable store.old options store.new (place self.old) offset bytes) }
        ensures current { OnOk result (IsSync options → bytes ≢ [] → IsCurrentIn S.Durable store.old (place self.old)) }
        ensures plain { OnOk result (is_sync options ≡ false → SameDurable S.Durable store.old store.new) }
        ensures room { room self.old store.old ≤ room self.new store.new }
        ensures live_room { live_room self.old ≤ live_room self.new }

        // after an error
        ensures memory { IsMemory result → (live self.new ≡ live self.old) × (S.durable store.new ≡ S.durable store.old) }
        ensures direct_live { is_direct ≡ true → WritesLive options offset bytes result (live self.old) (live self.new) }
        ensures direct_durable { is_direct ≡ true → OnErr result (S.durable store.new ≡ S.durable store.old) }

        ensures stale { IsStaleIn S.Durable store.old (place self.old) → SameDurable S.Durable store.old store.new }
        ensures directory { S.directory store.new ≡ S.directory store.old }
        ensures place { place self.new ≡ place self.old };

    /// Writes a slice: does what `write_at` does with these bytes, with the same results and errors.
    fn write_from(
        &mut self,
        store: &mut S,
        offset: u64,
        bytes: &[u8],
        options: WriteOptions,
    ) -> Result<(), Error>
        ensures allowed { allows_write self.old store.old offset bytes.now (is_sync options) (error_of result) }
        ensures leaves { leaves (write_call offset bytes.now options) self.old store.old (error_of result) self.new store.new }
        ensures live { OnOk result (live self.new ≡ live_written (is_sync options) (live self.old) offset bytes.now) }
        ensures synced { OnOk result (OverlaysIfSync S.Durable store.old options store.new (place self.old) offset bytes.now) }
        ensures current { OnOk result (IsSync options → bytes.now ≢ [] → IsCurrentIn S.Durable store.old (place self.old)) }
        ensures plain { OnOk result (is_sync options ≡ false → SameDurable S.Durable store.old store.new) }
        ensures room { room self.old store.old ≤ room self.new store.new }
        ensures live_room { live_room self.old ≤ live_room self.new }

        // after an error
        ensures memory { IsMemory result → (live self.new ≡ live self.old) × (S.durable store.new ≡ S.durable store.old) }
        ensures direct_live { is_direct ≡ true → WritesLive options offset bytes.now result (live self.old) (live self.new) }
        ensures direct_durable { is_direct ≡ true → OnErr result (S.durable store.new ≡ S.durable store.old) }

        ensures stale { IsStaleIn S.Durable store.old (place self.old) → SameDurable S.Durable store.old store.new }
        ensures directory { S.directory store.new ≡ S.directory store.old }
        ensures place { place self.new ≡ place self.old };

    /// Truncates the live bytes to the logical length `len`, or extends them with zeros, by a stale handle too. Nothing
    /// becomes durable before a sync.
    ///
    /// # Errors
    ///
    /// `OffsetOverflow` if the length, plus the header, overflows 64 bits, or `Memory`. Nothing changes. A wrapper may
    /// also return `Injected`; the length may then be any from the old to the requested one.
    fn resize(&mut self, store: &mut S, len: u64) -> Result<(), Error>
        ensures allowed { allows_resize self.old store.old len (error_of result) }
        ensures leaves { leaves (Resize len) self.old store.old (error_of result) self.new store.new }
        ensures live { OnOk result (live self.new ≡ resize (live self.old) len) }
        ensures memory { IsMemory result → live self.new ≡ live self.old }
        ensures direct_live { is_direct ≡ true → OnErr result (live self.new ≡ live self.old) }
        ensures durable { S.durable store.new ≡ S.durable store.old }
        ensures directory { S.directory store.new ≡ S.directory store.old }
        ensures place { place self.new ≡ place self.old };

    /// Makes all live bytes durable, with their length.
    ///
    /// # Errors
    ///
    /// `BlobMissing` if the handle is stale; `Memory`. A wrapper may also return `Injected`. No durable byte changes.
    fn sync(&mut self, store: &mut S) -> Result<(), Error>
        ensures allowed { allows_sync self.old store.old (error_of result) }
        ensures leaves { leaves Sync self.old store.old (error_of result) self.new store.new }
        ensures synced { OnOk result (Publishes S.Durable store.old store.new (place self.old) (live self.old)) }
        ensures current { OnOk result (IsCurrentIn S.Durable store.old (place self.old)) }
        ensures err { OnErr result (S.durable store.new ≡ S.durable store.old) }
        ensures live { live self.new ≡ live self.old }
        ensures directory { S.directory store.new ≡ S.directory store.old }
        ensures place { place self.new ≡ place self.old };

    /// Starts to make the live bytes durable. The returned handle has the outcome: pass it to `finish`, or drop it.
    ///
    /// If the outcome is Ok, the bytes are already durable and survive every crash, finished or not.
    ///
    /// # Errors
    ///
    /// The outcome may be any error of `sync`, and `GenerationsExhausted` of a wrapper. No durable byte changes then.
    fn start_sync(&mut self, store: &mut S) -> Handle
        ensures allowed { allows_start_sync self.old store.old (outcome_error result) }
        ensures leaves { leaves (StartSync (marker_of result)) self.old store.old (outcome_error result) self.new store.new }
        ensures unmarked { IsSome (outcome_error result) → marker_of result ≡ None }
        ensures direct_unmarked { is_direct ≡ true → marker_of result ≡ None }
        ensures synced { HasSynced result → Publishes S.Durable store.old store.new (place self.old) (live self.old) }
        ensures current { HasSynced result → IsCurrentIn S.Durable store.old (place self.old) }
        ensures err { IsSome (outcome_error result) → SameDurable S.Durable store.old store.new }
        ensures live { live self.new ≡ live self.old }
        ensures directory { S.directory store.new ≡ S.directory store.old }
        ensures place { place self.new ≡ place self.old };

    /// Reserves capacity up to the logical `end`, for the live bytes and, if the handle is current, for the durable
    /// bytes. Changes no byte and doesn't draw. In a store that injects nothing, a SYNC write up to `end` by a current
    /// handle then doesn't return `Memory`.
    ///
    /// # Errors
    ///
    /// `OffsetOverflow` if the end, plus the header, overflows 64 bits, which is checked first; `Memory`.
    fn reserve(&mut self, store: &mut S, end: u64) -> Result<(), Error>
        ensures allowed { allows_reserve self.old store.old end (error_of result) }
        ensures leaves { leaves (Reserve end) self.old store.old (error_of result) self.new store.new }
        ensures room { ReservesRoom S.Durable store.old is_direct (place self.old) result end (room self.new store.new) }
        ensures live_room { is_direct ≡ true → OnOk result (end ≤ live_room self.new) }
        ensures kept { room self.old store.old ≤ room self.new store.new }
        ensures live_kept { live_room self.old ≤ live_room self.new }
        ensures answers { AllowsNoMoreReserves (allows_reserve self.old store.old) (allows_reserve self.new store.new) }
        ensures write_answers { AllowsNoMoreWrites (allows_write self.old store.old) (allows_write self.new store.new) }
        ensures live { live self.new ≡ live self.old }
        ensures durable { S.durable store.new ≡ S.durable store.old }
        ensures directory { S.directory store.new ≡ S.directory store.old }
        ensures place { place self.new ≡ place self.old };

    /// Returns a copy of the handle's origin, current or not. The only error is `Memory`.
    fn origin(&self) -> Result<S::Origin, Error>
        ensures place { IfOk result (λ origin. S.place origin ≡ place self.now) }
        ensures memory { OnErr result (IsMemory result) };

    /// Borrows the handle's origin, current or not. Doesn't allocate.
    fn origin_ref(&self) -> &S::Origin
        ensures { S.place result.now ≡ place self.now };

    // each result of a read into a buffer is one of a read into a new buffer
    ghost reads_alike: { (b : Self) (s : S) (offset len : ℕ) (answer : Option Refusal) → allows_read_buf b s offset len answer → allows_read b s offset len answer };

    // a SYNC write by a stale handle doesn't return Ok unless it is empty
    ghost stale_refused: { (b : Self) (s : S) (offset : ℕ) (bytes : List ℕ) → is_current (S.directory s) (place b) ≡ false → bytes ≢ [] → allows_write b s offset bytes true None → ⊥ };

    // a store that injects nothing doesn't return `Injected`
    ghost uninjected: { (b : Self) (s : S) (offset : ℕ) (bytes : List ℕ) (sync : Bool) → is_direct ≡ true → allows_write b s offset bytes sync (Some Injected) → ⊥ };

    ghost resize_uninjected: { (b : Self) (s : S) (len : ℕ) → is_direct ≡ true → allows_resize b s len (Some Injected) → ⊥ };

    // a SYNC write by a current handle within its capacity doesn't return `Memory`
    ghost within_room: { (b : Self) (s : S) (offset : ℕ) (bytes : List ℕ) → is_current (S.directory s) (place b) ≡ true → offset + length bytes ≤ room b s → allows_write b s offset bytes true (Some Memory) → ⊥ };

    // in a store that injects nothing, it doesn't fail
    ghost done_within: { (b : Self) (s : S) (offset : ℕ) (bytes : List ℕ) (r : Refusal) → is_direct ≡ true → is_current (S.directory s) (place b) ≡ true → offset + length bytes ≤ room b s → allows_write b s offset bytes true (Some r) → ⊥ };

    // nor does a plain write within the capacity of the live bytes
    ghost plain_done_within: { (b : Self) (s : S) (offset : ℕ) (bytes : List ℕ) (r : Refusal) → is_direct ≡ true → 0 < offset + length bytes → offset + length bytes ≤ live_room b → allows_write b s offset bytes false (Some r) → ⊥ };

    // a reservation fails only on overflow or out of memory
    ghost reserve_refused: { (b : Self) (s : S) (end : ℕ) (r : Refusal) → allows_reserve b s end (Some r) → (r ≡ OffsetOverflow) ⊎ (r ≡ Memory) };
}

/// A store of blobs in partitions.
///
/// Any call may return `Memory` instead of another result. A wrapper may return `Injected` before it calls the inner
/// store. After an error the files are unchanged. A partition's name is valid if it isn't empty and has only ASCII
/// letters, digits, `-` and `_`. A blob's name may be any bytes, also none.
pub trait Storage: Durable {
    ghost use Rattle.blob_base.specs.StoreChanges.{DropsBytes, DropsNames, SameFiles};
    ghost use Rattle.blob_base.specs.Stores.{OpenLeft, OpensDefault, OpensFor};

    /// A handle on a blob of this store.
    type Blob: Blob<Self> + Drop;

    // the possible results of a call, by the store at entry
    ghost allows_open: { Self → List ℕ → List ℕ → ℕ → ℕ → Option Refusal → Type 0 };

    ghost allows_remove: { Self → List ℕ → Option (List ℕ) → Option Refusal → Type 0 };

    ghost allows_scan: { Self → List ℕ → Option Refusal → Type 0 };

    // what a call leaves apart from files, by the store at entry, its result, and the store afterwards
    ghost leaves_open: { Self → List ℕ → List ℕ → ℕ → ℕ → Option Refusal → Self → Type 0 };

    ghost leaves_remove: { Self → List ℕ → Option (List ℕ) → Option Refusal → Self → Type 0 };

    ghost leaves_scan: { Self → List ℕ → Option Refusal → Self → Type 0 };

    // by the marker of the finished handle
    ghost leaves_finish: { Self → Option ℕ → Self → Type 0 };

    // what the handle of an open records of the returned size
    ghost keeps_size: { Self.Blob → ℕ → Type 0 };

    /// Opens the blob `name` of `partition` for any of `versions`. Creates it for the greatest of them if it is
    /// missing, has fewer raw bytes than a header, or was left by an interrupted creation. Creates the partition if it
    /// is missing.
    ///
    /// Returns a handle with the durable bytes as its live bytes, their number, and the blob's version. The range must
    /// not be empty or iterated to its end.
    ///
    /// # Errors
    ///
    /// `PartitionNameInvalid`; then `BlobCorrupt` with the reason, or `BlobVersionMismatch`, in the order of checks in
    /// docs/FORMATS.md; `GenerationsExhausted` if no number is left for a new incarnation; `Memory`.
    fn open_versioned(
        &mut self,
        partition: &str,
        name: &[u8],
        versions: RangeInclusive<BlobVersion>,
    ) -> Result<(Self::Blob, u64, BlobVersion), Error>
        requires fresh { range_inclusive_exhausted versions ≡ false }
        requires some { lower versions ≤ upper versions }
        ensures allowed { allows_open self.old partition.now name.now (lower versions) (upper versions) (error_of result) }
        ensures leaves { OpenLeft leaves_open self.old self.new partition.now name.now versions (error_of result) }
        ensures opened { IfOk result (OpensFor Self.Durable Self.Blob.Blob self.old self.new partition.now name.now versions) }
        ensures size { IfOk result (λ opened. opened.1 ≡ length (Self.Blob.live opened.0)) }
        ensures kept_size { IfOk result (λ opened. keeps_size opened.0 opened.1) }
        ensures err { OnErr result (SameFiles Self.Durable self.old self.new) };

    /// Opens the blob for `DEFAULT_BLOB_VERSION` only. Returns a handle and the number of its live bytes. Errors as
    /// `open_versioned`.
    fn open(&mut self, partition: &str, name: &[u8]) -> Result<(Self::Blob, u64), Error>
        ensures allowed { allows_open self.old partition.now name.now 0 0 (error_of result) }
        ensures leaves { leaves_open self.old partition.now name.now 0 0 (error_of result) self.new }
        ensures opened { IfOk result (OpensDefault Self.Durable Self.Blob.Blob self.old self.new partition.now name.now) }
        ensures size { IfOk result (λ opened. opened.1 ≡ length (Self.Blob.live opened.0)) }
        ensures kept_size { IfOk result (λ opened. keeps_size opened.0 opened.1) }
        ensures err { OnErr result (SameFiles Self.Durable self.old self.new) }
    {
        let versions = DEFAULT_BLOB_VERSION..=DEFAULT_BLOB_VERSION;
        let (blob, size, _) = self.open_versioned(partition, name, versions)?;
        Ok((blob, size))
    }

    /// Removes the blob, or without a name the partition and all its blobs. Their handles become stale and keep their
    /// live bytes. A partition remains when its last blob is removed.
    ///
    /// # Errors
    ///
    /// `PartitionNameInvalid`, `PartitionMissing`, then `BlobMissing` if the name doesn't exist; `Memory`.
    fn remove(&mut self, partition: &str, name: Option<&[u8]>) -> Result<(), Error>
        ensures allowed { allows_remove self.old partition.now (option_copied name.entry) (error_of result) }
        ensures leaves { leaves_remove self.old partition.now (option_copied name.entry) (error_of result) self.new }
        ensures directory { OnOk result (DropsNames Self.Durable self.old self.new partition.now (option_copied name.entry)) }
        ensures durable { OnOk result (DropsBytes Self.Durable self.old self.new partition.now (option_copied name.entry)) }
        ensures err { OnErr result (SameFiles Self.Durable self.old self.new) };

    /// Returns the names of the partition's blobs, each once, sorted by bytes. Changes nothing.
    ///
    /// # Errors
    ///
    /// `PartitionNameInvalid`, then `PartitionMissing`; `Memory`.
    fn scan(&mut self, partition: &str) -> Result<Vec<Vec<u8>>, Error>
        ensures allowed { allows_scan self.old partition.now (error_of result) }
        ensures leaves { leaves_scan self.old partition.now (error_of result) self.new }
        ensures names { IfOk result (ListsNames (Self.directory self.old) partition.now) }
        ensures there { OnOk result (IsTrue ((Self.directory self.old).has_partition partition.now)) }
        ensures directory { Self.directory self.new ≡ Self.directory self.old }
        ensures durable { Self.durable self.new ≡ Self.durable self.old };

    /// Completes a started sync and returns its outcome, the only error. Changes no file and doesn't draw. A wrapper
    /// drops the pending entries that the sync made durable.
    ///
    /// The handle must come from a sync through this store: its marker is a number, so another wrapper would drop the
    /// entries up to its own marker of this number.
    fn finish(&mut self, handle: Handle) -> Result<(), Error>
        ensures outcome { error_of result ≡ error_of (outcome_of handle) }
        ensures leaves { leaves_finish self.old (marker_of handle) self.new }
        ensures directory { Self.directory self.new ≡ Self.directory self.old }
        ensures durable { Self.durable self.new ≡ Self.durable self.old };
}
