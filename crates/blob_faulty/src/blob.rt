//! A handle of the wrapper.
ghost use Rattle.std.specs.Prelude.{◌≡◌, ◌≢◌, ◌+◌, ◌≤◌, ◌++◌, ◌∷◌, List, ℕ, [], Bool, true, false, Option, Some, None, IsSome, OnOk, OnErr, IfOk, length, take, drop};
ghost use Rattle.std.proofs.lemmas.Bool.{false≢true};
ghost use Rattle.blob_model.specs.Bytes.{overlay, resize};
ghost use Rattle.blob_model.specs.Directory.{is_current};
ghost use Rattle.blob_model.specs.Durable.{with_changed, with_at};
ghost use Rattle.blob_base.specs.Handles.{outcome_of, marker_of};
ghost use Rattle.blob_model.specs.Live.{live_written};
ghost use Rattle.blob_base.specs.Options.{is_sync};
ghost use Rattle.blob_model.specs.Pending.{Marker};
ghost use Rattle.blob_model.specs.Places.{Place};
ghost use Rattle.blob_header.specs.Refusals.{Refusal, error_of, Memory, IsMemory};
ghost use Rattle.blob_draws.specs.Answers.{injected_or, allows_resize as answers_resize, allows_start};
ghost use Rattle.blob_faulty.specs.Allowed.{MayWrite};
ghost use Rattle.blob_draws.specs.Fates.{after_write};
ghost use Rattle.blob_draws.specs.Faults.{Done, draw, drawn_fate, resize_fate};
ghost use Rattle.blob_faulty.specs.HandleLeaves.{HandleLeaves};
ghost use Rattle.blob_draws.specs.Recorded.{recorded_write, recorded_resize, live_of_write, live_of_resize, size_of_write, size_of_resize};
ghost use Rattle.blob_faulty.specs.Syncs.{Publishes, Starts};
ghost use Rattle.blob_faulty.specs.Wrapper.{inner_of, rng_of, config_of, next_write_of, next_marker_of, pending_of, inside, size_of, KeepsRecords, KeepsNumbers, Adds};
ghost use Rattle.blob_faulty.specs.AnswerLaws.{injected_alike, write_none, write_empty};

use crate::storage::Storage;
use blob_base::{Error, Handle, IoBufs, IoBufsMut, ReadOptions, WriteOptions};
use blob_draws::faults::{draw_resize, draw_write, draws};
use rand_core::Rng;

/// A handle on a blob through the wrapper, which tracks the size that the wrapper last knew.
///
/// Offsets, lengths and sizes are logical, in bytes. An error leaves live and durable bytes, the size and the pending lists
/// unchanged, unless the call says otherwise. The generator has advanced by the draws made.
#[derive(Drop)]
pub struct Blob<B> {
    pub(crate) inner: B,
    pub(crate) size: u64,
    /// The index of its incarnation's list when it was last used: a hint. The list's origin confirms it.
    pub(crate) list: usize,
}

impl<B> Blob<B> {
    /// Returns the tracked size in logical bytes. It is the size that the open returned, raised to the end of each write that
    /// the inner blob performed and set to the length of each resize that it performed.
    pub fn size(&self) -> u64
        ensures { result ≡ size_of self.now }
    {
        self.size
    }
}

impl<S: blob_base::Storage, R: Rng, B: blob_base::Blob<S>> blob_base::Blob<Storage<S, R>>
    for Blob<B> {
    ghost live = { λ b. B.live b.inner };

    ghost place = { λ b. B.place b.inner };

    // a call of the wrapper may allocate for itself, and may fail by a draw
    ghost room = { λ b s. 0 };

    ghost live_room = { λ b. 0 };

    ghost is_direct = { false };

    ghost allows_read = { λ b s offset len. injected_or (draw s.config.read_rate (R.stream s.rng)).0 (B.allows_read b.inner s.inner offset len) };

    ghost allows_read_buf = { λ b s offset len. injected_or (draw s.config.read_rate (R.stream s.rng)).0 (B.allows_read_buf b.inner s.inner offset len) };

    ghost allows_write = { λ b s. MayWrite B.Blob b s R.stream };

    ghost allows_resize = { λ b s len. answers_resize (B.allows_resize b.inner s.inner) (resize_fate s.config.resize_rate b.size len (R.stream s.rng)).0 len };

    ghost allows_sync = { λ b s. injected_or (draw s.config.sync_rate (R.stream s.rng)).0 (B.allows_sync b.inner s.inner) };

    ghost allows_start_sync = { λ b s. allows_start (draw s.config.sync_rate (R.stream s.rng)).0 s.next_marker (B.allows_start_sync b.inner s.inner) };

    ghost allows_reserve = { λ b s end. B.allows_reserve b.inner s.inner end };

    ghost leaves = { λ call b before answer c after. HandleLeaves S.Durable B.Blob S.leaves_finish R.stream call b before answer c after };

    /// Draws the read rate, then reads through the inner handle, current or stale. Records nothing.
    ///
    /// # Errors
    ///
    /// `Injected`; then those of the inner handle: over memory `OffsetOverflow`, `BlobInsufficientLength`, `Memory`.
    fn read_at(
        &self,
        store: &mut Storage<S, R>,
        offset: u64,
        len: usize,
        options: ReadOptions,
    ) -> Result<IoBufsMut, Error> {
        if draws(store.config.read_rate, &mut store.rng) {
            return Err(Error::Injected);
        }
        self.inner.read_at(&mut store.inner, offset, len, options)
    }

    /// Draws the read rate, then reads through the inner handle into a buffer of capacity `len` or more.
    ///
    /// # Errors
    ///
    /// `Injected`; then those of the inner handle: over memory `OffsetOverflow`, `BlobInsufficientLength`. The buffer is dropped.
    fn read_at_buf(
        &self,
        store: &mut Storage<S, R>,
        offset: u64,
        len: usize,
        buf: IoBufsMut,
        options: ReadOptions,
    ) -> Result<IoBufsMut, Error> {
        if draws(store.config.read_rate, &mut store.rng) {
            return Err(Error::Injected);
        }
        let inner = &self.inner;
        inner.read_at_buf(&mut store.inner, offset, len, buf, options)
    }

    /// Writes the bytes as `write_from` does, with its errors. Several pieces are joined first. If that fails, the error is `Memory`.
    #[tactic(auto, unfolding(blob_draws::specs::Answers::allows_write))]
    fn write_at(
        &mut self,
        store: &mut Storage<S, R>,
        offset: u64,
        bytes: IoBufs,
        options: WriteOptions,
    ) -> Result<(), Error> {
        if let [piece] = bytes.pieces() {
            return self.write_from(store, offset, piece, options);
        }
        if bytes.is_empty() {
            return self.write_from(store, offset, &[], options);
        }
        if offset.checked_add(bytes.remaining() as u64).is_none() {
            return Err(Error::OffsetOverflow);
        }
        let joined = bytes.coalesce()?;
        self.write_from(store, offset, &joined, options)
    }

    /// Draws whether the write fails. If it doesn't and has SYNC, draws whether its sync fails. An empty SYNC write returns Ok
    /// and an overflowing logical end returns `OffsetOverflow` before any draw. After the draws, the contract is that of
    /// `write_by_fate`.
    ///
    /// - No failure: writes through the inner handle. If retention is set, a plain write of some bytes is pending from then on,
    ///   and a crash keeps the bytes that it draws.
    /// - The write fails: each run of the kept bytes is written with SYNC, so it is live and durable.
    /// - The sync fails: the write is a plain one.
    ///
    /// The size rises to the greatest end written.
    ///
    /// # Errors
    ///
    /// - `Injected` if the write or its sync failed by a draw. The kept runs, or the plain write, stay.
    /// - `GenerationsExhausted` if the write would be pending and no number is left for it.
    /// - `OffsetOverflow` if the physical end overflows. For a failed write, the end of its last kept run.
    /// - `BlobMissing` for a SYNC write, or a failed one with a kept run, through a stale handle. The live bytes have the write,
    ///   or its first run.
    /// - `WriteFailed` if the inner store rejected a run after the first. Those before it stay. A memory store rejects none.
    /// - `Memory`. Only the generator has changed.
    #[tactic(auto, unfolding(blob_draws::specs::Answers::allows_write))]
    fn write_from(
        &mut self,
        store: &mut Storage<S, R>,
        offset: u64,
        bytes: &[u8],
        options: WriteOptions,
    ) -> Result<(), Error> {
        let sync = options.contains(WriteOptions::SYNC);
        if sync && bytes.is_empty() {
            return Ok(());
        }
        let Some(end) = offset.checked_add(bytes.len() as u64) else {
            return Err(Error::OffsetOverflow);
        };
        let alloc = store.alloc;
        let len = bytes.len();
        let fate = draw_write(alloc, &store.config, sync, offset, len, &mut store.rng)?;
        self.write_by_fate(store, fate, offset, end, bytes, sync)
    }

    /// Draws whether the resize fails. If it doesn't, resizes the inner handle, and a second draw decides whether the resize is
    /// pending and so survives a crash. If it fails, the length stays, or by the partial rate becomes a drawn one strictly
    /// between the size and `len`, which is then pending. No byte becomes durable. A stale handle behaves the same. After the draws,
    /// the contract is that of `resize_by_fate`.
    ///
    /// # Errors
    ///
    /// `Injected`; `OffsetOverflow` if the physical length overflows; `Memory`.
    fn resize(&mut self, store: &mut Storage<S, R>, len: u64) -> Result<(), Error> {
        let fate = draw_resize(store.config.resize_rate, self.size, len, &mut store.rng);
        self.resize_by_fate(store, fate, len)
    }

    /// Draws the sync rate, then makes the live bytes durable and retires the pending list of the handle's incarnation. After the
    /// draw, the contract is that of `sync_inner`.
    ///
    /// # Errors
    ///
    /// `Injected`; then `BlobMissing` for a stale handle; `Memory`. The list stays as it was.
    fn sync(&mut self, store: &mut Storage<S, R>) -> Result<(), Error> {
        if draws(store.config.sync_rate, &mut store.rng) {
            return Err(Error::Injected);
        }
        self.sync_inner(store)
    }

    /// Draws the sync rate, then makes the live bytes durable and adds a marker to the pending list: a crash replays no entry
    /// before it. The store's `finish` takes the returned handle and drops these entries. After the draw, the contract is that of
    /// `start_marked`.
    ///
    /// # Errors
    ///
    /// The outcome may be `Injected`, `GenerationsExhausted` if no number is left for a marker, `BlobMissing` for a stale handle,
    /// or `Memory`. No marker is added then.
    fn start_sync(&mut self, store: &mut Storage<S, R>) -> Handle {
        if draws(store.config.sync_rate, &mut store.rng) {
            return Handle::ready(Err(Error::Injected));
        }
        if store.next_marker == u64::MAX {
            return Handle::ready(Err(Error::GenerationsExhausted));
        }
        match self.start_marked(store) {
            Ok(marker) => Handle::marked(marker),
            Err(error) => Handle::ready(Err(error)),
        }
    }

    /// Reserves capacity in the inner handle up to the logical `end`. Makes no draw. A later write may still return `Memory`,
    /// since the wrapper allocates for what it records.
    ///
    /// # Errors
    ///
    /// Those of the inner handle: over memory `OffsetOverflow`, then `Memory`.
    fn reserve(&mut self, store: &mut Storage<S, R>, end: u64) -> Result<(), Error> {
        self.inner.reserve(&mut store.inner, end)
    }

    /// Returns a copy of the incarnation that the inner handle was opened on, with its errors. Makes no draw.
    fn origin(&self) -> Result<S::Origin, Error> {
        self.inner.origin()
    }

    /// Borrows the incarnation that the inner handle was opened on. Allocates nothing.
    fn origin_ref(&self) -> &S::Origin {
        self.inner.origin_ref()
    }

    ghost reads_alike = { λ b s offset len answer h. injected_alike (draw s.config.read_rate (R.stream s.rng)).0 (B.allows_read_buf b.inner s.inner offset len) (B.allows_read b.inner s.inner offset len) answer (B.reads_alike b.inner s.inner offset len answer) h };

    ghost stale_refused = { λ b s offset bytes stale some h. write_none (B.allows_write b.inner s.inner) (B.allows_reserve b.inner s.inner) B.is_direct s.config s.next_write (R.stream s.rng) offset bytes some (B.stale_refused b.inner s.inner offset bytes stale some) h };

    ghost uninjected = { λ b s offset bytes sync direct h. absurd (false≢true direct) };

    ghost resize_uninjected = { λ b s len direct h. absurd (false≢true direct) };

    ghost within_room = { λ b s offset bytes now fits h. write_empty (B.allows_write b.inner s.inner) (B.allows_reserve b.inner s.inner) B.is_direct s.config s.next_write (R.stream s.rng) offset bytes fits h };

    ghost done_within = { λ b s offset bytes r direct now fits h. absurd (false≢true direct) };

    ghost plain_done_within = { λ b s offset bytes r direct some fits h. absurd (false≢true direct) };

    ghost reserve_refused = { λ b s end r h. B.reserve_refused b.inner s.inner end r h };
}
