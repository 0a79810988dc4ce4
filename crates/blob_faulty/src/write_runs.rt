//! Failed writes: each maximal run of the kept bytes becomes durable.
ghost use Rattle.std.specs.Prelude.{◌≡◌, ◌<◌, ◌+◌, ◌^◌, length};

use crate::blob::Blob;
use crate::storage::Storage;
use blob_base::Error;
use blob_base::laws::overlays::runs_are_choices;
use blob_draws::runs::Span;
use blob_pending::room::Room;
use std::alloc::Global;

/// A run of a write's bytes, and their copy for the pending list.
#[derive(Drop)]
pub struct Piece<'a> {
    offset: u64,
    bytes: &'a [u8],
    copy: Vec<u8>,
    ghost same: { copy.items ≡ bytes.now },
    ghost some: { 0 < length bytes.now },
    ghost fits: { offset + length bytes.now < 2 ^ 64 },
}

impl<'a> Piece<'a> {
    ghost use Rattle.std.specs.Prelude.{◌≤◌, List, ℕ, [], All, IfOk, OnErr};
    ghost use Rattle.blob_header.specs.Refusals.{IsMemory};
    ghost use Rattle.blob_model.specs.Runs.{runs};
    ghost use Rattle.blob_draws.specs.Answers.{last_end};
    ghost use Rattle.blob_faulty.specs.Pieces.{run_of, runs_in, first_start};
    ghost use Rattle.blob_draws.specs.Spans.{piece, pieces, ends_by};

    /// Returns the run of a span of the bytes of a write at `offset`. The only error is `Memory`.
    fn of(alloc: Global, offset: u64, bytes: &'a [u8], span: Span) -> Result<Piece<'a>, Error>
        requires inside { ends_by (length bytes.now) span }
        requires fits { offset + length bytes.now < 2 ^ 64 }
        ensures ok { IfOk result (λ p. run_of p ≡ piece offset bytes.now span) }
        ensures memory { OnErr result (IsMemory result) }
    {
        let part = &bytes[span.start..span.end];
        Ok(Piece {
            offset: offset + span.start as u64,
            bytes: part,
            copy: Vec::from_slice(alloc, part)?,
        })
    }

    /// Returns the runs of the kept bytes, last first. The only error is `Memory`.
    pub(crate) fn all_of(
        alloc: Global,
        offset: u64,
        bytes: &'a [u8],
        kept: &[bool],
    ) -> Result<Vec<Piece<'a>>, Error>
        requires sized { length kept.now ≡ length bytes.now }
        requires fits { offset + length bytes.now < 2 ^ 64 }
        ensures ok { IfOk result (λ ps. runs_in ps.items ≡ runs offset bytes.now kept.now) }
        ensures memory { OnErr result (IsMemory result) }
    {
        let spans = Span::of(alloc, kept)?;
        let mut all = Vec::new(alloc);
        for span in &spans {
            all.push(Piece::of(alloc, offset, bytes, *span)?)?;
        }
        all.reverse();
        Ok(all)
    }

    /// Returns the position after its last byte.
    fn end(&self) -> u64
        ensures { result ≡ self.now.offset + length self.now.bytes.now }
    {
        self.offset + self.bytes.len() as u64
    }

    /// Returns the offset of the lowest run, which is the last in the list, or 0 if there is none.
    pub(crate) fn lowest_start(pieces: &[Piece<'a>]) -> u64
        ensures { result ≡ first_start (runs_in pieces.now) }
    {
        match pieces.last() {
            None => 0,
            Some(lowest) => lowest.offset,
        }
    }

    /// Returns the end of the highest run, which is the first in the list, or 0 if there is none.
    pub(crate) fn highest_end(pieces: &[Piece<'a>]) -> u64
        ensures { result ≡ last_end 0 (runs_in pieces.now) }
    {
        match pieces {
            [] => 0,
            [highest, ..] => highest.end(),
        }
    }
}

impl<B> Blob<B> {
    ghost use Rattle.std.specs.Prelude.{◌≢◌, ◌≤◌, [], true, false, Some, OnOk, OnErr, IfOk, All};
    ghost use Rattle.blob_model.specs.Directory.{is_current};
    ghost use Rattle.blob_header.specs.Refusals.{error_of, WriteFailed};
    ghost use Rattle.blob_model.specs.Runs.{runs, AreRunsApart};
    ghost use Rattle.blob_faulty.specs.Allowed.{MayLay, MayLayKept, MayReserve, AllowsAsMuch, HasListRoom, HasInnerRoom, ReservesRoom};
    ghost use Rattle.blob_faulty.specs.Asked.{reserve_call};
    ghost use Rattle.blob_faulty.specs.Pieces.{run_of, runs_in, extents, EndsWithin};
    ghost use Rattle.blob_faulty.specs.StepResults.{MayCallInner, AsksKept, LaysKept, LaysPart, LaysPieces};
    ghost use Rattle.blob_faulty.specs.Writes.{StaysUnchanged};

    /// Writes the runs after the first, lowest first. Returns `WriteFailed` if the inner blob rejects one. Those before it stay.
    fn lay_later<S: blob_base::Storage, R>(
        &mut self,
        store: &mut Storage<S, R>,
        list: usize,
        pieces: Vec<Piece<'_>>,
    ) -> Result<(), Error>
    where
        B: blob_base::Blob<S>,
        requires room { HasListRoom S.Durable B.Blob self.old store.old list (extents (runs_in pieces.items)) }
        requires current { is_current (S.directory store.old.inner) (B.place self.old.inner) ≡ true }
        requires within { B.is_direct ≡ true → All (EndsWithin (B.room self.old.inner store.old.inner)) (runs_in pieces.items) }
        ensures laid { LaysPieces S.Durable B.Blob self.old store.old self.new store.new pieces.entry.items result }
        ensures failed { OnErr result (error_of result ≡ Some WriteFailed) }
        ensures indirect { OnErr result (B.is_direct ≡ false) }
        ensures some { OnErr result (runs_in pieces.entry.items ≢ []) }
    {
        let mut pieces = pieces;
        while let Some(run) = pieces.pop() {
            let Piece {
                offset,
                bytes,
                copy,
            } = run;
            if self.lay_range(store, list, offset, bytes, copy).is_err() {
                return Err(Error::WriteFailed);
            }
        }
        Ok(())
    }

    /// Writes all runs, lowest first. An error of the first is returned as it is, an error of a later one as `WriteFailed`.
    fn lay_runs<S: blob_base::Storage, R>(
        &mut self,
        store: &mut Storage<S, R>,
        list: usize,
        pieces: Vec<Piece<'_>>,
    ) -> Result<(), Error>
    where
        B: blob_base::Blob<S>,
        requires room { HasListRoom S.Durable B.Blob self.old store.old list (extents (runs_in pieces.items)) }
        requires within { HasInnerRoom S.Durable B.Blob self.old store.old (runs_in pieces.items) }
        ensures allowed { MayLay B.Blob self.old store.old (runs_in pieces.entry.items) (error_of result) }
        ensures laid { LaysPieces S.Durable B.Blob self.old store.old self.new store.new pieces.entry.items result }
    {
        let mut pieces = pieces;
        let Some(first) = pieces.pop() else {
            return Ok(());
        };
        let Piece {
            offset,
            bytes,
            copy,
        } = first;
        self.lay_range(store, list, offset, bytes, copy)?;
        self.lay_later(store, list, pieces)
    }

    /// Reserves capacity for the runs: for durable ranges in the list of the handle's incarnation, and for bytes in the inner
    /// store. Returns the list's index.
    fn reserve_runs<S: blob_base::Storage, R>(
        &mut self,
        store: &mut Storage<S, R>,
        pieces: &[Piece<'_>],
    ) -> Result<usize, Error>
    where
        B: blob_base::Blob<S>,
        requires { AreRunsApart 0 (runs_in pieces.now) }
        ensures allowed { MayReserve B.Blob self.old store.old (runs_in pieces.now) (error_of result) }
        ensures asked { MayCallInner B.Blob self.old store.old self.new store.new (reserve_call (runs_in pieces.now)) result }
        ensures write_answers { AllowsAsMuch B.Blob self.old store.old self.new store.new }
        ensures room { ReservesRoom S.Durable B.Blob self.old store.old self.new store.new (runs_in pieces.now) result }
        ensures ranges { IfOk result (λ i. HasListRoom S.Durable B.Blob self.new store.new i (extents (runs_in pieces.now))) }
        ensures unchanged { StaysUnchanged S.Durable B.Blob self.old store.old self.new store.new }
    {
        let (start, end) = (Piece::lowest_start(pieces), Piece::highest_end(pieces));
        let room = Room::Ranges(start, end, pieces.len());
        let list = store.lists.room_for(&self.inner, self.list, room)?;
        self.inner.reserve(&mut store.inner, end)?;
        self.list = list;
        Ok(list)
    }

    /// Writes all runs of the kept bytes of a write. `kept` has a choice for each byte, or none at all.
    #[inline(never)]
    pub(crate) fn lay_kept<S: blob_base::Storage, R>(
        &mut self,
        store: &mut Storage<S, R>,
        offset: u64,
        bytes: &[u8],
        kept: &[bool],
    ) -> Result<(), Error>
    where
        B: blob_base::Blob<S>,
        requires fits { offset + length bytes.now < 2 ^ 64 }
        requires sized { kept.now ≢ [] → length kept.now ≡ length bytes.now }
        ensures allowed { MayLayKept B.Blob self.old store.old (runs offset bytes.now kept.now) (error_of result) }
        ensures asked { AsksKept B.Blob self.old store.old self.new store.new offset bytes.now kept.now result }
        ensures laid { LaysKept S.Durable B.Blob self.old store.old self.new store.new offset bytes.now kept.now result }
        ensures front { LaysPart S.Durable B.Blob self.old store.old self.new store.new offset bytes.now kept.now result }
    {
        if kept.is_empty() {
            return Ok(());
        }
        let pieces = Piece::all_of(store.alloc, offset, bytes, kept)?;
        if pieces.is_empty() {
            return Ok(());
        }
        runs_are_choices();
        let list = self.reserve_runs(store, &pieces)?;
        self.lay_runs(store, list, pieces)
    }
}
