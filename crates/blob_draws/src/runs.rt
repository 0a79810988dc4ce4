//! The maximal runs of the kept bytes of a write.
ghost use Rattle.std.specs.Prelude.{◌<◌};

use std::alloc::{AllocError, Global};

/// A maximal run of selected positions, from `start` up to `end`, counted from the write's start.
#[derive(Clone, Copy)]
pub struct Span {
    pub start: usize,
    pub end: usize,
    ghost some: { start < end },
}

impl Span {
    ghost use Rattle.std.specs.Prelude.{◌≡◌, ◌≤◌, ◌+◌, ℕ, List, All, ◌^◌, length, reverse, slice_index, OnOk, IfOk};
    ghost use Rattle.blob_model.specs.Runs.{runs, with_byte};
    ghost use Rattle.blob_draws.specs.Spans.{AreRuns, JoinsRuns, KeepsEnds, ends_by};

    /// Adds a selected position before all runs. The lowest run is last in the list.
    fn join(spans: &mut Vec<Span>, position: usize) -> Result<(), AllocError>
        requires { position + 1 < 2 ^ 64 }
        ensures pieces { OnOk result (JoinsRuns position spans.old.items spans.new.items) }
        ensures inside { OnOk result (KeepsEnds position spans.old.items spans.new.items) }
    {
        let run = Span {
            start: position,
            end: position + 1,
        };
        let count = spans.len();
        if count == 0 {
            spans.push(run)?;
            return Ok(());
        }
        let next = spans[count - 1];
        if next.start != position + 1 {
            spans.push(run)?;
            return Ok(());
        }
        spans[count - 1] = Span {
            start: position,
            end: next.end,
        };
        Ok(())
    }

    /// Returns the maximal runs of the selected positions, lowest first.
    pub fn of(alloc: Global, chosen: &[bool]) -> Result<Vec<Span>, AllocError>
        ensures pieces { IfOk result (λ spans. AreRuns chosen.now spans.items) }
        ensures inside { IfOk result (λ spans. All (ends_by (length chosen.now)) spans.items) }
    {
        let mut spans = Vec::new(alloc);
        let mut i = chosen.len();
        while i > 0 {
            i -= 1;
            if chosen[i] {
                Span::join(&mut spans, i)?;
            }
        }
        spans.reverse();
        Ok(spans)
    }
}
