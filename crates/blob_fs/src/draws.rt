//! Failures of writes and truncations that are drawn before anything is done.
ghost use Rattle.std.specs.Prelude.{◌≡◌, ◌≤◌, IfOk, IfSome, false, true};
ghost use Rattle.blob_fs.specs.declared.switches.FailedWrite.TheVariants.{ByMode};
ghost use Rattle.blob_model.specs.Rates.{sample};
ghost use Rattle.blob_fs.specs.Draws.{OnlyDraws};
ghost use Rattle.blob_fs.specs.Files.{generator_of};
ghost use Rattle.blob_fs.specs.Writes.{KeepsAsSet, failed_write_of};

use crate::error::FsError;
use crate::file_system::FileSystem;
use crate::switches::FailedWrite;
use crate::writes::{decided, with_writes};
use blob_base::{Error, Probability};
use rand_core::Rng;

impl<R: Rng + Drop> FileSystem<R> {
    /// Draws a rate once, and returns whether it is true. Nothing else changes.
    fn draws(&mut self, rate: Probability) -> bool
        ensures drawn { (result, R.stream (generator_of self.new)) ≡ sample rate (R.stream (generator_of self.old)) }
        ensures only { OnlyDraws self.old self.new }
    {
        self.store.draw(rate)
    }

    /// Draws a number above one and below another, by halves. There is one between them.
    fn draw_between(&mut self, low: u64, high: u64) -> u64
        ensures drawn { OnlyDraws self.old self.new }
        ensures low { low ≤ result }
    {
        let even = Probability::new(1, 2).unwrap();
        let mut first = low.saturating_add(1);
        let mut end = high;
        for _ in 0..64 {
            let count = end.saturating_sub(first);
            if count <= 1 {
                break;
            }
            let middle = first.saturating_add(count / 2);
            let is_low = self.draws(even);
            first = if is_low { first } else { middle };
            end = if is_low { middle } else { end };
        }
        first.max(low)
    }

    /// Draws whether a truncation fails, by the rates of the layer's resizes. One that fails may be done in part, if it shortens
    /// the file by more than a byte. Returns the length that the file gets, and whether the truncation fails.
    ///
    /// # Errors
    ///
    /// `Injected`: it fails and changes nothing.
    pub(crate) fn draw_truncation(&mut self, size: u64, length: u64) -> Result<(u64, bool), FsError>
        ensures drawn { OnlyDraws self.old self.new }
        ensures reached { IfOk result (λ r. length ≤ r.0) }
        ensures whole { IfOk result (λ r. r.1 ≡ false → r.0 ≡ length) }
    {
        let Some(resizes) = self.options.faults.resize_rate else {
            return Ok((length, false));
        };
        if !self.draws(resizes.failure_rate) {
            return Ok((length, false));
        }
        if !self.draws(resizes.partial_rate) || size.saturating_sub(length) <= 1 {
            return Err(Error::Injected.into());
        }
        let reached = self.draw_between(length, size);
        Ok((reached, true))
    }

    /// Draws whether a write fails, if the file has a truncation that no sync made durable: then a failed write leaves nothing,
    /// since its bytes couldn't be told from those that the truncation cut. Returns how to make the write, or `None` if it fails.
    #[inline(always)]
    fn draw_write(&mut self, is_cut: bool) -> Option<FailedWrite>
        ensures how { IfSome result (λ how. failed_write_of self.old ≡ ByMode → how ≡ ByMode) }
        ensures drawn { OnlyDraws self.old self.new }
        ensures rates { IfSome result (λ how. KeepsAsSet self.old → KeepsAsSet self.new) }
    {
        if !is_cut {
            return Some(self.options.failed_write);
        }
        let Some(writes) = self.options.faults.write_rate else {
            return Some(self.options.failed_write);
        };
        if self.draws(writes.failure_rate) {
            return None;
        }
        let config = with_writes(&self.options.faults, Probability::ZERO, writes);
        self.store.set_config(config);
        Some(FailedWrite::ByMode)
    }

    /// Draws as `draw_write`. If the write makes the file longer by zeros and bytes, it draws whether the write fails too: then it writes
    /// no zeros. Returns how to make the write, and whether to write zeros, or `None` if it fails.
    #[inline(always)]
    pub(crate) fn draw_growth(
        &mut self,
        is_cut: bool,
        is_plain: bool,
    ) -> Option<(FailedWrite, bool)>
        ensures how { IfSome result (λ r. failed_write_of self.old ≡ ByMode → r.0 ≡ ByMode) }
        ensures drawn { OnlyDraws self.old self.new }
        ensures rates { IfSome result (λ r. is_plain ≡ true → KeepsAsSet self.old → KeepsAsSet self.new) }
    {
        if is_plain || is_cut {
            let how = self.draw_write(is_cut)?;
            return Some((how, true));
        }
        let Some(writes) = self.options.faults.write_rate else {
            return Some((self.options.failed_write, false));
        };
        let is_failed = self.draws(writes.failure_rate);
        let how = self.options.failed_write;
        self.store
            .set_config(decided(&self.options.faults, how, writes, is_failed));
        Some((FailedWrite::ByMode, !is_failed))
    }
}
