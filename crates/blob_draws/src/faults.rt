//! The draws of a call, made before the inner store is called.
ghost use Rattle.std.specs.Prelude.{◌≡◌, ◌<◌, ◌+◌, ◌^◌, Some, None, IfOk, OnErr, length, replicate, false, IfSome};
ghost use Rattle.blob_header.specs.Refusals.{IsMemory};
ghost use Rattle.blob_draws.specs.Faults.{draw, retention, failure, drawn_fate, partly, resize_fate, size_between};
ghost use Rattle.blob_model.specs.Rates.{sample};
ghost use Rattle.blob_draws.specs.Fates.{retention_of, write_fate_of, resize_fate_of, DrawsOutcome, IsSized};

use crate::config::{Config, ResizeConfig, WriteConfig};
use crate::selection::draw_positions;
use blob_base::laws::draws::selections;
use blob_base::{Error, Probability};
use rand::RngExt;
use rand_core::Rng;
use std::alloc::Global;

/// The drawn outcome of a write.
#[derive(Drop)]
pub enum WriteFate {
    /// It doesn't fail.
    Done,
    /// It has SYNC, and its sync fails.
    Unsynced,
    /// It fails and keeps the selected bytes. The list is empty if nothing is retained.
    Failed(Vec<bool>),
}

/// The drawn outcome of a resize.
#[derive(Clone, Copy)]
pub enum ResizeFate {
    /// It doesn't fail. `true` if it survives a crash.
    Resizes(bool),
    /// It fails and changes nothing.
    Stays,
    /// It fails and reaches this size.
    Reaches(u64),
}

/// Draws a rate once. A rate that isn't set is false, without a draw.
#[inline(always)]
pub fn draws<R: Rng>(rate: Option<Probability>, rng: &mut R) -> bool
    ensures { (result, R.stream rng.new) ≡ draw rate (R.stream rng.old) }
{
    match rate {
        None => false,
        Some(rate) => rate.sample(rng),
    }
}

/// Returns the configuration of writes if its retention rate isn't zero.
#[inline(always)]
pub fn retained(config: Option<WriteConfig>) -> Option<WriteConfig>
    ensures kept { retention_of result ≡ retention config }
{
    match config {
        Some(config) if !config.retention_rate.is_zero() => Some(config),
        _ => None,
    }
}

/// Draws the kept bytes of a write that fails. It isn't inlined, since few writes fail.
#[inline(never)]
fn draw_kept<R: Rng>(
    alloc: Global,
    config: Option<WriteConfig>,
    offset: u64,
    len: usize,
    rng: &mut R,
) -> Result<WriteFate, Error>
    requires { offset + len < 2 ^ 64 }
    ensures ok { IfOk result (DrawsOutcome (failure (retention config) offset len) (R.stream rng.old) (R.stream rng.new)) }
    ensures sized { IfOk result (λ fate. IsSized len (write_fate_of fate)) }
    ensures memory { OnErr result (IsMemory result) }
{
    let Some(config) = retained(config) else {
        return Ok(WriteFate::Failed(Vec::new(alloc)));
    };
    let kept = draw_positions(alloc, config.mode, config.retention_rate, offset, len, rng)?;
    selections();
    Ok(WriteFate::Failed(kept))
}

/// Draws the outcome of a write. The only error is `Memory`. The words drawn before it stay consumed.
#[inline(always)]
pub fn draw_write<R: Rng>(
    alloc: Global,
    config: &Config,
    sync: bool,
    offset: u64,
    len: usize,
    rng: &mut R,
) -> Result<WriteFate, Error>
    requires { offset + len < 2 ^ 64 }
    ensures ok { IfOk result (DrawsOutcome (drawn_fate config.now sync offset len) (R.stream rng.old) (R.stream rng.new)) }
    ensures sized { IfOk result (λ fate. IsSized len (write_fate_of fate)) }
    ensures memory { OnErr result (IsMemory result) }
{
    let fails = match config.write_rate {
        None => false,
        Some(writes) => writes.failure_rate.sample(rng),
    };
    if fails {
        return draw_kept(alloc, config.write_rate, offset, len, rng);
    }
    if sync && draws(config.sync_rate, rng) {
        return Ok(WriteFate::Unsynced);
    }
    Ok(WriteFate::Done)
}

/// Draws a size strictly between two others.
fn draw_between<R: Rng>(low: u64, high: u64, rng: &mut R) -> u64
    requires { low + 1 < high }
    ensures drawn { (result, R.stream rng.new) ≡ size_between low high (R.stream rng.old) }
    ensures above { low < result }
    ensures below { result < high }
{
    rng.random_range(low + 1..high)
}

/// Draws the outcome of a resize that fails.
fn draw_partial<R: Rng>(config: ResizeConfig, size: u64, len: u64, rng: &mut R) -> ResizeFate
    ensures { (resize_fate_of result, R.stream rng.new) ≡ partly size len (sample config.partial_rate (R.stream rng.old)) }
{
    let partial = config.partial_rate.sample(rng);
    let (low, high) = (size.min(len), size.max(len));
    if partial && high - low > 1 {
        return ResizeFate::Reaches(draw_between(low, high, rng));
    }
    ResizeFate::Stays
}

/// Draws the outcome of a resize from the tracked `size`.
pub fn draw_resize<R: Rng>(
    config: Option<ResizeConfig>,
    size: u64,
    len: u64,
    rng: &mut R,
) -> ResizeFate
    ensures { (resize_fate_of result, R.stream rng.new) ≡ resize_fate config size len (R.stream rng.old) }
{
    let Some(config) = config else {
        return ResizeFate::Resizes(false);
    };
    if config.failure_rate.sample(rng) {
        return draw_partial(config, size, len, rng);
    }
    ResizeFate::Resizes(config.failure_rate.sample(rng))
}
