//! Draws of the bytes of a write that are kept.
ghost use Rattle.std.specs.Prelude.{◌≡◌, ◌<◌, ◌≤◌, ◌+◌, ◌^◌, ◌++◌, List, [], true, false, length, replicate, IfOk, OnErr, vec_len, vec_capacity};
ghost use Rattle.blob_model.specs.Draws.{front, each, sector_choice, sectors, positions};
ghost use Rattle.blob_draws.specs.Drawings.{IsBlank};

use crate::mode::PartialWriteMode;
use blob_base::Probability;
use rand_core::Rng;
use std::alloc::{AllocError, Global};

/// Draws each byte.
fn draw_each<R: Rng>(chosen: &mut Vec<bool>, rate: Probability, len: usize, rng: &mut R)
    requires blank { IsBlank len chosen.old }
    ensures { (chosen.new.items, R.stream rng.new) ≡ each rate len (R.stream rng.old) }
{
    for i in 0..len {
        let _ = i;
        chosen.push(rate.sample(rng)).unwrap();
    }
}

/// Draws byte by byte until one is lost. The bytes after it are lost too.
fn draw_front<R: Rng>(chosen: &mut Vec<bool>, rate: Probability, len: usize, rng: &mut R)
    requires blank { IsBlank len chosen.old }
    ensures { (chosen.new.items, R.stream rng.new) ≡ front rate len (R.stream rng.old) }
{
    for i in 0..len {
        if !rate.sample(rng) {
            chosen.resize(len, false).unwrap();
            return;
        }
        chosen.push(true).unwrap();
    }
}

/// Draws each sector of the blob, at its first byte in the write. The sector's other bytes share that draw.
fn draw_sectors<R: Rng>(
    chosen: &mut Vec<bool>,
    rate: Probability,
    size: u64,
    offset: u64,
    len: usize,
    rng: &mut R,
)
    requires some { 0 < size }
    requires fits { offset + len < 2 ^ 64 }
    requires blank { IsBlank len chosen.old }
    ensures { (chosen.new.items, R.stream rng.new) ≡ sectors rate size offset true false len (R.stream rng.old) }
{
    let mut done = 0;
    while done < len {
        let within = (offset + done as u64) % size;
        let count = (size - within).min((len - done) as u64) as usize;
        let is_kept = rate.sample(rng);
        done += count;
        chosen.resize(done, is_kept).unwrap();
    }
}

/// Draws the choices of `len` bytes at the logical `offset`, one per byte. Allocates before the first draw, so that an error leaves
/// the generator unchanged.
pub fn draw_positions<R: Rng>(
    alloc: Global,
    mode: PartialWriteMode,
    rate: Probability,
    offset: u64,
    len: usize,
    rng: &mut R,
) -> Result<Vec<bool>, AllocError>
    requires { offset + len < 2 ^ 64 }
    ensures ok { IfOk result (λ kept. (kept.items, R.stream rng.new) ≡ positions mode rate offset len (R.stream rng.old)) }
    ensures err { OnErr result (R.stream rng.new ≡ R.stream rng.old) }
{
    let mut chosen = Vec::with_capacity(alloc, len)?;
    match mode {
        PartialWriteMode::Prefix => draw_front(&mut chosen, rate, len, rng),
        PartialWriteMode::Subset => draw_each(&mut chosen, rate, len, rng),
        PartialWriteMode::Sectors(size) => {
            draw_sectors(&mut chosen, rate, size.get(), offset, len, rng);
        }
    }
    Ok(chosen)
}
