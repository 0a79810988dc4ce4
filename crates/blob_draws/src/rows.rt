//! The rows of a crash: drawn in order, found by number.
ghost use Rattle.std.specs.Prelude.{◌≡◌, IfOk};
ghost use Rattle.blob_model.specs.Draws.{row_of};
ghost use Rattle.blob_draws.specs.Rows.{rows_in, AreNumbered, DrawsRows};

use crate::draw::Draw;
use crate::selection::draw_positions;
use rand_core::Rng;
use std::alloc::{AllocError, Global};

/// Draws a row for each write, in order. The only error is `Memory`. The words drawn before it stay consumed.
pub fn draw_rows<R: Rng>(
    alloc: Global,
    draws: &[Draw],
    rng: &mut R,
) -> Result<Vec<(u64, Vec<bool>)>, AllocError>
    ensures { IfOk result (DrawsRows draws.now (R.stream rng.old) (R.stream rng.new)) }
{
    let mut rows = Vec::with_capacity(alloc, draws.len())?;
    for draw in draws {
        let chosen = draw_positions(alloc, draw.mode, draw.rate, draw.offset, draw.len, rng)?;
        rows.push((draw.number, chosen))?;
    }
    Ok(rows)
}

/// Returns the choices of a write, or none if it has no row. Without a search if the numbers are consecutive, as they usually are.
pub fn choices_in(rows: &[(u64, Vec<bool>)], number: u64) -> &[bool]
    requires { AreNumbered rows.now }
    ensures { result.now ≡ row_of (rows_in rows.now) number }
{
    if let Some(first) = rows.first() {
        let guess = number.saturating_sub(first.0);
        if guess < rows.len() as u64 {
            let row = &rows[guess as usize];
            if row.0 == number && (guess == 0 || rows[guess as usize - 1].0 < number) {
                return row.1.as_slice();
            }
        }
    }
    let i = rows.partition_point(|row| row.0 < number);
    if i == rows.len() {
        return &[];
    }
    let row = &rows[i];
    if row.0 != number {
        return &[];
    }
    row.1.as_slice()
}
