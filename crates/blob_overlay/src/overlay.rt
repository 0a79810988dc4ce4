//! Writes and resizes of a vector of bytes. A call that can fail reserves capacity first. The rest does not allocate.
ghost use Rattle.std.specs.Prelude.{◌≡◌, ◌≤◌, ◌<◌, ◌+◌, ◌^◌, ℕ, true, false, length, drop, vec_capacity};
ghost use Rattle.blob_model.specs.Bytes.{overlay_by, reach, resize, write_live};
ghost use Rattle.blob_model.specs.Runs.{is_chosen};
ghost use Rattle.blob_overlay.specs.Overlays.{AreNow, Grows};

use std::alloc::AllocError;

/// Truncates, or extends with zeros, within the capacity.
pub fn set_len(bytes: &mut Vec<u8>, len: usize)
    requires { len ≤ vec_capacity bytes.old }
    ensures { AreNow bytes.old bytes.new (resize bytes.old.items len) }
{
    bytes.resize(len, 0).unwrap();
}

/// Eight choices that are all true, as `eight_at` returns them.
const EIGHT: u64 = 0x0101_0101_0101_0101;

/// Returns eight choices as a number, a byte for each. Most of a scan compares eight of them at once.
#[inline(always)]
fn eight_at(keep: &[bool], at: usize) -> u64
    requires { at + 8 ≤ length keep.now }
    ensures all { result ≡ 0x0101010101010101 → (i : ℕ) → at ≤ i → i < at + 8 → is_chosen keep.now i ≡ true }
    ensures none { result ≡ 0 → (i : ℕ) → at ≤ i → i < at + 8 → is_chosen keep.now i ≡ false }
{
    u64::from_le_bytes([
        keep[at] as u8,
        keep[at + 1] as u8,
        keep[at + 2] as u8,
        keep[at + 3] as u8,
        keep[at + 4] as u8,
        keep[at + 5] as u8,
        keep[at + 6] as u8,
        keep[at + 7] as u8,
    ])
}

/// Returns the end of the last selected byte, or 0 if none is selected.
pub fn reach_of(offset: usize, keep: &[bool]) -> usize
    requires { offset + length keep.now < 2 ^ 64 }
    ensures { result ≡ reach offset (length keep.now) (is_chosen keep.now) }
{
    let mut count = keep.len();
    while count >= 8 && eight_at(keep, count - 8) == 0 {
        count -= 8;
    }
    while count > 0 {
        if keep[count - 1] {
            return offset + count;
        }
        count -= 1;
    }
    0
}

/// Returns the end of the run of selected bytes that begins at `start`.
fn end_of_run(keep: &[bool], start: usize) -> usize
    requires there { start < length keep.now }
    requires first { is_chosen keep.now start ≡ true }
    ensures some { start < result }
    ensures within { result ≤ length keep.now }
    ensures selected { (i : ℕ) → start ≤ i → i < result → is_chosen keep.now i ≡ true }
{
    let mut end = start + 1;
    while keep.len() - end >= 8 && eight_at(keep, end) == EIGHT {
        end += 8;
    }
    while end < keep.len() {
        if !keep[end] {
            break;
        }
        end += 1;
    }
    end
}

/// Returns the end of the bytes that aren't selected, from `start` on.
fn end_of_gap(keep: &[bool], start: usize) -> usize
    requires there { start ≤ length keep.now }
    ensures some { start ≤ result }
    ensures within { result ≤ length keep.now }
    ensures stops { result < length keep.now → is_chosen keep.now result ≡ true }
    ensures others { (i : ℕ) → start ≤ i → i < result → is_chosen keep.now i ≡ false }
{
    let mut end = start;
    while keep.len() - end >= 8 && eight_at(keep, end) == 0 {
        end += 8;
    }
    while end < keep.len() {
        if keep[end] {
            break;
        }
        end += 1;
    }
    end
}

/// Writes the selected bytes run by run, over bytes that are there.
pub fn copy_some(bytes: &mut [u8], offset: usize, run: &[u8], keep: &[bool])
    requires same { length keep.now ≡ length run.now }
    requires fits { offset + length run.now < 2 ^ 64 }
    requires inside { reach offset (length run.now) (is_chosen keep.now) ≤ length bytes.old }
    ensures { bytes.new ≡ overlay_by bytes.old offset run.now (is_chosen keep.now) }
{
    let mut i = end_of_gap(keep, 0);
    while i < keep.len() {
        let end = end_of_run(keep, i);
        bytes[offset + i..offset + end].copy_from_slice(&run[i..end]);
        i = end_of_gap(keep, end);
    }
}

/// Writes all bytes, within the capacity. An empty run extends the bytes with zeros to `offset`.
#[inline(always)]
pub fn write_live(bytes: &mut Vec<u8>, offset: usize, run: &[u8])
    requires fits { offset + length run.now < 2 ^ 64 }
    requires room { offset + length run.now ≤ vec_capacity bytes.old }
    ensures { AreNow bytes.old bytes.new (write_live bytes.old.items offset run.now) }
{
    if offset + run.len() <= bytes.len() {
        bytes[offset..offset + run.len()].copy_from_slice(run);
        return;
    }
    if bytes.len() < offset {
        bytes.resize(offset, 0).unwrap();
    }
    let there = (bytes.len() - offset).min(run.len());
    bytes[offset..offset + there].copy_from_slice(&run[..there]);
    bytes.extend_from_slice(&run[there..]).unwrap();
}

/// Writes the selected bytes, within the capacity. `keep[i]` selects byte `i`, and `end` is the end of the last one.
pub fn lay_chosen(bytes: &mut Vec<u8>, offset: usize, end: usize, run: &[u8], keep: &[bool])
    requires same { length keep.now ≡ length run.now }
    requires fits { offset + length run.now < 2 ^ 64 }
    requires end { end ≡ reach offset (length run.now) (is_chosen keep.now) }
    requires room { end ≤ vec_capacity bytes.old }
    ensures { AreNow bytes.old bytes.new (overlay_by bytes.old.items offset run.now (is_chosen keep.now)) }
{
    if !keep.is_empty() && keep[0] && end_of_run(keep, 0) == keep.len() {
        write_live(bytes, offset, run);
        return;
    }
    if bytes.len() < end {
        bytes.resize(end, 0).unwrap();
    }
    copy_some(bytes.as_mut_slice(), offset, run, keep);
}

/// Replaces the bytes with `new`. The only error is out of memory, if the capacity is too small. The bytes are
/// unchanged then.
pub fn replace(bytes: &mut Vec<u8>, new: &[u8]) -> Result<(), AllocError>
    ensures { Grows result bytes.old bytes.new (length new.now) new.now }
{
    if bytes.capacity() < new.len() {
        bytes.reserve(new.len() - bytes.len())?;
    }
    bytes.clear();
    bytes.extend_from_slice(new).unwrap();
    Ok(())
}

/// Removes the first `len` bytes. The capacity stays.
pub fn drop_front(bytes: &mut Vec<u8>, len: usize)
    requires { len ≤ length bytes.old.items }
    ensures { bytes.new.items ≡ drop len bytes.old.items }
{
    let left = bytes.len() - len;
    bytes.rotate_left(len);
    bytes.truncate(left);
}
