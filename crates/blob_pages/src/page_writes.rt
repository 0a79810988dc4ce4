// Writes of selected bytes to pages.
ghost use Rattle.std.specs.Prelude.{◌≡◌, ◌≤◌, ◌<◌, ◌+◌, ◌^◌, true, length, replicate, IfOk};
ghost use Rattle.blob_model.specs.Bytes.{overlay, overlay_by, reach};
ghost use Rattle.blob_model.specs.Runs.{is_chosen};
ghost use Rattle.blob_pages.specs.Values.{bytes, room, Tries, IsRange, IsSelectedWrite};

use crate::pages::Pages;
use blob_overlay::overlay;
use std::alloc::{AllocError, Global};

/// A range of at most this many bytes is prepared on the stack.
const SMALL: usize = 64;

/// Copies a range of the bytes over zeros, if it is on one page. Returns whether it is.
fn copy_range(pages: &Pages, offset: usize, range: &mut [u8]) -> bool
    requires fits { offset + length range.old < 2 ^ 64 }
    requires zeros { range.old ≡ replicate (length range.old) 0 }
    ensures range { result ≡ true → IsRange range.new (bytes pages.now) offset (offset + length range.old) }
    ensures len { length range.new ≡ length range.old }
{
    let from = offset.min(pages.len());
    let there = (offset + range.len()).min(pages.len()) - from;
    if there == 0 {
        return true;
    }
    let part = pages.part(from, there);
    if part.len() < there {
        return false;
    }
    range[..there].copy_from_slice(part);
    true
}

/// Copies a range of the bytes over zeros, with the selected bytes of a write over them, if the range is on one page.
/// Returns whether it is.
fn mix(pages: &Pages, offset: usize, run: &[u8], keep: &[bool], range: &mut [u8]) -> bool
    requires same { length keep.now ≡ length run.now }
    requires fits { offset + length run.now < 2 ^ 64 }
    requires some { 0 < length range.old }
    requires end { offset + length range.old ≡ reach offset (length run.now) (is_chosen keep.now) }
    requires zeros { range.old ≡ replicate (length range.old) 0 }
    ensures laid { result ≡ true → IsSelectedWrite range.new (bytes pages.now) offset run.now keep.now }
    ensures len { length range.new ≡ length range.old }
{
    if !copy_range(pages, offset, range) {
        return false;
    }
    overlay::copy_some(range, 0, run, keep);
    true
}

/// Copies a range of the bytes, with zeros after the last byte. The only error is out of memory.
fn range_of(alloc: Global, pages: &Pages, offset: usize, end: usize) -> Result<Vec<u8>, AllocError>
    requires { offset < end }
    ensures { IfOk result (λ range. IsRange range.items (bytes pages.now) offset end) }
{
    let n = end - offset;
    let from = offset.min(pages.len());
    let there = end.min(pages.len()) - from;
    let mut all = Vec::with_capacity(alloc, n)?;
    pages.append(from, there, &mut all);
    all.resize(n, 0).unwrap();
    Ok(all)
}

/// Copies a range of the bytes, with the selected bytes of a write over them. The only error is out of memory.
fn mixed(
    alloc: Global,
    pages: &Pages,
    offset: usize,
    end: usize,
    run: &[u8],
    keep: &[bool],
) -> Result<Vec<u8>, AllocError>
    requires same { length keep.now ≡ length run.now }
    requires fits { offset + length run.now < 2 ^ 64 }
    requires some { offset < end }
    requires end { end ≡ reach offset (length run.now) (is_chosen keep.now) }
    ensures len { IfOk result (λ all. offset + length all.items ≡ end) }
    ensures laid { IfOk result (λ all. IsSelectedWrite all.items (bytes pages.now) offset run.now keep.now) }
{
    let mut all = range_of(alloc, pages, offset, end)?;
    overlay::lay_chosen(&mut all, 0, end - offset, run, keep);
    Ok(all)
}

/// Writes the selected bytes to pages, within their capacity. `end` is the end of the last one. The only error is out of
/// memory. The bytes are unchanged then.
pub fn lay_mixed(
    pages: &mut Pages,
    offset: usize,
    end: usize,
    run: &[u8],
    keep: &[bool],
) -> Result<(), AllocError>
    requires same { length keep.now ≡ length run.now }
    requires fits { offset + length run.now < 2 ^ 64 }
    requires end { end ≡ reach offset (length run.now) (is_chosen keep.now) }
    requires room { end ≤ room pages.old }
    ensures { Tries result pages.old pages.new (overlay_by (bytes pages.old) offset run.now (is_chosen keep.now)) }
{
    if end <= offset {
        return Ok(());
    }
    if end - offset <= SMALL {
        let mut small = [0; SMALL];
        let range = &mut small[..end - offset];
        if mix(pages, offset, run, keep, range) {
            return pages.overlay(offset, range);
        }
    }
    let all = mixed(pages.alloc(), pages, offset, end, run, keep)?;
    pages.overlay(offset, all.as_slice())
}

/// Copies these bytes to pages with at least this capacity. The only error is out of memory.
pub fn paged(alloc: Global, run: &[u8], capacity: usize) -> Result<Pages, AllocError>
    ensures bytes { IfOk result (λ pages. bytes pages ≡ run.now) }
    ensures capacity { IfOk result (λ pages. capacity ≤ room pages) }
{
    let spare = Vec::with_capacity(alloc, capacity.max(run.len()))?;
    let mut pages = Pages::new(alloc, spare);
    pages.overlay(0, run)?;
    Ok(pages)
}
