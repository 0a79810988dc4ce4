// Changes of the pages of a value. All pages are full. The bytes after the length are arbitrary.
ghost use Rattle.std.specs.Prelude.{◌≡◌, ◌≤◌, ◌<◌, ◌+◌, ◌-◌, ◌*◌, ◌/◌, ◌^◌, ◌++◌, ℕ, true, length, take, drop, max, min, replicate, OnOk, IfOk, vec_capacity};
ghost use Rattle.blob_pages.specs.Paged.{page_size, byte_at, owned_at, AreFull, AreOwned, HavePart, Keeps, Extends, Lays, OwnsBytes, bytes_in, Changes, Blanks, WritesRun};
ghost use Rattle.blob_model.specs.Bytes.{overlay, resize};

use crate::page::{PAGE, count, on_page};
use crate::table::Table;
use std::alloc::{AllocError, Global};

/// Appends pages of zeros until there are `count`. The only error is out of memory. Some pages may be added then.
pub fn extend(alloc: Global, pages: &mut Table, count: usize) -> Result<(), AllocError>
    ensures extends { Extends pages.old pages.new }
    ensures count { OnOk result (count ≤ length pages.new) }
    ensures owned { AreOwned pages.new (length pages.old) (length pages.new) }
{
    for have in pages.len()..count.max(pages.len()) {
        pages.add(alloc)?;
    }
    Ok(())
}

/// Replaces the shared pages of a range by copies. The only error is out of memory. The bytes are unchanged then.
pub fn own_all(alloc: Global, pages: &mut Table, from: usize, to: usize) -> Result<(), AllocError>
    requires there { to ≤ length pages.old }
    ensures keeps { Keeps pages.old pages.new }
    ensures owned { OnOk result (AreOwned pages.new from to) }
{
    for i in from..to.max(from) {
        pages.own(alloc, i)?;
    }
    Ok(())
}

/// Prepares the pages for a change of the bytes from `from` to `end`: appends missing pages and copies shared ones. The
/// only error is out of memory. The bytes are unchanged then.
pub fn take_room(
    alloc: Global,
    pages: &mut Table,
    from: usize,
    end: usize,
) -> Result<(), AllocError>
    ensures extends { Extends pages.old pages.new }
    ensures there { OnOk result (end ≤ page_size * length pages.new) }
    ensures owned { OnOk result ((p : ℕ) → from ≤ p → p < end → owned_at pages.new (p / page_size) ≡ true) }
{
    let to = count(end);
    extend(alloc, pages, to)?;
    own_all(alloc, pages, from / PAGE, to)?;
    Ok(())
}

/// Appends pages made of the bytes of a run at `offset`, as long as the run covers the next page whole. The pages before
/// `offset` are there. Returns which part of the run the pages have then, by its first index and the one after its last.
/// The only error is out of memory. Some pages may be added then.
fn append_whole(
    alloc: Global,
    pages: &mut Table,
    offset: usize,
    run: &[u8],
) -> Result<(usize, usize), AllocError>
    requires there { offset ≤ page_size * length pages.old }
    requires counted { offset + length run.now < 2 ^ 64 }
    ensures extends { Extends pages.old pages.new }
    ensures part { IfOk result (λ part. HavePart pages.new offset run.now part.0 part.1) }
{
    let have = pages.len();
    let count = (offset + run.len()) / PAGE;
    if count <= have {
        return Ok((0, 0));
    }
    for i in have..count {
        let at = i * PAGE - offset;
        pages.add_run(alloc, &run[at..at + PAGE])?;
    }
    Ok((have * PAGE - offset, count * PAGE - offset))
}

/// Prepares the pages as `take_room` does for a change from `from` to the end of a run at `offset`. Missing pages that the
/// run covers whole are made of its bytes, since zeros in them would be overwritten. Returns which part of the run the
/// pages have then. The only error is out of memory. The bytes are unchanged then.
fn take_room_for(
    alloc: Global,
    pages: &mut Table,
    from: usize,
    offset: usize,
    run: &[u8],
) -> Result<(usize, usize), AllocError>
    requires { offset + length run.now < 2 ^ 64 }
    ensures extends { Extends pages.old pages.new }
    ensures there { OnOk result (offset + length run.now ≤ page_size * length pages.new) }
    ensures owned { OnOk result (OwnsBytes pages.new from (offset + length run.now)) }
    ensures part { IfOk result (λ part. HavePart pages.new offset run.now part.0 part.1) }
{
    extend(alloc, pages, count(offset))?;
    let part = append_whole(alloc, pages, offset, run)?;
    take_room(alloc, pages, from, offset + run.len())?;
    Ok(part)
}

/// Writes a run to existing pages that only this value has.
pub fn lay(pages: &mut Table, offset: usize, run: &[u8])
    requires full { AreFull pages.old }
    requires fits { offset + length run.now ≤ page_size * length pages.old }
    requires counted { offset + length run.now < 2 ^ 64 }
    requires owned { (p : ℕ) → offset ≤ p → p < offset + length run.now → owned_at pages.old (p / page_size) ≡ true }
    ensures { Lays pages.old pages.new offset run.now }
{
    let len = run.len();
    let mut done = 0;
    while done < len {
        let at = offset + done;
        let n = on_page(at, offset + len);
        pages.put(at / PAGE, at % PAGE, &run[done..done + n]);
        done += n;
    }
}

/// Writes a run to existing pages that only this value has, except a part that they have.
fn lay_around(pages: &mut Table, offset: usize, run: &[u8], part: (usize, usize))
    requires full { AreFull pages.old }
    requires fits { offset + length run.now ≤ page_size * length pages.old }
    requires counted { offset + length run.now < 2 ^ 64 }
    requires owned { OwnsBytes pages.old offset (offset + length run.now) }
    requires part { HavePart pages.old offset run.now part.0 part.1 }
    ensures { Lays pages.old pages.new offset run.now }
{
    let (start, end) = part;
    lay(pages, offset, &run[..start]);
    lay(pages, offset + end, &run[end..]);
}

/// Writes zeros to existing pages that only this value has.
pub fn blank(pages: &mut Table, from: usize, to: usize)
    requires full { AreFull pages.old }
    requires order { from ≤ to }
    requires fits { to ≤ page_size * length pages.old }
    requires owned { (p : ℕ) → from ≤ p → p < to → owned_at pages.old (p / page_size) ≡ true }
    ensures { Lays pages.old pages.new from (replicate (to - from) 0) }
{
    let mut at = from;
    while at < to {
        let n = on_page(at, to);
        pages.clear(at / PAGE, at % PAGE, n);
        at += n;
    }
}

/// Writes zeros from the length `len` to `end`, if `end` is greater. Returns the new length.
pub fn blank_to(pages: &mut Table, len: usize, end: usize) -> usize
    requires full { AreFull pages.old }
    requires fits { max len end ≤ page_size * length pages.old }
    requires owned { (p : ℕ) → len ≤ p → p < end → owned_at pages.old (p / page_size) ≡ true }
    ensures len { result ≡ max len end }
    ensures blanks { Blanks pages.old pages.new len result (resize (bytes_in pages.old len) result) }
    ensures later { (p : ℕ) → end ≤ p → byte_at pages.new p ≡ byte_at pages.old p }
{
    if len < end {
        blank(pages, len, end);
        return end;
    }
    len
}

/// Truncates, or extends with zeros, from the length `old`. The only error is out of memory. The bytes are unchanged
/// then.
pub fn set_len(alloc: Global, pages: &mut Table, old: usize, len: usize) -> Result<(), AllocError>
    requires full { AreFull pages.old }
    requires held { old ≤ page_size * length pages.old }
    ensures { Changes result pages.old pages.new old len (resize (bytes_in pages.old old) len) }
{
    if old < len {
        take_room(alloc, pages, old, len)?;
        blank(pages, old, len);
    }
    Ok(())
}

/// Writes a run to existing pages that only this value has, after zeros if it starts past the length `old`. The pages have
/// a part of the run, which isn't written again. Returns the new length.
fn lay_on(pages: &mut Table, old: usize, offset: usize, run: &[u8], part: (usize, usize)) -> usize
    requires full { AreFull pages.old }
    requires some { 0 < length run.now }
    requires fits { max old (offset + length run.now) ≤ page_size * length pages.old }
    requires counted { offset + length run.now < 2 ^ 64 }
    requires owned { (p : ℕ) → min offset old ≤ p → p < offset + length run.now → owned_at pages.old (p / page_size) ≡ true }
    requires part { HavePart pages.old offset run.now part.0 part.1 }
    ensures len { result ≡ max old (offset + length run.now) }
    ensures laid { Blanks pages.old pages.new old result (overlay (bytes_in pages.old old) offset run.now) }
{
    let len = blank_to(pages, old, offset);
    lay_around(pages, offset, run, part);
    len.max(offset + run.len())
}

/// Writes a run that is not empty over the length `old`. Returns the new length. The only error is out of memory. The
/// bytes are unchanged then.
pub fn lay_over(
    alloc: Global,
    pages: &mut Table,
    old: usize,
    offset: usize,
    run: &[u8],
) -> Result<usize, AllocError>
    requires full { AreFull pages.old }
    requires held { old ≤ page_size * length pages.old }
    requires some { 0 < length run.now }
    requires fits { offset + length run.now < 2 ^ 64 }
    ensures len { IfOk result (λ n. n ≡ max old (offset + length run.now)) }
    ensures changes { WritesRun result pages.old pages.new old offset run.now }
{
    let end = offset + run.len();
    let at = offset % PAGE;
    if run.len() <= PAGE - at && pages.is_owned(offset / PAGE) {
        if offset <= old {
            pages.put(offset / PAGE, at, run);
            return Ok(old.max(end));
        }
        if old / PAGE == offset / PAGE {
            return Ok(lay_on(pages, old, offset, run, (0, 0)));
        }
    }
    let part = take_room_for(alloc, pages, offset.min(old), offset, run)?;
    Ok(lay_on(pages, old, offset, run, part))
}

/// Returns the bytes from `at` on that are on one page, at most `len`.
pub fn part_of(pages: &Table, at: usize, len: usize) -> &[u8]
    requires full { AreFull pages.now }
    requires some { 0 < len }
    requires fits { at + len ≤ page_size * length pages.now }
    requires counted { at + len < 2 ^ 64 }
    ensures some { 0 < length result.now }
    ensures within { length result.now ≤ len }
    ensures part { (n : ℕ) → at + len ≤ n → result.now ≡ take (length result.now) (drop at (bytes_in pages.now n)) }
{
    let n = on_page(at, at + len);
    let start = at % PAGE;
    let page = pages.bytes(at / PAGE);
    let part = &page[start..start + n];
    part
}

/// Appends a range of the bytes to a vector, within its capacity.
pub fn append_from(pages: &Table, at: usize, len: usize, out: &mut Vec<u8>)
    requires full { AreFull pages.now }
    requires fits { at + len ≤ page_size * length pages.now }
    requires counted { at + len < 2 ^ 64 }
    requires room { length out.old.items + len ≤ vec_capacity out.old }
    ensures bytes { (n : ℕ) → at + len ≤ n → out.new.items ≡ out.old.items ++ take len (drop at (bytes_in pages.now n)) }
    ensures capacity { vec_capacity out.old ≤ vec_capacity out.new }
{
    let mut done = 0;
    while done < len {
        let part = part_of(pages, at + done, len - done);
        out.extend_from_slice(part).unwrap();
        done += part.len();
    }
}
