//! Writes and resizes of the bytes of a blob. A call that can fail reserves capacity first. A change within the
//! capacity never fails: if a page can't be allocated, the bytes move to one vector that was reserved with the
//! capacity.
ghost use Rattle.std.specs.Prelude.{◌≡◌, ◌≤◌, ◌<◌, ◌+◌, ◌^◌, length, OnOk, OnErr};
ghost use Rattle.blob_model.specs.Bytes.{overlay, resize, write_live};
ghost use Rattle.blob_pages.specs.Stored.{AreNow, Grows, WritesSelected};

use crate::bytes::Bytes;
use crate::form::Form;
use blob_base::IoBufs;
use blob_overlay::overlay::{self, reach_of};
use std::alloc::AllocError;

/// Reserves capacity for `len` bytes in all. The only error is out of memory.
#[inline(always)]
pub fn make_room(bytes: &mut Bytes, len: usize) -> Result<(), AllocError>
    ensures bytes { Grows result bytes.old bytes.new len bytes.old.items }
    ensures room { OnOk result (len ≤ bytes.new.capacity) }
{
    let capacity = match &bytes.form {
        Form::Flat(flat) => flat.capacity(),
        Form::Paged(pages) => pages.reserved(),
    };
    if len <= capacity {
        return Ok(());
    }
    bytes.form.reserve_more(len)
}

/// Writes all bytes, within the capacity. An empty run extends the bytes with zeros to `offset`.
#[inline(always)]
pub fn write_live_slice(bytes: &mut Bytes, offset: usize, run: &[u8])
    requires fits { offset + length run.now < 2 ^ 64 }
    requires room { offset + length run.now ≤ bytes.old.capacity }
    ensures { AreNow bytes.old bytes.new (write_live bytes.old.items offset run.now) }
{
    match &mut bytes.form {
        Form::Flat(flat) => overlay::write_live(flat, offset, run),
        Form::Paged(_) => bytes.form.write_live_pages(offset, run),
    }
}

/// Writes several pieces, as `write_live_slice`.
pub fn write_live(bytes: &mut Bytes, offset: usize, run: &IoBufs)
    requires fits { offset + length run.now < 2 ^ 64 }
    requires room { offset + length run.now ≤ bytes.old.capacity }
    ensures { AreNow bytes.old bytes.new (write_live bytes.old.items offset run.now) }
{
    write_live_slice(bytes, offset, &[]);
    let mut at = offset;
    for piece in run.pieces() {
        write_live_slice(bytes, at, piece);
        at += piece.len();
    }
}

/// Writes the selected bytes of a run. `keep[i]` selects byte `i`. The bytes grow only as far as the last selected
/// byte. The only error is out of memory, if the capacity is too small. The bytes are unchanged then.
pub fn write_chosen_slice(
    bytes: &mut Bytes,
    offset: usize,
    run: &[u8],
    keep: &[bool],
) -> Result<(), AllocError>
    requires same { length keep.now ≡ length run.now }
    requires fits { offset + length run.now < 2 ^ 64 }
    ensures { WritesSelected result bytes.old bytes.new offset run.now keep.now }
{
    let end = reach_of(offset, keep);
    make_room(bytes, end)?;
    match &mut bytes.form {
        Form::Flat(flat) => overlay::lay_chosen(flat, offset, end, run, keep),
        Form::Paged(_) => bytes.form.lay_chosen_pages(offset, end, run, keep),
    }
    Ok(())
}

/// Writes the selected bytes of several pieces, as `write_chosen_slice`.
pub fn write_chosen(
    bytes: &mut Bytes,
    offset: usize,
    run: &IoBufs,
    keep: &[bool],
) -> Result<(), AllocError>
    requires same { length keep.now ≡ length run.now }
    requires fits { offset + length run.now < 2 ^ 64 }
    ensures { WritesSelected result bytes.old bytes.new offset run.now keep.now }
{
    make_room(bytes, reach_of(offset, keep))?;
    let mut done = 0;
    for piece in run.pieces() {
        let end = done + piece.len();
        let part = &keep[done..end];
        write_chosen_slice(bytes, offset + done, piece, part).unwrap();
        done = end;
    }
    Ok(())
}

/// Writes a run. The only error is out of memory, if the capacity is too small. The bytes are unchanged then.
pub fn write_slice(bytes: &mut Bytes, offset: usize, run: &[u8]) -> Result<(), AllocError>
    requires { offset + length run.now < 2 ^ 64 }
    ensures { Grows result bytes.old bytes.new (offset + length run.now) (overlay bytes.old.items offset run.now) }
{
    let len = run.len();
    make_room(bytes, offset + len)?;
    if len > 0 {
        write_live_slice(bytes, offset, run);
    }
    Ok(())
}

/// Writes several pieces, as `write_slice`.
pub fn write(bytes: &mut Bytes, offset: usize, run: &IoBufs) -> Result<(), AllocError>
    requires { offset + length run.now < 2 ^ 64 }
    ensures { Grows result bytes.old bytes.new (offset + length run.now) (overlay bytes.old.items offset run.now) }
{
    let len = run.remaining();
    make_room(bytes, offset + len)?;
    if len > 0 {
        write_live(bytes, offset, run);
    }
    Ok(())
}

/// Truncates, or extends with zeros. The only error is out of memory, if the capacity is too small. The bytes are
/// unchanged then.
pub fn resize(bytes: &mut Bytes, len: usize) -> Result<(), AllocError>
    ensures { Grows result bytes.old bytes.new len (resize bytes.old.items len) }
{
    make_room(bytes, len)?;
    match &mut bytes.form {
        Form::Flat(flat) => overlay::set_len(flat, len),
        Form::Paged(_) => bytes.form.set_len_pages(len),
    }
    Ok(())
}

/// Replaces the bytes with those of `other`. Both share its pages, and no page is copied. The only error is out of
/// memory. The bytes are unchanged then.
pub fn replace(bytes: &mut Bytes, other: &mut Bytes) -> Result<(), AllocError>
    ensures ok { OnOk result (bytes.new.items ≡ other.old.items) }
    ensures err { OnErr result (bytes.new.items ≡ bytes.old.items) }
    ensures capacity { OnErr result (bytes.old.capacity ≤ bytes.new.capacity) }
    ensures other { other.new.items ≡ other.old.items }
{
    bytes.form.replace(&mut other.form)
}
