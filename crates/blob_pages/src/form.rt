// The bytes of a blob: one vector if they fit on one page, else pages.
ghost use Rattle.std.specs.Prelude.{◌≡◌, ◌≤◌, ◌<◌, ◌+◌, ◌^◌, length, take, drop, OnOk, OnErr, IfOk, vec_capacity};
ghost use Rattle.blob_model.specs.Bytes.{overlay_by, reach, resize, write_live};
ghost use Rattle.blob_model.specs.Runs.{is_chosen};

use crate::page_writes::{lay_mixed, paged};
use crate::pages::{PAGE, Pages};
use blob_overlay::overlay;
use std::alloc::{AllocError, Global};

/// Bytes in one vector or in pages. A vector becomes pages when it must grow to more than one page. Most blobs are small, so the
/// pages are boxed: a form isn't larger than it is with a vector.
#[derive(Drop)]
pub enum Form {
    Flat(Vec<u8>),
    Paged(Box<Pages>),
}

impl Form {
    ghost use Rattle.blob_pages.specs.Forms.{content, capacity, Becomes, MayBecome};

    /// Copies these bytes. The only error is out of memory.
    pub fn from_slice(alloc: Global, bytes: &[u8]) -> Result<Form, AllocError>
        ensures { IfOk result (λ made. content made ≡ bytes.now) }
    {
        if bytes.len() <= PAGE {
            return Ok(Form::Flat(Vec::from_slice(alloc, bytes)?));
        }
        Ok(Form::Paged(Box::new(alloc, paged(alloc, bytes, bytes.len())?)?))
    }

    /// Returns the allocator.
    pub fn alloc(&self) -> Global {
        match self {
            Form::Flat(bytes) => *bytes.allocator(),
            Form::Paged(pages) => pages.alloc(),
        }
    }

    /// Returns the number of bytes.
    pub fn len(&self) -> usize
        ensures len { result ≡ length (content self.now) }
        ensures within { result ≤ capacity self.now }
    {
        match self {
            Form::Flat(bytes) => bytes.len(),
            Form::Paged(pages) => pages.len(),
        }
    }

    /// Returns contiguous bytes from `at` on, at most `len`.
    pub fn part(&self, at: usize, len: usize) -> &[u8]
        requires some { 0 < len }
        requires within { at + len ≤ length (content self.now) }
        ensures some { 0 < length result.now }
        ensures within { length result.now ≤ len }
        ensures part { result.now ≡ take (length result.now) (drop at (content self.now)) }
    {
        match self {
            Form::Flat(bytes) => &bytes[at..at + len],
            Form::Paged(pages) => pages.part(at, len),
        }
    }

    /// Reserves capacity for `len` bytes in all, more than there is. The only error is out of memory.
    #[inline(never)]
    pub fn reserve_more(&mut self, len: usize) -> Result<(), AllocError>
        requires { capacity self.old < len }
        ensures grows { MayBecome result self.old self.new len (content self.old) }
        ensures room { OnOk result (len ≤ capacity self.new) }
    {
        match self {
            Form::Flat(bytes) => {
                if len <= PAGE {
                    return bytes.reserve(len - bytes.len());
                }
                let alloc = *bytes.allocator();
                let twice = bytes.capacity().saturating_mul(2);
                let made = paged(alloc, bytes.as_slice(), len.max(twice))?;
                *self = Form::Paged(Box::new(alloc, made)?);
                Ok(())
            }
            Form::Paged(pages) => pages.reserve(len),
        }
    }

    /// Moves the bytes out, into a vector with at least the same capacity. Does not allocate.
    fn flattened(&mut self) -> Vec<u8>
        ensures content { result.items ≡ content self.old }
        ensures capacity { capacity self.old ≤ vec_capacity result }
    {
        let alloc = self.alloc();
        let taken = std::mem::replace(self, Form::Flat(Vec::new(alloc)));
        match taken {
            Form::Flat(bytes) => bytes,
            Form::Paged(pages) => Box::into_inner(pages).into_vec(),
        }
    }

    /// Sets the length of pages. If a page can't be allocated, all bytes move to one vector.
    pub fn set_len_pages(&mut self, len: usize)
        requires { len ≤ capacity self.old }
        ensures { Becomes self.old self.new (resize (content self.old) len) }
    {
        if let Form::Paged(pages) = self {
            if pages.resize(len).is_ok() {
                return;
            }
        }
        let mut flat = self.flattened();
        overlay::set_len(&mut flat, len);
        *self = Form::Flat(flat);
    }

    /// Writes all bytes to pages, or to one vector if a page can't be allocated. An empty run extends the bytes with
    /// zeros to `offset`.
    pub fn write_live_pages(&mut self, offset: usize, run: &[u8])
        requires fits { offset + length run.now < 2 ^ 64 }
        requires room { offset + length run.now ≤ capacity self.old }
        ensures { Becomes self.old self.new (write_live (content self.old) offset run.now) }
    {
        if self.len() < offset {
            self.set_len_pages(offset);
        }
        if let Form::Paged(pages) = self {
            if pages.overlay(offset, run).is_ok() {
                return;
            }
        }
        let mut flat = self.flattened();
        overlay::write_live(&mut flat, offset, run);
        *self = Form::Flat(flat);
    }

    /// Writes the selected bytes to pages, or to one vector if a page can't be allocated.
    pub fn lay_chosen_pages(&mut self, offset: usize, end: usize, run: &[u8], keep: &[bool])
        requires same { length keep.now ≡ length run.now }
        requires fits { offset + length run.now < 2 ^ 64 }
        requires end { end ≡ reach offset (length run.now) (is_chosen keep.now) }
        requires room { end ≤ capacity self.old }
        ensures { Becomes self.old self.new (overlay_by (content self.old) offset run.now (is_chosen keep.now)) }
    {
        if let Form::Paged(pages) = self {
            if lay_mixed(pages, offset, end, run, keep).is_ok() {
                return;
            }
        }
        let mut flat = self.flattened();
        overlay::lay_chosen(&mut flat, offset, end, run, keep);
        *self = Form::Flat(flat);
    }

    /// Copies the bytes. The copy shares every page that is shared already. The only error is out of memory.
    pub fn copy(&self) -> Result<Form, AllocError>
        ensures { IfOk result (λ copy. content copy ≡ content self.now) }
    {
        match self {
            Form::Flat(bytes) => Form::from_slice(*bytes.allocator(), bytes.as_slice()),
            Form::Paged(pages) => Ok(Form::Paged(Box::new(pages.alloc(), pages.copy()?)?)),
        }
    }

    /// Replaces the bytes with those of `other`. Both share its pages, and no page is copied. The only error is out of
    /// memory.
    pub fn replace(&mut self, other: &mut Form) -> Result<(), AllocError>
        ensures ok { OnOk result (content self.new ≡ content other.old) }
        ensures err { OnErr result (content self.new ≡ content self.old) }
        ensures capacity { OnErr result (capacity self.old ≤ capacity self.new) }
        ensures other { content other.new ≡ content other.old }
        ensures other_capacity { capacity other.new ≡ capacity other.old }
    {
        match other {
            Form::Flat(bytes) => {
                if let Form::Flat(mine) = self {
                    return overlay::replace(mine, bytes.as_slice());
                }
                let made = Form::from_slice(*bytes.allocator(), bytes.as_slice())?;
                *self = made;
                Ok(())
            }
            Form::Paged(pages) => {
                if let Form::Paged(mine) = self {
                    return mine.replace(pages);
                }
                let mut made = Pages::new(pages.alloc(), Vec::new(pages.alloc()));
                made.replace(pages)?;
                *self = Form::Paged(Box::new(pages.alloc(), made)?);
                Ok(())
            }
        }
    }
}
