//! Bytes in pages that several values may share.
ghost use Rattle.std.specs.Prelude.{◌≡◌, ◌≤◌, ◌<◌, ◌+◌, ◌*◌, ◌^◌, ◌++◌, length, take, drop, IsOk, OnOk, OnErr, IfOk, vec_capacity};
ghost use Rattle.blob_pages.specs.Paged.{page_size, AreFull};
ghost use Rattle.blob_model.specs.Bytes.{overlay, resize};

pub use crate::page::PAGE;
use crate::page::count;
use crate::page_list::{append_from, lay_over, part_of, set_len};
use crate::table::Table;
use std::alloc::{AllocError, Global};

/// Bytes in pages.
///
/// The capacity is that of `spare`. Nothing is written to `spare` until a page can't be allocated: then all bytes move
/// there (`into_vec`). So a change within the capacity never fails.
#[derive(Drop)]
pub struct Pages {
    alloc: Global,
    pages: Table,
    len: usize,
    spare: Vec<u8>,
    ghost full: { AreFull pages },
    ghost held: { len ≤ page_size * length pages },
    ghost spared: { len ≤ vec_capacity spare },
}

impl Pages {
    ghost use Rattle.blob_pages.specs.Values.{AreShared, bytes, room, Tries};

    /// Makes an empty value with the capacity of `spare`. Does not allocate.
    pub fn new(alloc: Global, spare: Vec<u8>) -> Pages
        ensures bytes { length (bytes result) ≡ 0 }
        ensures room { room result ≡ vec_capacity spare }
    {
        Pages {
            alloc,
            pages: Table::new(alloc),
            len: 0,
            spare,
        }
    }

    /// Returns the allocator.
    pub fn alloc(&self) -> Global {
        self.alloc
    }

    /// Returns the number of bytes. It is at most the capacity.
    pub fn len(&self) -> usize
        ensures len { result ≡ length (bytes self.now) }
        ensures within { result ≤ room self.now }
    {
        self.len
    }

    /// Returns the capacity.
    #[inline(always)]
    pub fn reserved(&self) -> usize
        ensures { result ≡ room self.now }
    {
        self.spare.capacity()
    }

    /// Reserves capacity for `len` bytes in all. The only error is out of memory.
    pub fn reserve(&mut self, len: usize) -> Result<(), AllocError>
        ensures bytes { bytes self.new ≡ bytes self.old }
        ensures room { OnOk result (len ≤ room self.new) }
        ensures succeeds { len ≤ room self.old → IsOk result }
        ensures kept { room self.old ≤ room self.new }
    {
        let had = self.spare.capacity();
        if had < len {
            let spare = Vec::with_capacity(self.alloc, len.max(had.saturating_mul(2)))?;
            self.spare = spare;
        }
        Ok(())
    }

    /// Truncates, or extends with zeros, within the capacity. The only error is that a page can't be allocated. The
    /// bytes are unchanged then.
    pub fn resize(&mut self, len: usize) -> Result<(), AllocError>
        requires { len ≤ room self.old }
        ensures { Tries result self.old self.new (resize (bytes self.old) len) }
    {
        set_len(self.alloc, &mut self.pages, self.len, len)?;
        self.len = len;
        Ok(())
    }

    /// Writes a run, within the capacity. The only error is that a page can't be allocated. The bytes are unchanged
    /// then.
    pub fn overlay(&mut self, offset: usize, run: &[u8]) -> Result<(), AllocError>
        requires fits { offset + length run.now < 2 ^ 64 }
        requires room { offset + length run.now ≤ room self.old }
        ensures { Tries result self.old self.new (overlay (bytes self.old) offset run.now) }
    {
        if run.is_empty() {
            return Ok(());
        }
        self.len = lay_over(self.alloc, &mut self.pages, self.len, offset, run)?;
        Ok(())
    }

    /// Replaces the bytes with those of `other`. Both share its pages, and no page is copied. The only error is out of
    /// memory. The bytes are unchanged then.
    pub fn replace(&mut self, other: &mut Pages) -> Result<(), AllocError>
        ensures ok { OnOk result (bytes self.new ≡ bytes other.old) }
        ensures shared { OnOk result (AreShared self.new) }
        ensures err { OnErr result (bytes self.new ≡ bytes self.old) }
        ensures room { room self.old ≤ room self.new }
        ensures other { bytes other.new ≡ bytes other.old }
        ensures other_room { room other.new ≡ room other.old }
    {
        self.reserve(other.len)?;
        self.pages = other.pages.share(self.alloc, count(other.len))?;
        self.len = other.len;
        Ok(())
    }

    /// Copies the bytes. The copy shares every page that is shared already. The only error is out of memory.
    pub fn copy(&self) -> Result<Pages, AllocError>
        ensures { IfOk result (λ copy. bytes copy ≡ bytes self.now) }
    {
        let spare = Vec::with_capacity(self.alloc, self.len)?;
        let pages = self.pages.copy(self.alloc, count(self.len))?;
        Ok(Pages {
            alloc: self.alloc,
            pages,
            len: self.len,
            spare,
        })
    }

    /// Returns the bytes from `at` on that are on one page, at most `len`.
    pub fn part(&self, at: usize, len: usize) -> &[u8]
        requires some { 0 < len }
        requires within { at + len ≤ length (bytes self.now) }
        ensures some { 0 < length result.now }
        ensures within { length result.now ≤ len }
        ensures part { result.now ≡ take (length result.now) (drop at (bytes self.now)) }
    {
        let _len = self.len;
        part_of(&self.pages, at, len)
    }

    /// Appends a range of the bytes to a vector, within its capacity.
    pub fn append(&self, at: usize, len: usize, out: &mut Vec<u8>)
        requires within { at + len ≤ length (bytes self.now) }
        requires room { length out.old.items + len ≤ vec_capacity out.old }
        ensures bytes { out.new.items ≡ out.old.items ++ take len (drop at (bytes self.now)) }
        ensures capacity { vec_capacity out.old ≤ vec_capacity out.new }
    {
        let _len = self.len;
        append_from(&self.pages, at, len, out);
    }

    /// Moves all bytes to one vector with at least the same capacity. Does not allocate.
    pub fn into_vec(self) -> Vec<u8>
        ensures bytes { result.items ≡ bytes self }
        ensures capacity { room self ≤ vec_capacity result }
    {
        let Pages {
            alloc: _,
            pages,
            len,
            spare,
        } = self;
        let mut out = spare;
        out.clear();
        append_from(&pages, 0, len, &mut out);
        out
    }
}
