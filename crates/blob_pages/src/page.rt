// One page.
ghost use Rattle.std.specs.Prelude.{◌≡◌, ◌≤◌, ◌<◌, ◌+◌, ◌*◌, ◌%◌, [], true, false, length, replicate, OnOk, IfOk, vec_capacity};
ghost use Rattle.blob_pages.specs.Paged.{page_size, page_bytes, blank_bytes, is_blank, is_owned, splice};

use crate::blank::{Blank, are_zeros};
use std::alloc::{AllocError, Global};
use std::sync::Arc;

/// The size of a page in bytes.
///
/// The first write to a shared page copies 16 KB. A file of at most 16 KB has no pages: it is one vector.
pub const PAGE: usize = 16384;

/// A page that only this value has, or one that other values may share. The bytes of a blank page are zeros: its memory isn't written
/// before its first bytes are, so zeros that are written over cost nothing.
#[derive(Drop)]
pub enum Page {
    Owned(Vec<u8>),
    Shared(Arc<Vec<u8>>),
    Blank(Blank),
}

impl Page {
    /// Returns the bytes of the page.
    pub fn bytes(&self) -> &[u8]
        ensures { result.now ≡ page_bytes self.now }
    {
        match self {
            Page::Owned(bytes) => bytes.as_slice(),
            Page::Shared(bytes) => bytes.as_ref().as_slice(),
            Page::Blank(blank) => blank.bytes(),
        }
    }

    /// Returns whether only this value has the page.
    pub fn is_owned(&self) -> bool
        ensures { result ≡ is_owned self.now }
    {
        !matches!(self, Page::Shared(_))
    }
}

/// Replaces a shared page by a copy that only this value has. The only error is out of memory. The page is unchanged
/// then.
pub fn own(alloc: Global, page: &mut Page) -> Result<(), AllocError>
    ensures bytes { page_bytes page.new ≡ page_bytes page.old }
    ensures owned { OnOk result (is_owned page.new ≡ true) }
    ensures kept { is_owned page.old ≡ true → is_owned page.new ≡ true }
{
    if page.is_owned() {
        return Ok(());
    }
    let copy = Vec::from_slice(alloc, page.bytes())?;
    *page = Page::Owned(copy);
    Ok(())
}

/// Returns the number of pages for `len` bytes.
pub fn count(len: usize) -> usize
    ensures low { len ≤ page_size * result }
    ensures high { page_size * result < len + page_size }
{
    len.div_ceil(PAGE)
}

/// Makes a blank page. The only error is out of memory.
pub fn zeros(alloc: Global) -> Result<Page, AllocError>
    ensures owned { IfOk result (λ page. is_owned page ≡ true) }
    ensures bytes { IfOk result (λ page. page_bytes page ≡ blank_bytes) }
{
    Ok(Page::Blank(Blank::new(alloc)?))
}

/// Makes a page of these bytes, a blank one of zeros. The only error is out of memory.
pub fn page_of(alloc: Global, bytes: &[u8]) -> Result<Page, AllocError>
    ensures owned { IfOk result (λ page. is_owned page ≡ true) }
    ensures bytes { IfOk result (λ page. page_bytes page ≡ bytes.now) }
{
    if are_zeros(bytes) {
        return zeros(alloc);
    }
    Ok(Page::Owned(Vec::from_slice(alloc, bytes)?))
}

/// Writes a run to a blank page.
#[inline(never)]
fn put_first(page: &mut Page, at: usize, run: &[u8])
    requires blank { is_blank page.old ≡ true }
    requires within { at + length run.now ≤ page_size }
    ensures bytes { page_bytes page.new ≡ splice (page_bytes page.old) at run.now }
    ensures owned { is_owned page.new ≡ true }
{
    if let Page::Blank(blank) = page {
        let alloc = blank.allocator();
        let taken = std::mem::replace(page, Page::Owned(Vec::new(alloc)));
        if let Page::Blank(blank) = taken {
            *page = Page::Owned(blank.with_run(at, run));
        }
    }
}

/// Writes a run to a page that only this value has.
#[inline(always)]
pub fn put(page: &mut Page, at: usize, run: &[u8])
    requires owned { is_owned page.old ≡ true }
    requires within { at + length run.now ≤ length (page_bytes page.old) }
    ensures bytes { page_bytes page.new ≡ splice (page_bytes page.old) at run.now }
    ensures owned { is_owned page.new ≡ true }
{
    match page {
        Page::Owned(bytes) => {
            let end = at + run.len();
            bytes[at..end].copy_from_slice(run);
        }
        Page::Blank(_) => put_first(page, at, run),
        Page::Shared(_) => {}
    }
}

/// Writes zeros to a page that only this value has.
pub fn clear(page: &mut Page, at: usize, len: usize)
    requires owned { is_owned page.old ≡ true }
    requires within { at + len ≤ length (page_bytes page.old) }
    ensures bytes { page_bytes page.new ≡ splice (page_bytes page.old) at (replicate len 0) }
    ensures owned { is_owned page.new ≡ true }
{
    match page {
        Page::Owned(bytes) => {
            let end = at + len;
            bytes[at..end].fill(0);
        }
        Page::Blank(_) => {}
        Page::Shared(_) => {}
    }
}

/// Returns how many bytes from `at` to `end` are on the page of `at`.
pub fn on_page(at: usize, end: usize) -> usize
    requires { at < end }
    ensures some { 0 < result }
    ensures within { at + result ≤ end }
    ensures page { at % page_size + result ≤ page_size }
{
    std::cmp::min(PAGE - at % PAGE, end - at)
}

/// Shares the bytes of a page that only this value has. If that fails, the page has them again.
fn share(alloc: Global, page: &mut Page, bytes: Vec<u8>) -> Result<(), AllocError>
    ensures bytes { page_bytes page.new ≡ bytes.items }
    ensures shared { OnOk result (is_owned page.new ≡ false) }
{
    match Arc::new(alloc, bytes) {
        Err(failed) => {
            *page = Page::Owned(failed.value);
            Err(AllocError)
        }
        Ok(bytes) => {
            *page = Page::Shared(bytes);
            Ok(())
        }
    }
}

/// Makes a page shared. The only error is out of memory. The bytes are unchanged then.
pub fn close(alloc: Global, page: &mut Page) -> Result<(), AllocError>
    ensures bytes { page_bytes page.new ≡ page_bytes page.old }
    ensures shared { OnOk result (is_owned page.new ≡ false) }
{
    if !page.is_owned() {
        return Ok(());
    }
    let taken = std::mem::replace(page, Page::Owned(Vec::new(alloc)));
    match taken {
        Page::Shared(bytes) => {
            *page = Page::Shared(bytes);
            Ok(())
        }
        Page::Blank(blank) => share(alloc, page, blank.with_run(0, &[])),
        Page::Owned(bytes) => share(alloc, page, bytes),
    }
}

/// Returns a second reference to a shared page, or a copy of one that only this value has. The only error is out of
/// memory.
pub fn copy_page(alloc: Global, page: &Page) -> Result<Page, AllocError>
    ensures bytes { IfOk result (λ copy. page_bytes copy ≡ page_bytes page.now) }
    ensures shared { IfOk result (λ copy. is_owned copy ≡ is_owned page.now) }
{
    match page {
        Page::Shared(bytes) => {
            let copy: Result<Arc<Vec<u8>>, AllocError> = bytes.clone();
            Ok(Page::Shared(copy?))
        }
        Page::Blank(_) => zeros(alloc),
        Page::Owned(bytes) => Ok(Page::Owned(Vec::from_slice(alloc, bytes)?)),
    }
}
