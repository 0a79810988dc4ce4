// A group of at most 64 pages.
ghost use Rattle.std.specs.Prelude.{◌≡◌, ◌≤◌, ◌<◌, ◌+◌, [], true, length, map, slice_index_or, replicate, OnOk, IfOk};
ghost use Rattle.blob_pages.specs.Paged.{page_bytes, is_owned, owned_at, Keeps, Puts, Pushes};
ghost use Rattle.blob_pages.specs.Groups.{group_pages, is_open, IsSound, NoneOwned};

use crate::page::{Page, clear, close, copy_page, own, put};
use std::alloc::{AllocError, Global};
use std::sync::Arc;

/// The number of pages of a full group.
///
/// Sharing 64 MB counts 64 groups. The first write to a shared group copies its references to pages.
pub const GROUP: usize = 64;

/// Pages that only this value has as a group, or a group that other values may share. The pages of a shared group are
/// shared.
#[derive(Drop)]
pub enum Group {
    Open(Vec<Page>),
    Closed(Arc<Vec<Page>>),
}

impl Group {
    /// Returns the pages of the group.
    pub fn pages(&self) -> &[Page]
        ensures { result.now ≡ group_pages self.now }
    {
        match self {
            Group::Open(pages) => pages.as_slice(),
            Group::Closed(pages) => pages.as_ref().as_slice(),
        }
    }

    /// Returns whether only this value has a page. A group that others share has no such page.
    pub fn is_owned(&self, i: usize) -> bool
        requires { IsSound self.now }
        ensures { result ≡ owned_at (group_pages self.now) i }
    {
        match self {
            Group::Open(pages) => match pages.get(i) {
                Some(page) => page.is_owned(),
                None => false,
            },
            Group::Closed(_) => false,
        }
    }

    /// Returns whether only this value has the group.
    fn is_open(&self) -> bool
        ensures { result ≡ is_open self.now }
    {
        matches!(self, Group::Open(_))
    }
}

/// Copies pages, as `copy_page` does. The only error is out of memory.
fn copy_pages(alloc: Global, pages: &[Page]) -> Result<Vec<Page>, AllocError>
    ensures bytes { IfOk result (λ copy. map page_bytes copy.items ≡ map page_bytes pages.now) }
    ensures owned { IfOk result (λ copy. map is_owned copy.items ≡ map is_owned pages.now) }
{
    let count = pages.len();
    let mut copies = Vec::with_capacity(alloc, count)?;
    for i in 0..count {
        let copy = copy_page(alloc, &pages[i])?;
        copies.push(copy)?;
    }
    Ok(copies)
}

/// Copies a group. A shared one is counted, and no page of it is copied. The only error is out of memory.
pub fn copy_group(alloc: Global, group: &Group) -> Result<Group, AllocError>
    ensures bytes { IfOk result (λ copy. map page_bytes (group_pages copy) ≡ map page_bytes (group_pages group.now)) }
    ensures sound { IfOk result (λ copy. IsSound group.now → IsSound copy) }
{
    match group {
        Group::Closed(pages) => {
            let copy: Result<Arc<Vec<Page>>, AllocError> = pages.clone();
            Ok(Group::Closed(copy?))
        }
        Group::Open(pages) => Ok(Group::Open(copy_pages(alloc, pages.as_slice())?)),
    }
}

/// Replaces a shared group by references to its pages that only this value has. The only error is out of memory. The
/// group is unchanged then.
fn open(alloc: Global, group: &mut Group) -> Result<(), AllocError>
    ensures keeps { Keeps (group_pages group.old) (group_pages group.new) }
    ensures open { OnOk result (is_open group.new ≡ true) }
    ensures sound { IsSound group.old → IsSound group.new }
{
    if group.is_open() {
        return Ok(());
    }
    let copy = copy_pages(alloc, group.pages())?;
    *group = Group::Open(copy);
    Ok(())
}

/// Replaces a shared page by a copy that only this value has. The only error is out of memory. The bytes are unchanged
/// then.
pub fn own_in(alloc: Global, group: &mut Group, i: usize) -> Result<(), AllocError>
    requires { i < length (group_pages group.old) }
    ensures keeps { Keeps (group_pages group.old) (group_pages group.new) }
    ensures owned { OnOk result (owned_at (group_pages group.new) i ≡ true) }
    ensures sound { IsSound group.old → IsSound group.new }
{
    open(alloc, group)?;
    if let Group::Open(pages) = group {
        own(alloc, &mut pages[i])?;
    }
    Ok(())
}

/// Appends a page. The only error is out of memory. The bytes are unchanged then.
pub fn push_in(alloc: Global, group: &mut Group, page: Page) -> Result<(), AllocError>
    ensures pushed { Pushes result (group_pages group.old) (group_pages group.new) page }
    ensures sound { IsSound group.old → IsSound group.new }
{
    open(alloc, group)?;
    if let Group::Open(pages) = group {
        pages.push(page)?;
    }
    Ok(())
}

/// Writes a run to a page that only this value has.
#[inline(always)]
pub fn put_in(group: &mut Group, i: usize, at: usize, run: &[u8])
    requires sound { IsSound group.old }
    requires owned { owned_at (group_pages group.old) i ≡ true }
    requires within { at + length run.now ≤ length (slice_index_or (map page_bytes (group_pages group.old)) i []) }
    ensures puts { Puts (group_pages group.old) (group_pages group.new) i at run.now }
    ensures sound { IsSound group.new }
{
    if let Group::Open(pages) = group {
        put(&mut pages[i], at, run);
    }
}

/// Writes zeros to a page that only this value has.
pub fn clear_in(group: &mut Group, i: usize, at: usize, len: usize)
    requires sound { IsSound group.old }
    requires owned { owned_at (group_pages group.old) i ≡ true }
    requires within { at + len ≤ length (slice_index_or (map page_bytes (group_pages group.old)) i []) }
    ensures puts { Puts (group_pages group.old) (group_pages group.new) i at (replicate len 0) }
    ensures sound { IsSound group.new }
{
    if let Group::Open(pages) = group {
        clear(&mut pages[i], at, len);
    }
}

/// Makes all pages shared. The only error is out of memory. The bytes are unchanged then.
fn close_all(alloc: Global, pages: &mut [Page]) -> Result<(), AllocError>
    ensures bytes { map page_bytes pages.new ≡ map page_bytes pages.old }
    ensures shared { OnOk result (NoneOwned pages.new) }
{
    for i in 0..pages.len() {
        close(alloc, &mut pages[i])?;
    }
    Ok(())
}

/// Makes a group and its pages shared, and returns a second reference to the group. The only error is out of memory. The
/// bytes are unchanged then.
pub fn share_group(alloc: Global, group: &mut Group) -> Result<Group, AllocError>
    requires { IsSound group.old }
    ensures bytes { map page_bytes (group_pages group.new) ≡ map page_bytes (group_pages group.old) }
    ensures ok { IfOk result (λ copy. map page_bytes (group_pages copy) ≡ map page_bytes (group_pages group.old)) }
    ensures shared { IfOk result (λ copy. NoneOwned (group_pages copy)) }
    ensures sound { IsSound group.new }
{
    let taken = std::mem::replace(group, Group::Open(Vec::new(alloc)));
    match taken {
        Group::Closed(pages) => {
            let copy: Result<Arc<Vec<Page>>, AllocError> = pages.clone();
            *group = Group::Closed(pages);
            Ok(Group::Closed(copy?))
        }
        Group::Open(mut pages) => {
            if let Err(failed) = close_all(alloc, pages.as_mut_slice()) {
                *group = Group::Open(pages);
                return Err(failed);
            }
            match Arc::new(alloc, pages) {
                Err(failed) => {
                    *group = Group::Open(failed.value);
                    Err(AllocError)
                }
                Ok(pages) => {
                    let copy: Result<Arc<Vec<Page>>, AllocError> = pages.clone();
                    *group = Group::Closed(pages);
                    Ok(Group::Closed(copy?))
                }
            }
        }
    }
}
