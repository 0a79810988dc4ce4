// The pages of a value, in groups that copies share.
ghost use Rattle.std.specs.Prelude.{◌≡◌, ◌≤◌, ◌<◌, ◌+◌, ◌*◌, [], true, length, map, slice_index_or, replicate, OnOk, IfOk};
ghost use Rattle.blob_pages.specs.Paged.{page_size, page_bytes, is_owned, owned_at, AreOwned, Adds, Extends, Keeps, Puts};
ghost use Rattle.blob_pages.specs.Groups.{group_size, all_pages, NoneOwned, IsPacked, IsFirst};

use crate::group::{GROUP, Group, clear_in, copy_group, own_in, push_in, put_in, share_group};
use crate::page::{Page, page_of, zeros};
use std::alloc::{AllocError, Global};
use std::marker::Model;

/// Pages in groups. All groups but the last are full.
#[derive(Drop)]
pub struct Table {
    groups: Vec<Group>,
}

impl Model for Table {
    ghost use Rattle.std.specs.Prelude.{List};
    ghost use Rattle.blob_pages.specs.declared.page.Page.{Page};

    ghost Value = { List Page };

    ghost use Rattle.blob_pages.specs.Groups.{all_pages, IsPacked};

    ghost view = { λ t. all_pages t.groups.items };

    ghost invariant = { λ t. IsPacked t.groups.items };
}

impl Table {
    /// Makes a table with no page. Does not allocate.
    pub fn new(alloc: Global) -> Table
        ensures { result ≡ [] }
    {
        Table {
            groups: Vec::new(alloc),
        }
    }

    /// Returns the number of pages.
    pub fn len(&self) -> usize
        ensures { result ≡ length self.now }
    {
        count_of(self.groups.as_slice())
    }

    /// Returns the bytes of a page.
    pub fn bytes(&self, i: usize) -> &[u8]
        requires { i < length self.now }
        ensures { result.now ≡ slice_index_or (map page_bytes self.now) i [] }
    {
        bytes_of(self.groups.as_slice(), i)
    }

    /// Returns whether page `i` exists and only this value has it.
    pub fn is_owned(&self, i: usize) -> bool
        ensures { result ≡ owned_at self.now i }
    {
        is_owned_in(self.groups.as_slice(), i)
    }

    /// Appends a page of zeros. The only error is out of memory. The bytes are unchanged then.
    pub fn add(&mut self, alloc: Global) -> Result<(), AllocError>
        ensures extends { Extends self.old self.new }
        ensures one { OnOk result (length self.new ≡ length self.old + 1) }
        ensures owned { AreOwned self.new (length self.old) (length self.new) }
    {
        let page = zeros(alloc)?;
        add_to(alloc, &mut self.groups, page)
    }

    /// Appends a page of these bytes. The only error is out of memory. The bytes are unchanged then.
    pub fn add_run(&mut self, alloc: Global, run: &[u8]) -> Result<(), AllocError>
        requires { length run.now ≡ page_size }
        ensures extends { Extends self.old self.new }
        ensures one { OnOk result (length self.new ≡ length self.old + 1) }
        ensures bytes { OnOk result (slice_index_or (map page_bytes self.new) (length self.old) [] ≡ run.now) }
    {
        let page = page_of(alloc, run)?;
        add_to(alloc, &mut self.groups, page)
    }

    /// Replaces a shared page by a copy that only this value has. The only error is out of memory. The bytes are
    /// unchanged then.
    pub fn own(&mut self, alloc: Global, i: usize) -> Result<(), AllocError>
        requires { i < length self.old }
        ensures keeps { Keeps self.old self.new }
        ensures owned { OnOk result (owned_at self.new i ≡ true) }
    {
        own_of(alloc, &mut self.groups, i)
    }

    /// Writes a run to a page that only this value has.
    #[inline(always)]
    pub fn put(&mut self, i: usize, at: usize, run: &[u8])
        requires owned { owned_at self.old i ≡ true }
        requires within { at + length run.now ≤ length (slice_index_or (map page_bytes self.old) i []) }
        ensures { Puts self.old self.new i at run.now }
    {
        put_of(&mut self.groups, i, at, run);
    }

    /// Writes zeros to a page that only this value has.
    pub fn clear(&mut self, i: usize, at: usize, len: usize)
        requires owned { owned_at self.old i ≡ true }
        requires within { at + len ≤ length (slice_index_or (map page_bytes self.old) i []) }
        ensures { Puts self.old self.new i at (replicate len 0) }
    {
        clear_of(&mut self.groups, i, at, len);
    }

    /// Makes all groups of the first `count` pages shared, and returns second references to them. The only error is out
    /// of memory. The bytes are unchanged then.
    pub fn share(&mut self, alloc: Global, count: usize) -> Result<Table, AllocError>
        requires there { count ≤ length self.old }
        ensures bytes { map page_bytes self.new ≡ map page_bytes self.old }
        ensures ok { IfOk result (λ copy. IsFirst copy self.old count) }
        ensures shared { IfOk result (λ copy. NoneOwned copy) }
    {
        let groups = share_of(alloc, &mut self.groups, count)?;
        Ok(Table { groups })
    }

    /// Copies all groups of the first `count` pages, as `copy_group` does. The only error is out of memory.
    pub fn copy(&self, alloc: Global, count: usize) -> Result<Table, AllocError>
        requires there { count ≤ length self.now }
        ensures { IfOk result (λ copy. IsFirst copy self.now count) }
    {
        let groups = copy_of(alloc, self.groups.as_slice(), count)?;
        Ok(Table { groups })
    }
}

/// Returns the number of groups for `count` pages.
fn groups_for(count: usize) -> usize
    ensures low { count ≤ group_size * result }
    ensures high { group_size * result < count + group_size }
{
    count.div_ceil(GROUP)
}

/// Returns the number of pages of all groups.
fn count_of(groups: &[Group]) -> usize
    requires { IsPacked groups.now }
    ensures { result ≡ length (all_pages groups.now) }
{
    let count = groups.len();
    if count == 0 {
        return 0;
    }
    let last = groups[count - 1].pages().len();
    (count - 1) * GROUP + last
}

/// Returns the bytes of a page.
fn bytes_of(groups: &[Group], i: usize) -> &[u8]
    requires packed { IsPacked groups.now }
    requires there { i < length (all_pages groups.now) }
    ensures { result.now ≡ slice_index_or (map page_bytes (all_pages groups.now)) i [] }
{
    let pages = groups[i / GROUP].pages();
    pages[i % GROUP].bytes()
}

/// Returns whether page `i` exists and only this value has it.
fn is_owned_in(groups: &[Group], i: usize) -> bool
    requires { IsPacked groups.now }
    ensures { result ≡ owned_at (all_pages groups.now) i }
{
    if i / GROUP >= groups.len() {
        return false;
    }
    groups[i / GROUP].is_owned(i % GROUP)
}

/// Appends a page to the last group, which is not full. The only error is out of memory. The bytes are unchanged then.
fn add_last(alloc: Global, groups: &mut Vec<Group>, page: Page) -> Result<(), AllocError>
    requires packed { IsPacked groups.old.items }
    requires some { 0 < length groups.old.items }
    requires room { length (all_pages groups.old.items) < group_size * length groups.old.items }
    requires owned { is_owned page ≡ true }
    requires full { length (page_bytes page) ≡ page_size }
    ensures packed { IsPacked groups.new.items }
    ensures adds { Adds result (all_pages groups.old.items) (all_pages groups.new.items) (page_bytes page) }
{
    let last = groups.len() - 1;
    push_in(alloc, &mut groups[last], page)
}

/// Appends a group of one page to full groups. The only error is out of memory. The bytes are unchanged then.
fn add_group(alloc: Global, groups: &mut Vec<Group>, page: Page) -> Result<(), AllocError>
    requires packed { IsPacked groups.old.items }
    requires room { length (all_pages groups.old.items) ≡ group_size * length groups.old.items }
    requires owned { is_owned page ≡ true }
    requires full { length (page_bytes page) ≡ page_size }
    ensures packed { IsPacked groups.new.items }
    ensures adds { Adds result (all_pages groups.old.items) (all_pages groups.new.items) (page_bytes page) }
{
    let mut pages = Vec::new(alloc);
    pages.push(page)?;
    groups.push(Group::Open(pages))?;
    Ok(())
}

/// Appends a page. The only error is out of memory. The bytes are unchanged then.
fn add_to(alloc: Global, groups: &mut Vec<Group>, page: Page) -> Result<(), AllocError>
    requires packed { IsPacked groups.old.items }
    requires owned { is_owned page ≡ true }
    requires full { length (page_bytes page) ≡ page_size }
    ensures packed { IsPacked groups.new.items }
    ensures adds { Adds result (all_pages groups.old.items) (all_pages groups.new.items) (page_bytes page) }
{
    if count_of(groups.as_slice()) / GROUP < groups.len() {
        return add_last(alloc, groups, page);
    }
    add_group(alloc, groups, page)
}

/// Replaces a shared page by a copy that only this value has. The only error is out of memory. The bytes are unchanged
/// then.
fn own_of(alloc: Global, groups: &mut Vec<Group>, i: usize) -> Result<(), AllocError>
    requires packed { IsPacked groups.old.items }
    requires there { i < length (all_pages groups.old.items) }
    ensures packed { IsPacked groups.new.items }
    ensures keeps { Keeps (all_pages groups.old.items) (all_pages groups.new.items) }
    ensures owned { OnOk result (owned_at (all_pages groups.new.items) i ≡ true) }
{
    own_in(alloc, &mut groups[i / GROUP], i % GROUP)?;
    Ok(())
}

/// Writes a run to a page that only this value has.
#[inline(always)]
fn put_of(groups: &mut Vec<Group>, i: usize, at: usize, run: &[u8])
    requires packed { IsPacked groups.old.items }
    requires owned { owned_at (all_pages groups.old.items) i ≡ true }
    requires within { at + length run.now ≤ length (slice_index_or (map page_bytes (all_pages groups.old.items)) i []) }
    ensures packed { IsPacked groups.new.items }
    ensures puts { Puts (all_pages groups.old.items) (all_pages groups.new.items) i at run.now }
{
    put_in(&mut groups[i / GROUP], i % GROUP, at, run);
}

/// Writes zeros to a page that only this value has.
fn clear_of(groups: &mut Vec<Group>, i: usize, at: usize, len: usize)
    requires packed { IsPacked groups.old.items }
    requires owned { owned_at (all_pages groups.old.items) i ≡ true }
    requires within { at + len ≤ length (slice_index_or (map page_bytes (all_pages groups.old.items)) i []) }
    ensures packed { IsPacked groups.new.items }
    ensures puts { Puts (all_pages groups.old.items) (all_pages groups.new.items) i at (replicate len 0) }
{
    clear_in(&mut groups[i / GROUP], i % GROUP, at, len);
}

/// Makes all groups of the first `count` pages shared, and returns second references to them. The only error is out of
/// memory. The bytes are unchanged then.
fn share_of(alloc: Global, groups: &mut Vec<Group>, count: usize) -> Result<Vec<Group>, AllocError>
    requires packed { IsPacked groups.old.items }
    requires there { count ≤ length (all_pages groups.old.items) }
    ensures packed { IsPacked groups.new.items }
    ensures bytes { map page_bytes (all_pages groups.new.items) ≡ map page_bytes (all_pages groups.old.items) }
    ensures copy { IfOk result (λ copy. IsPacked copy.items) }
    ensures ok { IfOk result (λ copy. IsFirst (all_pages copy.items) (all_pages groups.old.items) count) }
    ensures shared { IfOk result (λ copy. NoneOwned (all_pages copy.items)) }
{
    let needed = groups_for(count);
    let mut copies = Vec::with_capacity(alloc, needed)?;
    for k in 0..needed {
        let copy = share_group(alloc, &mut groups[k])?;
        copies.push(copy)?;
    }
    Ok(copies)
}

/// Copies all groups of the first `count` pages, as `copy_group` does. The only error is out of memory.
fn copy_of(alloc: Global, groups: &[Group], count: usize) -> Result<Vec<Group>, AllocError>
    requires packed { IsPacked groups.now }
    requires there { count ≤ length (all_pages groups.now) }
    ensures packed { IfOk result (λ copy. IsPacked copy.items) }
    ensures ok { IfOk result (λ copy. IsFirst (all_pages copy.items) (all_pages groups.now) count) }
{
    let needed = groups_for(count);
    let mut copies = Vec::with_capacity(alloc, needed)?;
    for k in 0..needed {
        let copy = copy_group(alloc, &groups[k])?;
        copies.push(copy)?;
    }
    Ok(copies)
}
