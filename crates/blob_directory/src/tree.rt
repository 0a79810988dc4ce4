//! The names that a crash leaves, from the records of a journal.
ghost use Rattle.std.specs.Prelude.{◌≡◌, ◌&&◌, ◌||◌, ◌-◌, ◌++◌, ℕ, false, is_some, length, nat_eq, not, replicate, None, IfOk, OnOk};
ghost use Rattle.blob_directory.specs.Checkpoints.{FitRecords};
ghost use Rattle.blob_directory.specs.Counts.{CountsNames, count_then, link_count};
ghost use Rattle.blob_directory.specs.Names.{Names, Same, entry};
ghost use Rattle.blob_directory.specs.Profiles.{counts, counts_in, lost_behind, names_told, seen_one, with_found};
ghost use Rattle.blob_directory.specs.Records.{found_by};
ghost use Rattle.blob_directory.specs.Rules.{rule_in, rule_of};
ghost use Rattle.blob_directory.specs.Tables.{bound};
ghost use Rattle.blob_directory.specs.Trees.{Finds, HasLinks, HasNamedLinks, HasPlaces, added, has_directory, has_then, is_directory, links_then, has_link};

use crate::edit::{Binding, Kind};
use crate::profile::Keeps;
use crate::record::decode;
use crate::rule::Rule;
use crate::table::Table;
use crate::unsettled::Unsettled;
use blob_packed::record::{Record, next_record};
use std::alloc::{AllocError, Global};
use std::collections::BTreeMap;

/// The number of the root directory.
pub const ROOT: u64 = 1;

/// The names that the root reaches.
#[derive(Drop)]
pub struct Tree {
    pub names: Table,
    /// Each directory with the one that has it. The root is its own.
    pub directories: BTreeMap<u64, u64>,
    /// How many names each file has.
    pub links: BTreeMap<u64, u32>,
}

impl Tree {
    /// Returns the tree of a root without names. Fails only if memory runs out.
    pub fn new(alloc: Global) -> Result<Tree, AllocError>
        ensures names { IfOk result (λ tree. Same (bound tree.names) (λ _. None)) }
        ensures directories { IfOk result (λ tree. (d : ℕ) → has_directory tree d ≡ nat_eq 1 d) }
        ensures links { IfOk result (λ tree. (i : ℕ) → has_link tree i ≡ false) }
    {
        let mut directories = BTreeMap::new(alloc);
        directories.insert(ROOT, ROOT)?;
        Ok(Tree {
            names: Table::new(alloc),
            directories,
            links: BTreeMap::new(alloc),
        })
    }

    /// Adds a name. A directory that has a name already gets no other.
    fn add(&mut self, directory: u64, name: &[u8], to: Binding) -> Result<bool, AllocError>
        ensures names { OnOk result (Same (bound self.new.names) (added self.old (entry directory name.now) to)) }
        ensures directories { OnOk result ((d : ℕ) → has_directory self.new d ≡ has_then self.old to d) }
        ensures links { OnOk result ((i : ℕ) → has_link self.new i ≡ links_then self.old to i) }
        ensures counts { OnOk result ((i : ℕ) → link_count self.new i ≡ count_then self.old to i) }
        ensures new { IfOk result (λ is_new. is_new ≡ (is_directory to.kind && not (has_directory self.old to.inode))) }
    {
        match to.kind {
            Kind::File => {
                let links = self.links.entry(to.inode)?.or_insert(0);
                // 2^32 names of one file don't fit in memory
                let Some(more) = links.checked_add(1) else {
                    return Err(AllocError);
                };
                *links = more;
            }
            Kind::Directory => {
                if self.directories.contains_key(&to.inode) {
                    return Ok(false);
                }
                self.directories.insert(to.inode, directory)?;
            }
        }
        self.names.bind(directory, name, to)?;
        Ok(to.kind == Kind::Directory)
    }
}

/// Applies the edit of a record, if the record has one that counts: it is settled, or none before it was lost, or it was seen by a
/// sync and binds a name, or the log followed it. Returns whether the record has an edit, and whether that counts. Fails only if
/// memory runs out.
fn keep(
    alloc: Global,
    names: &mut Table,
    found: Record<'_>,
    is_lost: bool,
    is_seen: bool,
    is_in_log: bool,
) -> Result<(bool, bool), AllocError>
    ensures there { IfOk result (λ r. r.0 ≡ is_some (found_by found.entry)) }
    ensures kept { IfOk result (λ r. r.1 ≡ counts is_lost (seen_one is_seen is_in_log (found_by found.entry))) }
    ensures names { OnOk result (Same (bound names.new) (with_found (bound names.old) is_lost (seen_one is_seen is_in_log (found_by found.entry)))) }
{
    let Some(edit) = decode(alloc, found.bytes)? else {
        return Ok((false, false));
    };
    if is_lost && !found.is_settled && !(is_seen && (edit.binds_any() || is_in_log)) {
        return Ok((true, false));
    }
    names.make(&edit)?;
    Ok((true, true))
}

/// Notes that the records up to a number are lost, if they weren't noted. Returns whether an unsettled edit of the next
/// record is lost. Fails only if memory runs out.
fn pass_over(
    kept: &mut Vec<bool>,
    number: usize,
    rule: &Rule,
    is_lost: bool,
) -> Result<bool, AllocError>
    ensures kept { OnOk result (kept.new.items ≡ kept.old.items ++ replicate (number - length kept.old.items) false) }
    ensures lost { IfOk result (λ lost. lost ≡ lost_behind (rule_in rule.now) is_lost (number - length kept.old.items)) }
{
    if number <= kept.len() {
        return Ok(is_lost);
    }
    kept.resize(number, false)?;
    Ok(rule.is_next_lost(is_lost, false))
}

/// Applies the edits of a journal that count by the rule of a profile for the edits that nothing settled, in order. Returns the
/// names, and of each record whether its edit counts. Fails only if memory runs out.
pub fn kept_names(
    alloc: Global,
    bytes: &[u8],
    keeps: Keeps,
    edits: &[Unsettled],
) -> Result<(Table, Vec<bool>), AllocError>
    ensures names { IfOk result (λ r. Same (bound r.0) (names_told (rule_of keeps edits.now) bytes.now)) }
    ensures kept { IfOk result (λ r. r.1.items ≡ counts_in (rule_of keeps edits.now) bytes.now) }
    ensures fit { IfOk result (λ r. FitRecords (bound r.0)) }
{
    let rule = Rule::of(alloc, keeps, edits)?;
    let mut names = Table::new(alloc);
    let mut kept = Vec::new(alloc);
    let mut is_lost = false;
    // An edit that the log followed is lost.
    let mut is_behind = false;
    let mut left = bytes;
    while let Some(found) = next_record(left, kept.len() as u64) {
        let number = found.number;
        is_behind = rule.is_behind(is_behind, kept.len() as u64, number);
        is_lost = pass_over(&mut kept, number as usize, &rule, is_lost)?;
        let is_seen = rule.is_seen(number);
        let is_in_log = rule.is_in_log(is_behind, number);
        let (has_edit, is_kept) = keep(alloc, &mut names, found, is_lost, is_seen, is_in_log)?;
        is_behind = rule.is_next_behind(is_behind, number, has_edit);
        is_lost = rule.is_next_lost(is_lost, is_kept);
        kept.push(is_kept)?;
        left = found.rest;
    }
    Ok((names, kept))
}

/// Returns the part of the names that the root reaches. Fails only if memory runs out.
pub fn reached(alloc: Global, names: &Table) -> Result<Tree, AllocError>
    ensures finds { IfOk result (λ tree. (told : Names) → Same (bound names.now) told → Finds (bound tree.names) told) }
    ensures places { IfOk result HasPlaces }
    ensures links { IfOk result HasLinks }
    ensures named { IfOk result HasNamedLinks }
    ensures counts { IfOk result CountsNames }
{
    let mut tree = Tree::new(alloc)?;
    let mut next = Vec::new(alloc);
    next.push(ROOT)?;
    // each turn takes another directory, so memory has run out before the last one
    for _ in 0..u64::MAX {
        let Some(directory) = next.pop() else {
            return Ok(tree);
        };
        for (name, to) in &names.names_in(directory)? {
            if tree.add(directory, name, *to)? {
                next.push(to.inode)?;
            }
        }
    }
    Err(AllocError)
}
