//! Which edits of a journal count after a crash.
ghost use Rattle.std.specs.Prelude.{◌≡◌, ◌-◌, ℕ, false, get_or, nat_eq, not, ◌||◌, ◌&&◌, IfOk, OnOk};
ghost use Rattle.blob_directory.specs.Profiles.{follows_any};
ghost use Rattle.blob_directory.specs.Rules.{SameRule, follows, last_seen, rule_in, rule_of};
ghost use Rattle.blob_directory.specs.Wanted.{is_up_to};

use crate::profile::Keeps;
use crate::unsettled::Unsettled;
use crate::wanted::is_up_to;
use std::alloc::{AllocError, Global};

/// Which edits of a journal count after a crash, besides the settled ones.
#[derive(Drop)]
pub(crate) struct Rule {
    /// None after one that was lost, except those that a sync saw.
    is_prefix: bool,
    /// The record of the last edit that a sync left unsettled.
    last: Option<u64>,
    /// Of each record whether the log of the syncs follows its edit. Records behind the last `true` are left out.
    followed: Vec<bool>,
}

/// Returns the record of the last edit that a sync left unsettled.
fn last_seen(edits: &[Unsettled]) -> Option<u64>
    ensures { result ≡ last_seen edits.now }
{
    let mut last = None;
    for edit in edits {
        if edit.is_seen {
            last = Some(edit.record);
        }
    }
    last
}

/// Marks one number. Fails only if memory runs out.
fn mark(marks: &mut Vec<bool>, number: usize) -> Result<(), AllocError>
    ensures { OnOk result ((n : ℕ) → get_or marks.new.items n false ≡ (nat_eq number n || get_or marks.old.items n false)) }
{
    let Some(mark) = marks.get_mut(number) else {
        marks.resize(number, false)?;
        marks.push(true)?;
        return Ok(());
    };
    *mark = true;
    Ok(())
}

/// Returns of each record whether the log follows its edit. Fails only if memory runs out.
fn followed(alloc: Global, edits: &[Unsettled]) -> Result<Vec<bool>, AllocError>
    ensures { IfOk result (λ marks. (n : ℕ) → get_or marks.items n false ≡ follows edits.now n) }
{
    let mut marks = Vec::new(alloc);
    for edit in edits {
        if edit.is_followed {
            mark(&mut marks, edit.record as usize)?;
        }
    }
    Ok(marks)
}

impl Rule {
    /// Returns the rule of a profile for these unsettled edits. Fails only if memory runs out.
    pub(crate) fn of(alloc: Global, keeps: Keeps, edits: &[Unsettled]) -> Result<Rule, AllocError>
        ensures { IfOk result (λ rule. SameRule (rule_in rule) (rule_of keeps edits.now)) }
    {
        let (is_prefix, last, followed) = match keeps {
            Keeps::Any => (false, None, Vec::new(alloc)),
            Keeps::Prefix => (true, None, Vec::new(alloc)),
            Keeps::Logged => (true, last_seen(edits), followed(alloc, edits)?),
        };
        Ok(Rule {
            is_prefix,
            last,
            followed,
        })
    }

    /// Returns whether the last sync left the edit of this record unsettled.
    pub(crate) fn is_seen(&self, number: u64) -> bool
        ensures { result ≡ is_up_to self.now.last number }
    {
        is_up_to(self.last, number)
    }

    /// Returns whether the log follows the edit of this record.
    fn is_followed(&self, number: u64) -> bool
        ensures { result ≡ get_or self.now.followed.items number false }
    {
        self.followed.get(number as usize).copied().unwrap_or(false)
    }

    /// Returns whether the log follows the edit of any of the records from one up to another, which isn't one of them.
    fn follows_any(&self, first: u64, end: u64) -> bool
        ensures { result ≡ follows_any (rule_in self.now) first (end - first) }
    {
        for number in first..end {
            if self.is_followed(number) {
                return true;
            }
        }
        false
    }

    /// Returns whether the log lost an edit that it followed, with the records from one up to another lost, which isn't one of them.
    pub(crate) fn is_behind(&self, is_behind: bool, first: u64, end: u64) -> bool
        ensures { result ≡ (is_behind || follows_any (rule_in self.now) first (end - first)) }
    {
        is_behind || self.follows_any(first, end)
    }

    /// Returns the same after a record that was found, with an edit or without one.
    pub(crate) fn is_next_behind(&self, is_behind: bool, number: u64, has_edit: bool) -> bool
        ensures { result ≡ (is_behind || ((rule_in self.now).is_followed number && not has_edit)) }
    {
        is_behind || (self.is_followed(number) && !has_edit)
    }

    /// Returns whether the log followed the edit of this record, if it didn't lose an earlier one.
    pub(crate) fn is_in_log(&self, is_behind: bool, number: u64) -> bool
        ensures { result ≡ ((rule_in self.now).is_followed number && not is_behind) }
    {
        self.is_followed(number) && !is_behind
    }

    /// Returns whether an unsettled edit of the next record is lost.
    pub(crate) fn is_next_lost(&self, is_lost: bool, is_kept: bool) -> bool
        ensures { result ≡ (is_lost || (self.now.is_prefix && not is_kept)) }
    {
        is_lost || (self.is_prefix && !is_kept)
    }
}
