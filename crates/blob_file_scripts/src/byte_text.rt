//! What a crash did with the bytes of an unsynced write.
ghost use Rattle.std.specs.Prelude.{◌≡◌, true, false};
ghost use Rattle.blob_file_scripts.specs.Outcomes.{choice_at};

use std::alloc::{AllocError, Global};

/// What a crash did with a byte of an unsynced write.
#[derive(Clone, Copy, Debug, PartialEq, Eq)]
pub enum ByteOutcome {
    Kept,
    Lost,
    /// A later byte was durable over it, whatever was drawn.
    Covered,
}

/// What a crash chose for the bytes of a write.
#[derive(Clone, Copy)]
pub(crate) struct Choices<'a> {
    /// One for each byte.
    pub(crate) kept: &'a [bool],
    /// The ranges that later durable bytes cover, sorted: start and end.
    pub(crate) covered: &'a [(u64, u64)],
    /// Where the write begins.
    pub(crate) offset: u64,
}

/// Returns whether an offset is in one of the ranges, which are sorted.
fn is_in(ranges: &[(u64, u64)], at: u64) -> bool {
    let i = ranges.partition_point(|range| range.1 <= at);
    match ranges.get(i) {
        Some(range) => range.0 <= at,
        None => false,
    }
}

/// Returns what a crash did with the byte at an index of a write at an offset. `covered` are the ranges that later durable bytes
/// cover, sorted: start and end.
fn outcome_of(choices: &[bool], covered: &[(u64, u64)], offset: u64, i: usize) -> ByteOutcome
    ensures kept { result ≡ ByteOutcome.Kept → choice_at choices.now i ≡ true }
    ensures lost { result ≡ ByteOutcome.Lost → choice_at choices.now i ≡ false }
{
    if is_in(covered, offset.saturating_add(i as u64)) {
        ByteOutcome::Covered
    } else if choices.get(i) == Some(&true) {
        ByteOutcome::Kept
    } else {
        ByteOutcome::Lost
    }
}

/// Returns the runs of the bytes of an outcome: start and end.
pub(crate) fn runs_of(
    alloc: Global,
    choices: Choices<'_>,
    outcome: ByteOutcome,
) -> Result<Vec<(u64, u64)>, AllocError> {
    let mut runs = Vec::new(alloc);
    let mut start = None;
    let mut at = choices.offset;
    for i in 0..choices.kept.len() {
        let is_of = outcome_of(choices.kept, choices.covered, choices.offset, i) == outcome;
        match start {
            None if is_of => start = Some(at),
            Some(first) if !is_of => {
                runs.push((first, at))?;
                start = None;
            }
            _ => {}
        }
        at = at.saturating_add(1);
    }
    if let Some(first) = start {
        runs.push((first, at))?;
    }
    Ok(runs)
}

/// Appends runs, each as `START..END`, with commas between them.
fn push_runs(runs: &[(u64, u64)], text: &mut String) -> Result<(), AllocError> {
    let mut comma = " ";
    for (start, end) in runs {
        write!(text, "{comma}{start}..{end}")?;
        comma = ",";
    }
    Ok(())
}

/// Returns how many bytes runs have.
fn count_of(runs: &[(u64, u64)]) -> u64 {
    let mut count = 0u64;
    for (start, end) in runs {
        count = count.saturating_add(end.saturating_sub(*start));
    }
    count
}

/// Appends the outcomes of a write's bytes: one word if all have the same, and else each outcome with its runs.
pub(crate) fn push_outcomes(choices: Choices<'_>, text: &mut String) -> Result<(), AllocError> {
    let mut separator = "";
    for (outcome, word) in [
        (ByteOutcome::Kept, "kept"),
        (ByteOutcome::Lost, "lost"),
        (ByteOutcome::Covered, "covered"),
    ] {
        let runs = runs_of(*text.allocator(), choices, outcome)?;
        if !runs.is_empty() {
            text.push_str(separator)?;
            text.push_str(word)?;
            separator = "; ";
            if count_of(&runs) < choices.kept.len() as u64 {
                push_runs(&runs, text)?;
            }
        }
    }
    Ok(())
}
