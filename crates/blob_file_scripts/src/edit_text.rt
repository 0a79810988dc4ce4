//! An edit in the words of a script, and what a crash did with it.
ghost use Rattle.std.specs.Prelude.{◌≡◌};
ghost use Rattle.blob_file_scripts.specs.Outcomes.{edit_outcome};

use crate::call::{Line, Named};
use crate::path_text::print_path;
use crate::paths::{Paths, parts_of};
use blob_fs::call::{Call, NumberCall, PathCall};
use blob_fs::{Edit, FileSystem};
use blob_lab::ScriptedRng;
use std::alloc::AllocError;

/// What a crash did with an edit that nothing settled.
#[derive(Clone, Copy, Debug, PartialEq, Eq)]
pub enum EditOutcome {
    Kept,
    Lost,
    /// Its record was kept, but an edit before it was lost, and the profile keeps edits up to some point.
    Discarded,
}

/// Returns what a crash did with an edit, by whether its record was kept, and whether the recovery applied it.
pub fn edit_outcome(is_applied: bool, is_kept: bool) -> EditOutcome
    ensures { result ≡ edit_outcome is_applied is_kept }
{
    match (is_applied, is_kept) {
        (true, _) => EditOutcome::Kept,
        (false, true) => EditOutcome::Discarded,
        (false, false) => EditOutcome::Lost,
    }
}

/// Returns the word of what a crash did with an edit.
pub(crate) fn outcome_word(outcome: EditOutcome) -> &'static str {
    match outcome {
        EditOutcome::Kept => "kept",
        EditOutcome::Lost => "lost",
        EditOutcome::Discarded => "discarded",
    }
}

/// Returns the words of what a crash did with an edit.
pub(crate) fn outcome_words(outcome: EditOutcome) -> &'static str {
    match outcome {
        EditOutcome::Kept => "kept",
        EditOutcome::Lost => "lost",
        EditOutcome::Discarded => "discarded, since an edit before it was lost",
    }
}

/// Returns the word of a call that changes one name.
fn word_of(call: &Call<'_>) -> &'static str {
    match call {
        Call::ByPath(PathCall::Create(_)) | Call::ByNumber(NumberCall::Create { .. }) => "create",
        Call::ByPath(PathCall::Link { .. }) | Call::ByNumber(NumberCall::Link { .. }) => "link",
        Call::ByPath(PathCall::Unlink(_)) | Call::ByNumber(NumberCall::Unlink { .. }) => "unlink",
        Call::ByPath(PathCall::MakeDirectory(_))
        | Call::ByNumber(NumberCall::MakeDirectory { .. }) => "mkdir",
        Call::ByPath(PathCall::RemoveDirectory(_))
        | Call::ByNumber(NumberCall::RemoveDirectory { .. }) => "rmdir",
        _ => "change",
    }
}

/// Appends the call's word, and what a link names.
fn push_word(line: &Line<'_>, text: &mut String) -> Result<(), AllocError> {
    let Line::Call(call) = line else {
        return text.push_str("change ");
    };
    let word = word_of(call);
    write!(text, "{word} ")?;
    match call {
        Call::ByPath(PathCall::Link { path, .. }) => {
            print_path(path, text)?;
            text.push_str(" -> ")
        }
        Call::ByNumber(NumberCall::Link { inode, .. }) => write!(text, "inode {inode} -> "),
        _ => Ok(()),
    }
}

/// Returns the inode of the file that an edit truncates. `None` if it changes a name.
pub(crate) fn inode_truncated(edit: &Edit) -> Option<u64> {
    match parts_of(&edit.first.entry) {
        Some((inode, [])) => Some(inode),
        _ => None,
    }
}

/// Returns the path by which a call truncates a file, if it has one.
fn path_truncated<'a>(line: &Line<'a>) -> Option<&'a [u8]> {
    match line {
        Line::On(Named::Path(path), _) => Some(path),
        Line::Call(Call::ByPath(PathCall::OpenTruncated(path))) => Some(path),
        _ => None,
    }
}

/// Appends the truncation of a file, with the length that the call left: one that failed in part left a longer one.
fn push_truncation(
    line: &Line<'_>,
    fs: &FileSystem<ScriptedRng>,
    inode: u64,
    paths: &Paths,
    text: &mut String,
) -> Result<(), AllocError> {
    text.push_str("truncate ")?;
    match path_truncated(line) {
        Some(path) => print_path(path, text)?,
        None => paths.push_file(inode, text)?,
    }
    let length = fs.size_of(inode);
    write!(text, " {length}")
}

/// Appends an edit as its call with full paths: `create PATH`, `rename PATH -> PATH`, `exchange PATH, PATH`, `truncate PATH LENGTH`
/// and so on.
pub(crate) fn push_edit(
    line: &Line<'_>,
    fs: &FileSystem<ScriptedRng>,
    edit: &Edit,
    paths: &Paths,
    text: &mut String,
) -> Result<(), AllocError> {
    if let Some(inode) = inode_truncated(edit) {
        return push_truncation(line, fs, inode, paths, text);
    }
    let Some(second) = &edit.second else {
        push_word(line, text)?;
        return paths.push_entry(&edit.first.entry, text);
    };
    let is_move = edit.first.to.is_none();
    text.push_str(if is_move { "rename " } else { "exchange " })?;
    paths.push_entry(&edit.first.entry, text)?;
    text.push_str(if is_move { " -> " } else { ", " })?;
    paths.push_entry(&second.entry, text)
}
