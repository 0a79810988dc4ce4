//! Replies of calls on files as lines.
ghost use Rattle.std.specs.Prelude.{◌≡◌, ◌++◌, OnOk, List, ℕ, codes, string_bytes};
ghost use Rattle.std.specs.List.{flat_map};
ghost use Rattle.blob_script.specs.Replies.{hex_field};
ghost use Rattle.blob_file_scripts.specs.ReplyLines.{Appends, Prints, edit_digits, error_line, error_word, found_line, name_field, name_fields, tree_field};

use crate::path_text::print_path;
use blob_base::RefusalLine;
use blob_file_sessions::Reply;
use blob_fs::{Binding, Crash, FsError, Kind, Place, TreeEntry};
use std::alloc::AllocError;

/// Appends bytes in lower-case hex, or `-` if there are none.
#[tactic(auto, using(blob_script::proofs::HexFields::none, blob_script::proofs::HexFields::some))]
pub fn print_hex(bytes: &[u8], line: &mut String) -> Result<(), AllocError>
    ensures { OnOk result (string_bytes line.new ≡ string_bytes line.old ++ hex_field bytes.now) }
{
    if bytes.is_empty() {
        return line.push_str("-");
    }
    let text = hex::encode(*line.allocator(), bytes)?;
    line.push_str(text.as_str())
}

/// Returns the word of a refusal that isn't the layer's.
fn word_of(error: &FsError) -> &'static str
    ensures { result.now ≡ error_word error.now }
{
    match error {
        FsError::Exists => "Exists",
        FsError::NotFound => "NotFound",
        FsError::NotEmpty => "NotEmpty",
        FsError::IsDirectory => "IsDirectory",
        FsError::NotDirectory => "NotDirectory",
        FsError::NameTooLong => "NameTooLong",
        FsError::InvalidName => "InvalidName",
        FsError::TooManyLinks => "TooManyLinks",
        FsError::Stale => "Stale",
        FsError::NoSpace => "NoSpace",
        FsError::Loop => "Loop",
        FsError::Crashed => "Crashed",
        FsError::Store(_) => "Store",
    }
}

fn print_refusal(error: &FsError, line: &mut String) -> Result<(), AllocError>
    ensures { OnOk result (string_bytes line.new ≡ string_bytes line.old ++ error_line error.now) }
{
    match error {
        FsError::Store(error) => {
            let refusal = RefusalLine(error);
            write!(line, "{refusal}")
        }
        _ => {
            let word = word_of(error);
            write!(line, "error {word}")
        }
    }
}

fn print_binding(binding: &Binding, size: u64, line: &mut String) -> Result<(), AllocError>
    ensures { OnOk result (string_bytes line.new
        ≡ string_bytes line.old ++ found_line binding.now.kind binding.now.inode size) }
{
    let inode = binding.inode;
    match binding.kind {
        Kind::File => write!(line, "found file {inode} {size}"),
        Kind::Directory => write!(line, "found directory {inode}"),
    }
}

/// Appends a name of a directory. A directory's has a slash after it.
fn print_name(name: &[u8], kind: Kind, line: &mut String) -> Result<(), AllocError>
    ensures { OnOk result (string_bytes line.new ≡ string_bytes line.old ++ name_field name.now kind) }
{
    line.push(' ')?;
    print_path(name, line)?;
    match kind {
        Kind::File => Ok(()),
        Kind::Directory => line.push('/'),
    }
}

fn print_names(names: &[(Vec<u8>, Binding)], line: &mut String) -> Result<(), AllocError>
    ensures { OnOk result (string_bytes line.new ≡ string_bytes line.old ++ name_fields names.now) }
{
    for (name, binding) in names {
        print_name(name, binding.kind, line)?;
    }
    Ok(())
}

/// Appends a path with the bytes of a file after an equals sign, or a slash for a directory.
fn print_entry(entry: &TreeEntry, line: &mut String) -> Result<(), AllocError>
    ensures { OnOk result (string_bytes line.new ≡ string_bytes line.old ++ tree_field entry.now) }
{
    line.push(' ')?;
    print_path(&entry.path, line)?;
    match entry.binding.kind {
        Kind::Directory => line.push('/'),
        Kind::File => {
            line.push('=')?;
            print_hex(&entry.bytes, line)
        }
    }
}

fn print_tree(entries: &[TreeEntry], line: &mut String) -> Result<(), AllocError>
    ensures { OnOk result (string_bytes line.new ≡ string_bytes line.old ++ flat_map tree_field entries.now) }
{
    for entry in entries {
        print_entry(entry, line)?;
    }
    Ok(())
}

/// Appends the runs of kept bytes of a write at an offset, each as `START..END`, or `-` if none was kept.
#[tactic(auto, using(crate::proofs::Appending::appends_both, crate::proofs::Appending::appends_more, crate::proofs::Appending::appends_none))]
fn print_runs(offset: u64, choices: &[bool], line: &mut String) -> Result<(), AllocError>
    ensures { OnOk result (Appends (string_bytes line.old) (string_bytes line.new)) }
{
    let mut was_kept = false;
    let mut has_run = false;
    let mut at = offset;
    for is_kept in choices {
        if *is_kept && !was_kept {
            let comma = if has_run { "," } else { "" };
            write!(line, "{comma}{at}..")?;
            has_run = true;
        } else if was_kept && !*is_kept {
            write!(line, "{at}")?;
        }
        was_kept = *is_kept;
        at = at.saturating_add(1);
    }
    match (was_kept, has_run) {
        (true, _) => write!(line, "{at}"),
        (false, false) => line.push('-'),
        (false, true) => Ok(()),
    }
}

/// Appends what a crash kept of a write to a file. An edit's record isn't told: its digit is.
#[tactic(auto, using(crate::proofs::Appending::appends_both, crate::proofs::Appending::appends_more, crate::proofs::Appending::appends_none))]
fn print_row(place: &Place, choices: &[bool], line: &mut String) -> Result<(), AllocError>
    ensures { OnOk result (Appends (string_bytes line.old) (string_bytes line.new)) }
{
    let Some(inode) = place.inode else {
        return Ok(());
    };
    let start = place.offset;
    let end = start.saturating_add(choices.len() as u64);
    write!(line, " {inode}:{start}..{end}:")?;
    print_runs(start, choices, line)
}

/// Appends a digit for each edit that nothing had settled, or `-` if there was none.
fn print_edits(edits: &[bool], line: &mut String) -> Result<(), AllocError>
    ensures { OnOk result (string_bytes line.new ≡ string_bytes line.old ++ edit_digits edits.now) }
{
    if edits.is_empty() {
        return line.push_str("-");
    }
    for is_kept in edits {
        line.push(if *is_kept { '1' } else { '0' })?;
    }
    Ok(())
}

#[tactic(auto, using(crate::proofs::Appending::appends_both, crate::proofs::Appending::appends_more, crate::proofs::Appending::appends_none))]
fn print_rows(crash: &Crash, line: &mut String) -> Result<(), AllocError>
    ensures { OnOk result (Appends (string_bytes line.old) (string_bytes line.new)) }
{
    for (place, (_, choices)) in crash.places.iter().zip(crash.rows.rows().iter()) {
        print_row(place, choices, line)?;
    }
    Ok(())
}

/// Appends a reply's line to `line`, without the line feed. After an error, a part of it may have been appended.
pub fn print_reply(reply: &Reply, line: &mut String) -> Result<(), AllocError>
    ensures { OnOk result (Prints reply.now (string_bytes line.old) (string_bytes line.new)) }
{
    match reply {
        Reply::Done => line.push_str("ok"),
        Reply::Opened(descriptor) => {
            let number = descriptor.number();
            write!(line, "opened {number}")
        }
        Reply::Inode(inode) => write!(line, "inode {inode}"),
        Reply::Found(binding, size) => print_binding(binding, *size, line),
        Reply::Size(size) => write!(line, "size {size}"),
        Reply::Names(names) => {
            line.push_str("names")?;
            print_names(names, line)
        }
        Reply::Tree(entries) => {
            line.push_str("tree")?;
            print_tree(entries, line)
        }
        Reply::Crashed(crash) => {
            line.push_str("crashed ")?;
            print_edits(&crash.edits, line)?;
            print_rows(crash, line)
        }
        Reply::Refused(error) => print_refusal(error, line),
    }
}
