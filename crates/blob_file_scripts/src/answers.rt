//! Making the call of a line, and printing its reply.
ghost use Rattle.std.specs.Prelude.{◌≡◌, IfSome, OnOk, Some, string_bytes};
ghost use Rattle.blob_fs.specs.declared.reply.Reply.TheVariants as replies;
ghost use Rattle.blob_fs.specs.Acts.{act_of};
ghost use Rattle.blob_file_scripts.specs.Answers.{Answers, OnOpen, OnPath, PrintsLast, Reads, Shows};
ghost use Rattle.blob_file_scripts.specs.CallLines.{file_act, said_by};

use crate::call::{Line, Named, OnFile};
use crate::reply_line::{print_hex, print_reply};
use blob_file_sessions::KeptFiles;
use blob_fs::call::{Call, LookUp, NumberCall, PathCall};
use blob_fs::{Descriptor, Reply};
use std::alloc::{AllocError, Global};

/// Appends the reply to the last call.
fn print_last(files: &KeptFiles, line: &mut String) -> Result<(), AllocError>
    ensures { OnOk result (PrintsLast files.now.last (string_bytes line.old) (string_bytes line.new)) }
{
    match files.reply() {
        Some(reply) => print_reply(reply, line),
        None => Ok(()),
    }
}

/// Returns the last reply, if it is a size.
fn last_size(files: &KeptFiles) -> Option<u64>
    ensures { IfSome result (λ size. files.now.last ≡ Some (replies.Size size)) }
{
    match files.reply() {
        Some(Reply::Size(size)) => Some(*size),
        _ => None,
    }
}

/// Returns the descriptor of the last reply, if it has one.
fn last_opened(files: &KeptFiles) -> Option<Descriptor>
    ensures { IfSome result (λ f. files.now.last ≡ Some (replies.Opened f)) }
{
    match files.reply() {
        Some(Reply::Opened(file)) => Some(*file),
        _ => None,
    }
}

/// Makes a call, and appends its reply.
fn make(files: &mut KeptFiles, call: &Call<'_>, line: &mut String) -> Result<(), AllocError>
    ensures { OnOk result (Shows (act_of call.now)
        files.old files.new (string_bytes line.old) (string_bytes line.new)) }
{
    files.make(call);
    print_last(files, line)
}

/// Reads up to `len` bytes, as many as the file has from the offset on, and appends them.
fn read(
    alloc: Global,
    files: &mut KeptFiles,
    file: Descriptor,
    offset: u64,
    len: usize,
    line: &mut String,
) -> Result<(), AllocError>
    ensures { OnOk result (Reads file offset len files.old files.new (string_bytes line.old) (string_bytes line.new)) }
{
    files.make(&Call::LookUp(LookUp::Size(file)));
    let Some(size) = last_size(files) else {
        return print_last(files, line);
    };
    let left = size.saturating_sub(offset) as usize;
    let mut bytes = Vec::new(alloc);
    bytes.resize(len.min(left), 0)?;
    let _ = files.read(file.number(), offset, &mut bytes);
    let Some(count) = last_size(files) else {
        return print_last(files, line);
    };
    bytes.truncate(count as usize);
    line.push_str("bytes ")?;
    print_hex(&bytes, line)
}

/// Makes a call on an open file, and appends its reply.
fn on_open(
    alloc: Global,
    files: &mut KeptFiles,
    file: Descriptor,
    call: OnFile<'_>,
    line: &mut String,
) -> Result<(), AllocError>
    ensures { OnOk result (OnOpen (file_act call.entry file)
        files.old files.new (string_bytes line.old) (string_bytes line.new)) }
{
    match call {
        OnFile::Read { offset, len } => read(alloc, files, file, offset, len, line),
        _ => make(files, &call.through(file), line),
    }
}

/// Opens a file by its path, makes a call on it, and closes it. Appends the reply of the call, or the refusal of the open.
fn on_path(
    alloc: Global,
    files: &mut KeptFiles,
    path: &[u8],
    call: OnFile<'_>,
    line: &mut String,
) -> Result<(), AllocError>
    ensures { OnOk result (OnPath path.now (file_act call.entry)
        files.old files.new (string_bytes line.old) (string_bytes line.new)) }
{
    files.make(&Call::ByPath(PathCall::Open(path)));
    let Some(file) = last_opened(files) else {
        return print_last(files, line);
    };
    let printed = on_open(alloc, files, file, call, line);
    files.make(&Call::ByNumber(NumberCall::Close(file)));
    printed
}

/// Makes the call of a line, and appends its reply as a line, without the line feed. The only error is that of an allocation.
pub fn answer(
    alloc: Global,
    files: &mut KeptFiles,
    call: &Line<'_>,
    line: &mut String,
) -> Result<(), AllocError>
    ensures { OnOk result (Answers (said_by call.now)
        files.old files.new (string_bytes line.old) (string_bytes line.new)) }
{
    match *call {
        Line::Call(call) => make(files, &call, line),
        Line::On(Named::Descriptor(file), call) => on_open(alloc, files, file, call, line),
        Line::On(Named::Path(path), call) => on_path(alloc, files, path, call, line),
    }
}
